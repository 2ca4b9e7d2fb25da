//! The least tables of all bodies.
ghost use Rattle.std.specs.Prelude.{◌≡◌, ◌<◌, IfOk, length};
ghost use Rattle.jn_tables_law.specs.Inferable.{IsInferable};
ghost use Rattle.nullcheck_cert_write.specs.Making.{AreLeastTables};

use jn_base::lists::put;
use jn_base::{BodyNo, OutOfMemory};
use jn_env::FlowTable;
use jn_flow::flow;
use jn_points::Program;
use jn_sigs::Sig;
use std::alloc::Global;

/// The least table of each body, in the order of their numbers.
pub(crate) fn least_tables(
    alloc: Global,
    program: &Program,
    sig: &Sig,
) -> Result<Vec<FlowTable>, OutOfMemory>
    requires inferable { IsInferable program.now }
    ensures { IfOk result (λ tables. AreLeastTables program.now sig.now tables.items) }
{
    let mut tables = Vec::new(alloc);
    for body in 0..program.bodies.len() {
        let table = flow(alloc, program, sig, BodyNo(body as u32))?;
        put(&mut tables, table)?;
    }
    Ok(tables)
}
