//! The least table of a body.
ghost use Rattle.std.specs.Prelude.{◌<◌, ◌^◌, IfOk, length};
ghost use Rattle.jn_points.specs.Lookup.{body_at, points_of};
ghost use Rattle.jn_transfer.specs.Least.{IsLeastTable};
ghost use Rattle.jn_transfer.specs.Sized.{StaysInside};

use crate::qualifiers::Qualifiers;
use jn_base::{BodyNo, OutOfMemory};
use jn_dataflow::solve;
use jn_env::{FlowTable, find_keys};
use jn_points::Program;
use jn_sigs::Sig;
use jn_transfer::Analysis;
use std::alloc::Global;

/// The least table of a body: the one that whole rounds over all points end in. A block of points is passed over again
/// only where the environment of its first point rose.
///
/// # Errors
/// No memory was found.
pub fn flow(
    alloc: Global,
    program: &Program,
    sig: &Sig,
    body: BodyNo,
) -> Result<FlowTable, OutOfMemory>
    requires inside { body.0 < length program.now.bodies }
    requires stays { StaysInside program.now body.0 }
    requires few { length program.now.fields < 2 ^ 32 }
    requires short { length (points_of (body_at program.now body.0)) < 2 ^ 32 }
    ensures { IfOk result (λ table. IsLeastTable program.now sig.now body.0 table) }
{
    let keys = find_keys(alloc, program, body)?;
    let analysis = Analysis::new(program, sig, body, &keys);
    flow_by(alloc, &analysis)
}

/// The least table of a body whose keys are at hand; see `flow`.
///
/// # Errors
/// No memory was found.
pub fn flow_by(alloc: Global, analysis: &Analysis) -> Result<FlowTable, OutOfMemory>
    requires inside { analysis.now.body < length analysis.now.program.bodies }
    requires stays { StaysInside analysis.now.program analysis.now.body }
    requires short { length (points_of (body_at analysis.now.program analysis.now.body)) < 2 ^ 32 }
    ensures { IfOk result
        (λ table. IsLeastTable analysis.now.program analysis.now.sig analysis.now.body table) }
{
    let qualifiers = Qualifiers::new(analysis);
    let table = solve(alloc, &qualifiers)?;
    Ok(FlowTable::of_slots(table.into_vec()))
}
