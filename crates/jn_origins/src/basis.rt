//! What causes are over.
ghost use Rattle.jn_inference_law.proofs.OneFact.{inferable_prop};
ghost use Rattle.jn_origins.specs.OneFact.{sized_prop};
ghost use Rattle.jn_origins.specs.Standing.{AreSized};
ghost use Rattle.jn_tables_law.specs.Inferable.{IsInferable};

use jn_env::FlowTable;
use jn_points::Program;
use jn_sigs::Sig;

/// A program that can be inferred, a signature, and a table for each body, which has environments of that body.
#[derive(Clone, Copy)]
pub struct Basis<'a> {
    pub program: &'a Program,
    pub sig: &'a Sig,
    pub tables: &'a [FlowTable],
    ghost inferable: { IsInferable program.now } by { inferable_prop program.now },
    ghost sized: { AreSized program.now tables.now } by { sized_prop program.now tables.now },
}
