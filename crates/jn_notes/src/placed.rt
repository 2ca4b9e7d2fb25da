//! What stands at the places of rows.
ghost use Rattle.jn_sites.specs.Marks.{AreSites};
ghost use Rattle.jn_notes.specs.Placed.{sites_prop};

use jn_origins::Basis;
use jn_reasons::Spot;
use jn_sites::Sites;

/// A program with its signature and its tables, and for some places of the text the points at which a value stands there that a rule may ask something of.
#[derive(Drop)]
pub struct Placed<'a> {
    pub basis: Basis<'a>,
    pub sites: &'a Sites<Spot>,
    ghost kept: { AreSites basis.program.now sites.now } by { sites_prop basis.program.now sites.now },
}
