//! The first register that a rule reads at a place, and what takes it: by the points that are kept for the place, else by all.
ghost use Rattle.std.specs.Prelude.{◌≡◌};
ghost use Rattle.jn_notes.specs.Asked.{register_item};
ghost use Rattle.jn_note_words.specs.Owned.{first_of};
ghost use Rattle.jn_notes.specs.Found.{item_by, owner_by};
ghost use Rattle.jn_notes.specs.Spoken.{taker};

use crate::placed::Placed;
use crate::reads::{Sought, by_point as item_by_point, register_item};
use crate::takers::{by_point as owner_by_point, taker};
use jn_env::FlowTable;
use jn_note_words::owners::Owner;
use jn_note_words::spans::point_at;
use jn_origins::slots::table_of;
use jn_points::Program;
use jn_reasons::Spot;
use jn_reasons_law::Item;
use jn_sigs::Sig;

/// The register that is read at a point where the rule finds the bit lacking.
fn item_by(
    sought: Sought,
    program: &Program,
    sig: &Sig,
    tables: &[FlowTable],
    spot: Spot,
) -> Option<Item>
    ensures { result ≡ item_by program.now sig.now sought tables.now spot }
{
    match point_at(program, spot.body.0, spot.point.0) {
        None => None,
        Some(point) => item_by_point(
            sought,
            program,
            sig,
            spot,
            point,
            table_of(tables, spot.body),
        ),
    }
}

fn first_item(
    sought: Sought,
    program: &Program,
    sig: &Sig,
    tables: &[FlowTable],
    spots: &[Spot],
) -> Option<Item>
    ensures { result ≡ first_of (item_by program.now sig.now sought tables.now) spots.now }
{
    for spot in spots {
        let found = item_by(sought, program, sig, tables, *spot);
        if found.is_some() {
            return found;
        }
    }
    None
}

/// The first register that is read at the place and has the bit where the rule doesn't take it.
pub(crate) fn register_item_at(sought: Sought, placed: &Placed) -> Option<Item>
    ensures { result
        ≡ register_item placed.now.basis.program.now placed.now.basis.sig.now sought
        placed.now.basis.tables.now }
{
    let basis = placed.basis;
    match placed.sites.get(sought.span) {
        None => register_item(sought, basis.program, basis.sig, basis.tables),
        Some(spots) => first_item(sought, basis.program, basis.sig, basis.tables, spots),
    }
}

/// What takes a value at a point where the rule is broken.
fn owner_by(
    sought: Sought,
    program: &Program,
    sig: &Sig,
    tables: &[FlowTable],
    spot: Spot,
) -> Option<Owner>
    ensures { result ≡ owner_by program.now sig.now sought tables.now spot }
{
    match point_at(program, spot.body.0, spot.point.0) {
        None => None,
        Some(point) => owner_by_point(
            sought,
            program,
            sig,
            spot,
            point,
            table_of(tables, spot.body),
        ),
    }
}

fn first_owner(
    sought: Sought,
    program: &Program,
    sig: &Sig,
    tables: &[FlowTable],
    spots: &[Spot],
) -> Option<Owner>
    ensures { result ≡ first_of (owner_by program.now sig.now sought tables.now) spots.now }
{
    for spot in spots {
        let found = owner_by(sought, program, sig, tables, *spot);
        if found.is_some() {
            return found;
        }
    }
    None
}

/// What takes the value at the place where the rule is broken.
pub(crate) fn taker_at(sought: Sought, placed: &Placed) -> Option<Owner>
    ensures { result
        ≡ taker placed.now.basis.program.now placed.now.basis.sig.now sought
        placed.now.basis.tables.now }
{
    let basis = placed.basis;
    match placed.sites.get(sought.span) {
        None => taker(sought, basis.program, basis.sig, basis.tables),
        Some(spots) => first_owner(sought, basis.program, basis.sig, basis.tables, spots),
    }
}
