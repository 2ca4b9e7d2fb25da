//! The read of a field by which a chain leaves its first registers.
ghost use Rattle.std.specs.Prelude.{◌≡◌, None, cond};
ghost use Rattle.std.specs.Option.{option_or};
ghost use Rattle.jn_points.specs.Lookup.{point_at};
ghost use Rattle.jn_note_words.specs.Leaving as spec;

use crate::spans::point_at;
use jn_points::{PointKind, Program};
use jn_reasons_law::{Bit, Item, Place, Step};

/// A read of a field: the body, the point, the register of the object, and the field.
#[derive(Clone, Copy, Debug, PartialEq, Eq)]
pub struct ReadAt {
    pub body: u32,
    pub point: u32,
    pub object: u32,
    pub field: u32,
}

/// The read, where the point writes the register with a field.
fn read_by(body: u32, point: u32, reg: u32, kind: &PointKind) -> Option<ReadAt>
    ensures { result ≡ spec.read_by body point reg kind.now }
{
    match kind {
        PointKind::FieldRead { dst, object, field } => {
            if dst.0 == reg {
                Some(ReadAt {
                    body,
                    point,
                    object: object.reg.0,
                    field: field.0,
                })
            } else {
                None
            }
        }
        _ => None,
    }
}

fn read_at(program: &Program, body: u32, point: u32, reg: u32) -> Option<ReadAt>
    ensures { result ≡ spec.read_at body point reg (point_at program.now body point) }
{
    match point_at(program, body, point) {
        None => None,
        Some(info) => read_by(body, point, reg, &info.kind),
    }
}

/// The read by which a null in a register comes from a point.
fn read_from(program: &Program, item: Item, place: Place) -> Option<ReadAt>
    ensures { result ≡ spec.read_from program.now item place }
{
    match item {
        Item::AtRegister(_, _, reg, Bit::Nullable) => match place {
            Place::OfPoint(body, point) => read_at(program, body, point, reg),
            _ => None,
        },
        _ => None,
    }
}

/// Whether a null in a register comes from a point.
fn goes_on(step: Step) -> bool
    ensures { result ≡ spec.goes_on step }
{
    match step.item {
        Item::AtRegister(_, _, _, Bit::Nullable) => match step.place {
            Place::OfPoint(_, _) => true,
            _ => false,
        },
        _ => false,
    }
}

/// The first read of a field of a chain's steps, before they leave the registers, by its first step and that of the steps behind.
pub fn read_with(program: &Program, step: Step, behind: Option<ReadAt>) -> Option<ReadAt>
    ensures { result ≡ option_or (spec.read_from program.now step.item step.place)
        (cond (spec.goes_on step) behind None) }
{
    let found = read_from(program, step.item, step.place);
    if found.is_some() {
        found
    } else if goes_on(step) {
        behind
    } else {
        None
    }
}
