//! From where on a temporary of a type may be free.
ghost use Rattle.std.specs.Prelude.{◌≡◌, ◌<◌, ℕ, List, IfSome, length};
ghost use Rattle.jn_points.specs.declared.point.BaseType.{BaseType as base_type};
ghost use Rattle.jn_lower_expr.specs.Passing.{AllPast, Passes, begin};

use crate::types::same_base;
use jn_base::OutOfMemory;
use jn_points::BaseType;

/// All temporaries of the type below the number are taken.
#[derive(Clone, Copy)]
pub struct Way {
    pub base: BaseType,
    pub from: usize,
}

/// The number from which on a temporary of the type may be free.
pub fn begin(ways: &[Way], base: BaseType) -> usize
    ensures { result ≡ begin ways.now base }
{
    for way in ways {
        if same_base(way.base, base) {
            return way.from;
        }
    }
    0
}

fn place_of(ways: &[Way], base: BaseType) -> Option<usize>
    ensures { IfSome result (λ n. n < length ways.now) }
{
    for (place, way) in ways.iter().enumerate() {
        if same_base(way.base, base) {
            return Some(place);
        }
    }
    None
}

/// The type's number is this one from now on.
pub fn raise(ways: &mut Vec<Way>, way: Way) -> Result<(), OutOfMemory>
    ensures { (bases : List base_type) (taken : List ℕ)
        → AllPast bases taken ways.old.items
        → Passes 0 way.from bases taken way.base
        → AllPast bases taken ways.new.items }
{
    match place_of(ways, way.base) {
        Some(place) => {
            ways[place] = way;
            Ok(())
        }
        None => match ways.push(way) {
            Ok(()) => Ok(()),
            Err(_) => Err(OutOfMemory),
        },
    }
}
