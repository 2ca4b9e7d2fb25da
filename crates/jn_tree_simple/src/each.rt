//! The parts of a `for` over an array (JLS 14.14.2): three locals in a row are the array, the index and the variable.
ghost use Rattle.std.specs.Prelude.{◌≡◌, ◌+◌, ℕ, List, Some};
ghost use Rattle.jn_heap.specs.Values.{Number, Plain, usual_limits};
ghost use Rattle.jn_meaning.specs.Expressions.{Caller};
ghost use Rattle.jn_meaning.specs.Statements as spec;
ghost use Rattle.jn_places.specs.PlacedView.{placed_view};
ghost use Rattle.jn_tree_world.specs.Outcomes.{Means};
ghost use Rattle.jn_tree_world.specs.Worlds.{world_of};
ghost use Rattle.jn_tree_simple.specs.Doing.{IsHidden, each_holds, each_moves, each_takes};
ghost use Rattle.jn_tree_simple.specs.Standings.{standing_of};

use crate::pieces::value_in;
use crate::standing::{Site, Standing};
use jn_base::{RegNo, Span};
use jn_machine::{Primitive, Value};
use jn_points::Operator;
use jn_tree_expr::{Calling, Enters};
use jn_tree_world::operators::binary;
use jn_tree_world::place::read_place;
use jn_tree_world::values::truth;
use jn_tree_world::{Halt, Place, World};
use jn_trees::{Expr, Names};

/// The locals of the array, the index and the variable, and where the array stands.
#[derive(Clone, Copy)]
pub struct Hidden {
    pub array: RegNo,
    pub index: RegNo,
    pub item: RegNo,
    pub at: Span,
}

/// A number as a value.
fn number(number: i32) -> Option<Value>
    ensures { result ≡ Some (Plain (Number number)) }
{
    Some(Value::plain(Primitive::int(number)))
}

/// The array, evaluated once, and index 0.
pub fn begin<F: Enters>(
    array: &Expr,
    first: RegNo,
    index: RegNo,
    b: &Site,
    names: &Names,
    call: &Calling<F>,
    st: &Standing,
    w: &mut World,
) -> Result<Option<Value>, Halt>
    requires first { first.0 ≡ st.now.count }
    requires index { index.0 ≡ st.now.count + 1 }
    ensures { (turns : ℕ) (m : Caller) → F.keeps call.now m
        → Means (spec.each_begun b.now.program.now names.now usual_limits.longest m turns
        b.now.class.0 (standing_of st.now) (placed_view array.now) (world_of w.old)) result
        (world_of w.new) }
{
    let given = value_in(array, b, names, call, st, w)?;
    w.set_local(first, given)?;
    w.set_local(index, number(0))
}

/// Whether the index is below the length.
fn below(b: &Site, w: &World, hidden: Hidden) -> Result<Option<Value>, Halt>
    ensures { (names : List (List ℕ)) (turns : ℕ) (m : Caller) (r : ℕ) → IsHidden hidden r
        → Means (spec.each_below b.now.program.now names usual_limits.longest m turns b.now.class.0
        hidden.at r (world_of w.now)) result (world_of w.now) }
{
    let array = w.local(hidden.array)?;
    let place = Place::Length(array, hidden.at);
    let length = read_place(b.program.program(), w, &place, hidden.at)?;
    let index = w.local(hidden.index)?;
    binary(Operator::Less, &index, &length, hidden.at)
}

/// Whether there is an element left.
pub fn holds(b: &Site, w: &World, hidden: Hidden) -> Result<bool, Halt>
    ensures { (names : List (List ℕ)) (turns : ℕ) (m : Caller) (r : ℕ) → IsHidden hidden r
        → Means (each_holds b.now names m turns hidden.at r (world_of w.now)) result
        (world_of w.now) }
{
    let given = below(b, w, hidden)?;
    truth(&given)
}

/// The element at the index, in the variable.
pub fn take(b: &Site, w: &mut World, hidden: Hidden) -> Result<Option<Value>, Halt>
    ensures { (names : List (List ℕ)) (turns : ℕ) (m : Caller) (r : ℕ) → IsHidden hidden r
        → Means (each_takes b.now names m turns hidden.at r (world_of w.old)) result
        (world_of w.new) }
{
    let array = w.local(hidden.array)?;
    let index = w.local(hidden.index)?;
    let place = Place::Element(array, hidden.at, index);
    let given = read_place(b.program.program(), w, &place, hidden.at)?;
    w.set_local(hidden.item, given)
}

/// The next index.
pub fn move_on(b: &Site, w: &mut World, hidden: Hidden) -> Result<Option<Value>, Halt>
    ensures { (names : List (List ℕ)) (turns : ℕ) (m : Caller) (r : ℕ) → IsHidden hidden r
        → Means (each_moves b.now names m turns hidden.at r (world_of w.old)) result
        (world_of w.new) }
{
    let _class = b.class;
    let index = w.local(hidden.index)?;
    let next = binary(Operator::Add, &index, &number(1), hidden.at)?;
    w.set_local(hidden.index, next)
}
