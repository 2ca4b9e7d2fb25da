//! Where the values of names stand (JLS 6.5.6 and 15.11).
ghost use Rattle.std.specs.Prelude.{◌≡◌, ℕ, List};
ghost use Rattle.jn_meaning.specs.Expressions as spec;
ghost use Rattle.jn_meaning.specs.Worlds.{Has};
ghost use Rattle.jn_lowering.specs.Scopes.{FieldMeant};
ghost use Rattle.jn_scopes.specs.Views.{meaning_of, access_of};
ghost use Rattle.jn_tree_expr.specs.Meaning.{object_place};
ghost use Rattle.jn_tree_world.specs.Outcomes.{MeansAs};
ghost use Rattle.jn_tree_world.specs.Worlds.{place_of, world_of};

use jn_base::{FieldNo, RegNo, Span};
use jn_machine::Value;
use jn_scopes::members::is_static_field;
use jn_scopes::{Access, Context, Meaning};
use jn_tree_world::{Halt, Place, World};

/// A field of the class in which the identifier stands, through `this` where it isn't static.
fn own_place(c: &Context, w: &World, field: FieldNo, span: Span) -> Result<Place, Halt>
    ensures { (names : List (List ℕ)) (longest : ℕ) → MeansAs place_of
        (Has (spec.place_meant c.now.program.now names longest (FieldMeant field.0) span
        (world_of w.now)) (world_of w.now))
        result (world_of w.now) }
{
    if is_static_field(c.program, field) {
        return Ok(Place::Static(field));
    }
    let this = w.local(RegNo(0))?;
    Ok(Place::Field(this, span, field))
}

/// Where an identifier's value stands (JLS 6.5.6.1).
pub fn place_meant(c: &Context, w: &World, meaning: Meaning, span: Span) -> Result<Place, Halt>
    ensures { (names : List (List ℕ)) (longest : ℕ) → MeansAs place_of
        (Has (spec.place_meant c.now.program.now names longest
        (meaning_of c.now.faults.now meaning) span (world_of w.now)) (world_of w.now))
        result (world_of w.now) }
{
    match meaning {
        Meaning::Local(variable) => Ok(Place::Local(variable.reg)),
        Meaning::Field(field) => own_place(c, w, field, span),
        Meaning::Class(_) | Meaning::System | Meaning::Nothing => Ok(Place::Nothing),
    }
}

/// Where a field after a dot stands, of an object or array that was evaluated.
pub fn place_of_object(access: Access, at: Span, object: Option<Value>) -> Place
    ensures { place_of result ≡ object_place (access_of access) at object }
{
    match access {
        Access::Class(field) => Place::Static(field),
        Access::Object(field) => Place::Field(object, at, field),
        Access::Length => Place::Length(object, at),
        Access::Nothing => Place::Nothing,
    }
}
