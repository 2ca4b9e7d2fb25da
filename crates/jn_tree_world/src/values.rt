//! What values are: copied, present, numbers, truths, references.
ghost use Rattle.std.specs.Prelude.{◌≡◌, Option, Some, None, IfOk};
ghost use Rattle.jn_heap.specs.State.{got_of, int_of, prim_of, text_in};
ghost use Rattle.jn_heap.specs.Values.{Value};
ghost use Rattle.jn_machine.specs.Ends.{answer_of};
ghost use Rattle.jn_meaning.specs.Operations as ops;
ghost use Rattle.jn_meaning.specs.Worlds as spec;
ghost use Rattle.jn_meaning.specs.Worlds.{Has};
ghost use Rattle.jn_tree_world.specs.Outcomes.{Goes, Means, passes};
ghost use Rattle.jn_tree_world.specs.Worlds.{world_of};

use crate::halt::Halt;
use crate::world::World;
use jn_base::{ClassNo, Span, Text};
use jn_machine::{Got, Plain, Primitive, Value};
use jn_points::Program;
use std::alloc::{AllocError, Global};

/// The value, copied.
pub fn copied(value: &Option<Value>) -> Result<Option<Value>, Halt>
    ensures { (w : spec.World) → Means (Has value.now w) result w }
{
    match value {
        None => Ok(None),
        Some(given) => match given.copy() {
            Err(_) => Err(Halt::OutOfMemory),
            Ok(copy) => Ok(Some(copy)),
        },
    }
}

/// What an operation gives, as a value; the end that it comes to stands at the form.
pub fn got(got: Got<Value>, span: Span) -> Result<Option<Value>, Halt>
    ensures { (w : spec.World) → Means (spec.got span (answer_of got) w) result w }
{
    match got {
        Got::Gives(value) => Ok(Some(value)),
        Got::Fails(end) => Err(Halt::Faulted(end, span)),
        Got::Lacks => Err(Halt::Senseless),
    }
}

/// A value that must be there.
pub fn present(value: Option<Value>, span: Span) -> Result<Option<Value>, Halt>
    ensures { (w : spec.World) → Means (spec.got span (got_of value) w) result w }
{
    match value {
        None => Err(Halt::Senseless),
        Some(given) => Ok(Some(given)),
    }
}

/// The int or boolean that a value is.
pub fn prim(value: &Option<Value>) -> Option<Primitive>
    ensures { result ≡ prim_of value.now }
{
    match value {
        None => None,
        Some(given) => given.prim(),
    }
}

/// The number that an int is.
pub fn int(value: &Option<Value>) -> Option<i32>
    ensures { result ≡ int_of (prim_of value.now) }
{
    match prim(value) {
        None => None,
        Some(prim) => match prim.plain() {
            Plain::Int(number) => Some(number),
            Plain::Bool(_) => None,
        },
    }
}

/// The text that joins and prints of a value.
pub fn shown(alloc: Global, value: &Option<Value>) -> Result<Option<Text>, AllocError>
    ensures { IfOk result (λ t. t ≡ text_in value.now) }
{
    match value {
        None => Ok(None),
        Some(given) => given.shown(alloc),
    }
}

/// The truth that a value is.
pub fn truth(value: &Option<Value>) -> Result<bool, Halt>
    ensures { (w : spec.World) → Means (spec.truth_in value.now w) result w }
{
    match prim(value) {
        None => Err(Halt::Senseless),
        Some(prim) => match prim.plain() {
            Plain::Bool(truth) => Ok(truth),
            Plain::Int(_) => Err(Halt::Senseless),
        },
    }
}

/// Passes what isn't null; a null is dereferenced by the operand that stands there.
#[tactic(auto, using(crate::proofs::Nulls::same_null, crate::proofs::Nulls::other_null))]
pub fn not_null(value: &Option<Value>, span: Span) -> Result<(), Halt>
    ensures { (w : spec.World) → Goes (passes value.now span w) result w }
{
    match value {
        None => Ok(()),
        Some(given) => {
            if given.same(&Value::null()) {
                Err(Halt::NullAt(span))
            } else {
                Ok(())
            }
        }
    }
}

/// Whether a reference is null (JLS 15.21.3).
#[tactic(auto, using(crate::proofs::Nulls::null_told, crate::proofs::Nulls::not_reference))]
pub fn is_null(value: &Option<Value>) -> Result<bool, Halt>
    ensures { (w : spec.World) → Means (ops.is_null_value value.now w) result w }
{
    let Some(given) = value else {
        return Err(Halt::Senseless);
    };
    match given.prim() {
        Some(_) => Err(Halt::Senseless),
        None => Ok(given.same(&Value::null())),
    }
}

/// Whether a reference is of the class (JLS 15.20.2).
#[tactic(auto, using(crate::proofs::Nulls::within_told, crate::proofs::Nulls::no_instance))]
pub fn is_instance(
    program: &Program,
    w: &World,
    class: ClassNo,
    value: &Option<Value>,
) -> Result<bool, Halt>
    ensures { Means (ops.is_instance program.now class.0 value.now (world_of w.now)) result
        (world_of w.now) }
{
    let Some(given) = value else {
        return Err(Halt::Senseless);
    };
    match given.prim() {
        Some(_) => Err(Halt::Senseless),
        None => Ok(given.is_within(program, &w.heap, class)),
    }
}
