//! Locals of frames, values of new objects, and the world in which a main begins.
ghost use Rattle.std.specs.Prelude.{◌≡◌, ◌++◌, ◌∷◌, [], ℕ, List, IfOk};
ghost use Rattle.jn_lowering.specs.Bodies as source;
ghost use Rattle.jn_machine.specs.Parts.{prepended};
ghost use Rattle.jn_meaning.specs.Bodies.{start_world};
ghost use Rattle.jn_meaning.specs.Operations as ops;
ghost use Rattle.jn_tree_world.specs.Outcomes.{Found};
ghost use Rattle.jn_tree_world.specs.Worlds.{items_in, world_of};

use crate::halt::Halt;
use crate::world::World;
use jn_base::Text;
use jn_machine::Value;
use jn_machine::runs::{first_heap, statics_of};
pub use jn_machine::{defaults, padded};
use jn_points::Program;
use std::alloc::{AllocError, Global};

/// Puts a copy of the value after the others.
fn push_copy(values: &mut Vec<Value>, value: &Value) -> Result<(), Halt>
    ensures { Found (λ u. values.new.items ≡ values.old.items ++ value.now ∷ []) result }
{
    let Ok(copy) = value.copy() else {
        return Err(Halt::OutOfMemory);
    };
    match values.push(copy) {
        Err(_) => Err(Halt::OutOfMemory),
        Ok(()) => Ok(()),
    }
}

/// Puts the values after those given; None where one isn't there.
#[tactic(auto, using(jn_machine::proofs::Pieces::prepended_more))]
pub fn all_there(front: Vec<Value>, values: &[Option<Value>]) -> Result<Option<Vec<Value>>, Halt>
    ensures { Found
        (λ r. items_in r ≡ prepended front.items (ops.all_there values.now)) result }
{
    let mut all = front;
    for held in values {
        match held {
            None => return Ok(None),
            Some(value) => push_copy(&mut all, value)?,
        }
    }
    Ok(Some(all))
}

/// The world in which a main begins: the words as an array, static fields at their initializers, nothing printed, and so many units
/// of fuel (JLS 12.1.4).
pub fn start(
    alloc: Global,
    program: &Program,
    words: &[Text],
    fuel: u64,
) -> Result<World, AllocError>
    ensures { IfOk result (λ w. (sources : List source.Source) (names : List (List ℕ)) → world_of w
        ≡ start_world program.now sources names words.now fuel) }
{
    let heap = first_heap(alloc, words)?;
    let statics = statics_of(alloc, program.fields.as_slice())?;
    Ok(World {
        heap,
        statics,
        out: Vec::new(alloc),
        locals: Vec::new(alloc),
        fuel,
    })
}
