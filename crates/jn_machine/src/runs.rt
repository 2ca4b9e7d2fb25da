//! Start states and runs.
ghost use Rattle.std.specs.Prelude.{◌≡◌, ◌∷◌, [], IfOk};
ghost use Rattle.jn_heap.specs.Values.{At, Elems, Text as TextValue, first_of, statics_of, usual_limits};
ghost use Rattle.jn_heap.specs.State.{Goes};
ghost use Rattle.jn_heap.specs.Calls.{entered};
ghost use Rattle.jn_heap.specs.Runs as spec;
ghost use Rattle.jn_machine.specs.StateView.{state_of, next_of};

use crate::calls::entered;
use crate::frame::Frame;
use crate::prim::Primitive;
use crate::state::{MachineState, Stepped};
use crate::steps::step;
use crate::thing::Thing;
use crate::value::Value;
use jn_base::{BodyNo, ClassNo, OutOfMemory, Seq, Text};
use jn_points::{BaseType, Elem, Field, Program};
use jn_trees::Names;
use std::alloc::{AllocError, Global};
use std::collections::VecDeque;

/// A static field's first number.
fn first_of(base: BaseType, first: i32) -> Primitive
    ensures { result ≡ first_of base first }
{
    match base {
        BaseType::Bool => Primitive::bool(first != 0),
        _ => Primitive::int(first),
    }
}

/// The number of each field as a static one, from its initializer.
pub fn statics_of(alloc: Global, fields: &[Field]) -> Result<Vec<Primitive>, AllocError>
    ensures { IfOk result (λ v. v.items ≡ statics_of fields.now) }
{
    let mut statics = Vec::new(alloc);
    for field in fields {
        statics.push(first_of(field.base, field.first))?;
    }
    Ok(statics)
}

/// A word as a String.
fn text_value(alloc: Global, word: &Text) -> Result<Value, AllocError>
    ensures { IfOk result (λ v. v ≡ TextValue word.now) }
{
    let text = word.copy(alloc)?;
    Value::text(alloc, text)
}

/// Each word as a String.
fn texts(alloc: Global, words: &[Text]) -> Result<Vec<Value>, AllocError>
    ensures { IfOk result (λ v. v.items ≡ spec.texts words.now) }
{
    let mut values = Vec::new(alloc);
    for word in words {
        values.push(text_value(alloc, word)?)?;
    }
    Ok(values)
}

/// The heap of a start: the words as an array, alone.
pub fn first_heap(alloc: Global, words: &[Text]) -> Result<Vec<Thing>, AllocError>
    ensures { IfOk result (λ heap. heap.items ≡ Elems spec.words_base (spec.texts words.now) ∷ []) }
{
    let items = texts(alloc, words)?;
    let base = BaseType::Array(Elem::Ref(ClassNo(1)), false);
    let mut heap = Vec::new(alloc);
    heap.push(Thing::array(base, items))?;
    Ok(heap)
}

/// The frame of a start, with the array as its parameter.
fn first_frame(alloc: Global, program: &Program, body: usize) -> Result<Frame, AllocError>
    ensures { IfOk result (λ f. f ≡ entered program.now body (At 0 ∷ [])) }
{
    let mut values = Seq::new(alloc);
    values.push(Value::at(0))?;
    entered(alloc, program, body, values)
}

/// The start of a `main` with this body and these words.
///
/// # Errors
/// No memory was found.
pub fn start(
    alloc: Global,
    program: &Program,
    body: BodyNo,
    words: &[Text],
) -> Result<MachineState, OutOfMemory>
    ensures { IfOk result
        (λ state. state_of state [] ≡ spec.start_state program.now usual_limits body.0 words.now) }
{
    let heap = first_heap(alloc, words)?;
    let statics = statics_of(alloc, program.fields.as_slice())?;
    let top = first_frame(alloc, program, body.0 as usize)?;
    Ok(MachineState {
        heap,
        statics,
        top,
        waiting: VecDeque::new(alloc),
    })
}

/// Runs at most so many steps. `Stepped::Goes` says that the machine still goes on after all of
/// them. What is printed is put after `out`.
///
/// # Errors
/// No memory was found; state and `out` are then of no use.
#[tactic(auto, using(crate::proofs::Ending::run_more, crate::proofs::Ending::ends_within, crate::proofs::Ending::sticks_within))]
pub fn run(
    alloc: Global,
    program: &Program,
    names: &Names,
    state: &mut MachineState,
    steps: u64,
    out: &mut Vec<u8>,
) -> Result<Stepped, OutOfMemory>
    ensures { IfOk result (λ stepped. spec.run program.now names.now
        (Goes (state_of state.old out.old.items)) steps
        ≡ next_of stepped state.new out.new.items) }
{
    for _ in 0..steps {
        match step(alloc, program, names, state, out)? {
            Stepped::Goes => {}
            Stepped::Ends(end) => return Ok(Stepped::Ends(end)),
            Stepped::Stuck => return Ok(Stepped::Stuck),
        }
    }
    Ok(Stepped::Goes)
}
