//! What is printed (java.io.PrintStream).
ghost use Rattle.std.specs.Prelude.{◌≡◌, ◌++◌, ◌∷◌, [], ℕ, List, OnOk};
ghost use Rattle.jn_heap.specs.State.{text_in};
ghost use Rattle.jn_meaning.specs.Expressions.{Caller, printed_first};
ghost use Rattle.jn_points.specs.declared.program.Program as program;
ghost use Rattle.jn_meaning.specs.Operations as ops;
ghost use Rattle.jn_tree_world.specs.Outcomes.{Means};
ghost use Rattle.jn_tree_world.specs.Worlds.{world_of};

use crate::halt::Halt;
use crate::values::shown;
use crate::world::World;
use jn_machine::Value;
use jn_machine::text::joined;
use std::alloc::{AllocError, Global};

/// Puts the text and a line feed after the bytes.
fn put_line(alloc: Global, out: &mut Vec<u8>, text: &str) -> Result<(), AllocError>
    ensures { OnOk result (out.new.items ≡ out.old.items ++ (text.now ++ 10 ∷ [])) }
{
    let line = joined(alloc, text, "\n")?;
    out.extend_from_slice(line.as_str().as_bytes())
}

/// The value's text and a line feed are printed; nothing is given.
fn print(alloc: Global, w: &mut World, value: &Option<Value>) -> Result<Option<Value>, Halt>
    ensures { Means (ops.printed (world_of w.old) (text_in value.now)) result (world_of w.new) }
{
    match shown(alloc, value) {
        Err(_) => Err(Halt::OutOfMemory),
        Ok(None) => Err(Halt::Senseless),
        Ok(Some(text)) => match put_line(alloc, &mut w.out, text.as_str()) {
            Err(_) => Err(Halt::OutOfMemory),
            Ok(()) => Ok(None),
        },
    }
}

/// The first argument's text and a line feed are printed, where there is one.
pub fn print_first(
    alloc: Global,
    w: &mut World,
    arguments: &[Option<Value>],
) -> Result<Option<Value>, Halt>
    ensures { (P : program.Program) (names : List (List ℕ)) (longest : ℕ) (m : Caller)
        → Means (printed_first P names longest m arguments.now (world_of w.old)) result
        (world_of w.new) }
{
    match arguments {
        [] => Ok(None),
        [first, ..] => print(alloc, w, first),
    }
}
