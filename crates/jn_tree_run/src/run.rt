//! The run of a main by its trees.
ghost use Rattle.std.specs.Prelude.{◌≡◌, ◌≢◌, ◌≤◌, ◌∷◌, [], map, IfOk, Option};
ghost use Rattle.jn_accept.specs.Mains.{IsMain};
ghost use Rattle.jn_heap.specs.Values as value;
ghost use Rattle.jn_meaning.specs.Bodies as spec;
ghost use Rattle.jn_outside.specs.Causes.{Rose};
ghost use Rattle.jn_places.specs.PlacedView.{placed_file};
ghost use Rattle.jn_program_law.specs.FileSources.{sources};
ghost use Rattle.jn_meaning.specs.Worlds as worlds;
ghost use Rattle.jn_tree_world.specs.Outcomes.{Means};
ghost use Rattle.jn_tree_run.specs.Ends.{Answers, EndsAs, IsTold};
ghost use Rattle.jn_tree_run.specs.Beginning.{HasTrees, told_in, within_frames};

use crate::calling::{Run, enter};
use crate::ended::{TreeEnd, stopped};
use jn_base::{MethodNo, OutOfMemory, Text};
use jn_index::BaseTyped;
use jn_machine::Value;
use jn_meaning_law::law::accepted_files_are_safe_by_trees;
use jn_outside::{Sink, write_whole};
use jn_points::Program;
use jn_program::sources::sources_of_files;
use jn_tree_world::frames::start;
use jn_tree_world::{Halt, World};
use jn_trees::{FileTree, Names};
use std::alloc::{AllocError, Global};

/// How a main ended, and the text that it printed.
#[derive(Drop)]
struct Told {
    end: TreeEnd,
    text: Vec<u8>,
}

/// The array of the words, which is alone on the heap.
fn words_array(alloc: Global) -> Result<Vec<Value>, AllocError>
    ensures { IfOk result (λ values. values.items ≡ value.At 0 ∷ []) }
{
    let mut values = Vec::new(alloc);
    values.push(Value::at(0))?;
    Ok(values)
}

/// How a main ended whose body answered so, with this text printed.
fn finish(answer: Result<Option<Value>, Halt>, text: Vec<u8>) -> Result<Told, AllocError>
    requires meant { (end : spec.TreeEnd) × EndsAs answer end × (end ≡ spec.Stuck → ⊥) }
    ensures { IfOk result (λ told. (r : worlds.Result (Option value.Value)) (w : worlds.World)
        → Means r answer w → w.out ≡ text.items
        → IsTold (spec.told r) told.end told.text.items) }
{
    match answer {
        Ok(_) => Ok(Told {
            end: TreeEnd::Done,
            text,
        }),
        Err(halt) => match stopped(halt) {
            None => Err(AllocError),
            Some(end) => Ok(Told { end, text }),
        },
    }
}

/// Runs a main with these words and so many units of fuel.
fn play(run: &Run, main: MethodNo, words: &[Text], fuel: u64) -> Result<Told, AllocError>
    requires meant { (told_in run.now main.0 words.now fuel).end ≡ spec.Stuck → ⊥ }
    ensures { IfOk result
        (λ told. IsTold (told_in run.now main.0 words.now fuel) told.end told.text.items) }
{
    let mut w = start(run.alloc, run.program.program(), words, fuel)?;
    let values = words_array(run.alloc)?;
    let answer = enter(run, fuel, 0, main.0 as usize, values, &mut w);
    let World { out, .. } = w;
    finish(answer, out)
}

/// Writes the text of a run, and gives its end.
fn tell<K: Sink>(end: TreeEnd, text: &[u8], out: &mut K) -> TreeEnd
    requires written { end ≢ TreeEnd.WriteFault }
    ensures answer { (t : spec.Told) → IsTold t end text.now
        → Answers t (K.written out.old) (K.written out.new) result }
    ensures write { result ≡ TreeEnd.WriteFault → Rose (K.faults out.old) (K.faults out.new) }
    ensures kept { result ≢ TreeEnd.WriteFault → K.faults out.new ≡ K.faults out.old }
    ensures later { K.faults out.old ≤ K.faults out.new }
{
    match write_whole(out, text) {
        Ok(()) => end,
        Err(_) => TreeEnd::WriteFault,
    }
}

/// Runs a main of base-typed files by the meaning of their trees, with these words, so many frames at most and so many units of
/// fuel: one is spent where a body is entered, and one at each turn of a loop. The text that it prints is written after the run, and the end is that of the
/// trees, by the definition `jn_meaning::specs::Bodies::tree`. Trees of such files always have a meaning.
///
/// After `WriteFault`, which comes exactly where the sink's count of faults rose, a prefix of the text went out, and after
/// `OutOfMemory` nothing.
pub fn tree_run<K: Sink>(
    alloc: Global,
    base: &BaseTyped,
    trees: &[FileTree],
    names: &Names,
    main: MethodNo,
    words: &[Text],
    frames: u64,
    fuel: u64,
    out: &mut K,
) -> TreeEnd
    requires program { HasTrees (map placed_file trees.now) base.now }
    requires main { IsMain base.now main.0 }
    ensures answer { Answers
        (spec.tree base.now (sources (map placed_file trees.now)) names.now (within_frames frames)
        main.0 words.now fuel)
        (K.written out.old) (K.written out.new) result }
    ensures write { result ≡ TreeEnd.WriteFault → Rose (K.faults out.old) (K.faults out.new) }
    ensures kept { result ≢ TreeEnd.WriteFault → K.faults out.new ≡ K.faults out.old }
    ensures later { K.faults out.old ≤ K.faults out.new }
{
    accepted_files_are_safe_by_trees();
    let program = base.indexed();
    let Ok(all) = sources_of_files(alloc, trees) else {
        return TreeEnd::OutOfMemory;
    };
    let run = Run {
        program,
        sources: &all,
        names,
        deepest: frames,
        alloc,
    };
    match play(&run, main, words, fuel) {
        Err(_) => TreeEnd::OutOfMemory,
        Ok(told) => tell(told.end, &told.text, out),
    }
}
