//! Tasks: the bodies of a program, and after them its methods that override.
ghost use Rattle.std.specs.Prelude.{◌≡◌, ◌<◌, IfOk, MatchOption, length, true};
ghost use Rattle.jn_contrib.specs.Sends.{slot_numbers};
ghost use Rattle.jn_contrib.specs.Entries.{AreOverriders};
ghost use Rattle.jn_sigtable.specs.System.{IsReadList};
ghost use Rattle.jn_inference_law.specs.Inference.{inference, task_reads, words_for};
ghost use Rattle.jn_tables_law.specs.Tasks.{is_body_task, task_count, task_sends};
ghost use Rattle.jn_tables_law.specs.Inferable.{least_sends};
ghost use Rattle.jn_inference_law.specs.Reading.{has_word};
ghost use Rattle.jn_system.specs.Ready.{AreReady, IsOverriderOf};

use crate::listing::{pair_words, words_read};
use crate::reading::{body_reads, pair_reads};
use jn_base::{BodyNo, MethodNo, OutOfMemory, SlotNo, WordNo};
use jn_contrib::{Overrider, contrib_by, pair_contrib_by};
use jn_env::{OwnFields, find_keys_by};
use jn_flow::flow_by;
use jn_points::Program;
use jn_quals::Qual;
use jn_sigs::Sig;
use jn_transfer::Analysis;
use std::alloc::{AllocError, Global};

/// The overriding method of a task after the bodies; None for a body.
#[tactic(auto, using(crate::proofs::TaskSteps::is_body, crate::proofs::TaskSteps::is_overrider))]
pub fn overrider_of<'a>(
    program: &Program,
    overriders: &'a [Overrider],
    task: BodyNo,
) -> Option<&'a Overrider>
    requires overriders { AreOverriders program.now overriders.now }
    requires task { task.0 < task_count program.now }
    ensures { MatchOption result
        ((task.0 < length program.now.bodies) × (is_body_task program.now task.0 ≡ true))
        (λ o. IsOverriderOf program.now task.0 o.now) }
{
    let bodies = program.bodies.len();
    let at = task.0 as usize;
    if at < bodies {
        None
    } else {
        Some(&overriders[at - bodies])
    }
}

/// Whether the task reads a slot of the word.
#[tactic(auto, using(crate::proofs::TaskSteps::body_word, crate::proofs::TaskSteps::pair_word))]
pub fn task_reads(program: &Program, overriders: &[Overrider], task: BodyNo, word: u32) -> bool
    requires overriders { AreOverriders program.now overriders.now }
    requires task { task.0 < task_count program.now }
    ensures { result ≡ has_word word (task_reads program.now task.0) }
{
    match overrider_of(program, overriders, task) {
        None => body_reads(program, task, word),
        Some(overrider) => pair_reads(program, overrider, word),
    }
}

/// The words that the task reads, each once.
#[tactic(auto, using(crate::proofs::TaskSteps::body_words, crate::proofs::TaskSteps::overrider_words))]
pub fn task_words(
    alloc: Global,
    program: &Program,
    overriders: &[Overrider],
    count: u32,
    task: BodyNo,
) -> Result<Vec<WordNo>, AllocError>
    requires overriders { AreOverriders program.now overriders.now }
    requires task { task.0 < task_count program.now }
    requires count { count ≡ words_for (length program.now.slots) }
    ensures { IfOk result (λ words. IsReadList (inference program.now) task.0 words.items) }
{
    match overrider_of(program, overriders, task) {
        None => words_read(alloc, program, count, task),
        Some(overrider) => pair_words(alloc, program, count, overrider),
    }
}

/// What a body sends under its least table.
fn body_contrib(
    alloc: Global,
    program: &Program,
    own: &OwnFields,
    sig: &Sig,
    body: BodyNo,
) -> Result<Vec<(SlotNo, Qual)>, OutOfMemory>
    requires ready { AreReady program.now own.now }
    requires inside { body.0 < length program.now.bodies }
    ensures { IfOk result
        (λ sends. slot_numbers sends.items ≡ least_sends program.now sig.now body.0) }
{
    let keys = find_keys_by(alloc, program, own, body)?;
    let analysis = Analysis::new(program, sig, body, &keys);
    let table = flow_by(alloc, &analysis)?;
    let sends = contrib_by(alloc, program, &keys, body, &table)?;
    Ok(sends)
}

/// What the task sends.
#[tactic(auto, using(crate::proofs::TaskSteps::body_sent, crate::proofs::TaskSteps::pair_sent))]
pub fn task_contrib(
    alloc: Global,
    program: &Program,
    own: &OwnFields,
    overriders: &[Overrider],
    sig: &Sig,
    task: BodyNo,
) -> Result<Vec<(SlotNo, Qual)>, OutOfMemory>
    requires ready { AreReady program.now own.now }
    requires overriders { AreOverriders program.now overriders.now }
    requires task { task.0 < task_count program.now }
    ensures { IfOk result
        (λ sends. slot_numbers sends.items ≡ task_sends program.now sig.now task.0) }
{
    match overrider_of(program, overriders, task) {
        None => body_contrib(alloc, program, own, sig, task),
        Some(overrider) => pair_contrib_by(
            alloc,
            program,
            sig,
            MethodNo(overrider.method),
            overrider.under.as_slice(),
        ),
    }
}
