//! Inference over a program as a system of tasks and words.
ghost use Rattle.std.specs.Prelude.{◌≡◌, ◌<◌};
ghost use Rattle.jn_system.specs.Ready.{AreTasks, tasks_prop};

use crate::packing::pack_sends;
use crate::signature::signature_of;
use crate::tasks::{task_contrib, task_reads, task_words};
use jn_base::{BodyNo, OutOfMemory, WordNo};
use jn_contrib::Overrider;
use jn_env::OwnFields;
use jn_points::Program;
use jn_sigtable::Constraints;
use std::alloc::Global;

/// The system of a program: its tasks, the packed words of its signature, and what each task sends into inferred slots. A body does so
/// under its least table; a task after the bodies is a method that overrides.
#[derive(Drop)]
pub struct Nullness<'p> {
    pub program: &'p Program,
    own: &'p OwnFields,
    overriders: &'p [Overrider],
    ghost ready: { AreTasks program.now own.now overriders.now } by { tasks_prop program.now own.now overriders.now },
}

impl<'p> Nullness<'p> {
    /// The system of a program with the reference fields of its classes, and its methods that override.
    pub fn new(
        program: &'p Program,
        own: &'p OwnFields,
        overriders: &'p [Overrider],
    ) -> Nullness<'p>
        requires { AreTasks program.now own.now overriders.now }
        ensures { result.program.now ≡ program.now }
    {
        Nullness {
            program,
            own,
            overriders,
        }
    }
}

impl<'p> Constraints for Nullness<'p> {
    ghost use Rattle.jn_inference_law.specs.Inference.{inference};
    ghost use Rattle.jn_inference_law.proofs.InferenceLaws.{inference_lawful};

    ghost describe = { λ it. inference it.program.now };

    fn bodies(&self) -> u32 {
        (self.program.bodies.len() + self.overriders.len()) as u32
    }

    fn words(&self) -> u32 {
        ((self.program.slots.len() + 20) / 21) as u32
    }

    fn reads(&self, body: BodyNo, word: WordNo) -> bool {
        task_reads(self.program, self.overriders, body, word.0)
    }

    fn words_read(&self, alloc: Global, body: BodyNo) -> Result<Vec<WordNo>, OutOfMemory> {
        let words = task_words(alloc, self.program, self.overriders, self.words(), body)?;
        Ok(words)
    }

    fn output(
        &self,
        alloc: Global,
        body: BodyNo,
        words: &[u64],
    ) -> Result<Vec<(WordNo, u64)>, OutOfMemory> {
        let reads = task_words(alloc, self.program, self.overriders, self.words(), body)?;
        let slots = self.program.slots.len() as u32;
        let sig = signature_of(alloc, slots, words, reads.as_slice())?;
        let sends = task_contrib(alloc, self.program, self.own, self.overriders, &sig, body)?;
        let outputs = pack_sends(alloc, sends.as_slice())?;
        Ok(outputs)
    }

    ghost laws = { λ it. inference_lawful it.program.now it.ready.ready.inferable };
}
