//! A body that never finds memory.
use jn_base::{BodyNo, OutOfMemory, WordNo};
use jn_sigtable::Constraints;
use std::alloc::Global;

/// One body over one word, which it reads. No memory is ever found for its output.
#[derive(Drop)]
pub struct Starved;

impl Constraints for Starved {
    ghost use Rattle.jn_solver_samples.specs.Starving.{starved, starved_lawful};

    ghost describe = { λ _. starved };

    fn bodies(&self) -> u32 {
        1
    }

    fn words(&self) -> u32 {
        1
    }

    fn reads(&self, _body: BodyNo, _word: WordNo) -> bool {
        true
    }

    fn words_read(&self, alloc: Global, _body: BodyNo) -> Result<Vec<WordNo>, OutOfMemory> {
        let mut words = Vec::new(alloc);
        if words.push(WordNo(0)).is_err() {
            return Err(OutOfMemory);
        }
        Ok(words)
    }

    fn output(
        &self,
        _alloc: Global,
        _body: BodyNo,
        _words: &[u64],
    ) -> Result<Vec<(WordNo, u64)>, OutOfMemory> {
        Err(OutOfMemory)
    }

    ghost laws = { λ _. starved_lawful };
}
