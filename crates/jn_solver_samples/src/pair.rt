//! Two bodies over one word.
use jn_base::{BodyNo, OutOfMemory, WordNo};
use jn_sigtable::Constraints;
use std::alloc::Global;

/// Body 0 always outputs the bit value 2. Body 1 reads the word, and outputs 4 where 2 is set.
#[derive(Drop)]
pub struct Pair;

impl Constraints for Pair {
    ghost use Rattle.jn_solver_samples.specs.Pairs.{pair};
    ghost use Rattle.jn_solver_samples.specs.PairLaws.{pair_lawful};

    ghost describe = { λ _. pair };

    fn bodies(&self) -> u32 {
        2
    }

    fn words(&self) -> u32 {
        1
    }

    fn reads(&self, body: BodyNo, _word: WordNo) -> bool {
        body.0 == 1
    }

    fn words_read(&self, alloc: Global, body: BodyNo) -> Result<Vec<WordNo>, OutOfMemory> {
        let mut words = Vec::new(alloc);
        if body.0 == 1 && words.push(WordNo(0)).is_err() {
            return Err(OutOfMemory);
        }
        Ok(words)
    }

    fn output(
        &self,
        alloc: Global,
        body: BodyNo,
        words: &[u64],
    ) -> Result<Vec<(WordNo, u64)>, OutOfMemory> {
        let mut output = Vec::new(alloc);
        if body.0 == 0 {
            if output.push((WordNo(0), 2)).is_err() {
                return Err(OutOfMemory);
            }
        } else if (words[0] >> 1) & 1 == 1 {
            if output.push((WordNo(0), 4)).is_err() {
                return Err(OutOfMemory);
            }
        }
        Ok(output)
    }

    ghost laws = { λ _. pair_lawful };
}
