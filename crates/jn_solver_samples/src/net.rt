//! Many bodies, each with a word of its own.
ghost use Rattle.std.specs.Prelude.{◌≡◌, ◌<◌};
ghost use Rattle.jn_solver_samples.specs.Nets.{source};

use jn_base::{BodyNo, OutOfMemory, WordNo};
use jn_sigtable::Constraints;
use std::alloc::Global;

/// Which word a body of a net reads.
#[derive(Clone, Copy, Debug, PartialEq, Eq)]
pub enum Shape {
    /// That of the body before it; the first reads its own.
    Chain,
    /// That of the first body.
    Star,
    /// That of the body before it; the first reads that of the last.
    Ring,
}

/// A system with as many words as bodies. Each body reads one word, and outputs its bits and a bit
/// of its own for its word.
#[derive(Clone, Copy, Debug)]
pub struct Net {
    pub shape: Shape,
    pub bodies: u32,
}

fn source_of(net: &Net, body: u32) -> u32
    requires { body < net.now.bodies }
    ensures { result ≡ source net.now.shape net.now.bodies body }
{
    match net.shape {
        Shape::Chain => body.saturating_sub(1),
        Shape::Star => 0,
        Shape::Ring => { if body == 0 { net.bodies - 1 } else { body - 1 } }
    }
}

impl Constraints for Net {
    ghost use Rattle.jn_solver_samples.specs.Nets.{net_of};
    ghost use Rattle.jn_solver_samples.specs.NetLaws.{net_lawful};

    ghost describe = { λ net. net_of net.shape net.bodies };

    fn bodies(&self) -> u32 {
        self.bodies
    }

    fn words(&self) -> u32 {
        self.bodies
    }

    fn reads(&self, body: BodyNo, word: WordNo) -> bool {
        source_of(self, body.0) == word.0
    }

    fn words_read(&self, alloc: Global, body: BodyNo) -> Result<Vec<WordNo>, OutOfMemory> {
        let mut words = Vec::new(alloc);
        if words.push(WordNo(source_of(self, body.0))).is_err() {
            return Err(OutOfMemory);
        }
        Ok(words)
    }

    fn output(
        &self,
        alloc: Global,
        body: BodyNo,
        words: &[u64],
    ) -> Result<Vec<(WordNo, u64)>, OutOfMemory> {
        let from = source_of(self, body.0);
        let bits = words[from as usize] | 1u64 << (body.0 % 8);
        let mut output = Vec::new(alloc);
        if output.push((WordNo(body.0), bits)).is_err() {
            return Err(OutOfMemory);
        }
        Ok(output)
    }

    ghost laws = { λ net. net_lawful net.shape net.bodies };
}
