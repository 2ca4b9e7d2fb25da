//! The system that is solved.
ghost use Rattle.std.specs.Prelude.{◌≡◌, ◌<◌, IfOk, length};
ghost use Rattle.jn_sigtable.specs.System.{System, IsLawful, IsReadList};

use jn_base::{BodyNo, OutOfMemory, WordNo};
use std::alloc::Global;

/// Bodies that read words of bits and output bits for words. Contracts see one as a `System`, whose
/// laws (`IsLawful`) say that outputs grow with the words, depend on the words that the body reads
/// and on no other, and name each word at most once.
pub trait Constraints: Drop {
    /// The system as plain data.
    ghost describe: { Self → System };

    /// The number of bodies; they are numbered from 0.
    fn bodies(&self) -> u32
        ensures { result ≡ (describe self.now).bodies };

    /// The number of words; they are numbered from 0.
    fn words(&self) -> u32
        ensures { result ≡ (describe self.now).words };

    /// Whether the body's output depends on the word.
    fn reads(&self, body: BodyNo, word: WordNo) -> bool
        requires body { body.0 < (describe self.now).bodies }
        requires word { word.0 < (describe self.now).words }
        ensures { result ≡ (describe self.now).reads body.0 word.0 };

    /// The words that the body reads, each once, in any order.
    ///
    /// # Errors
    /// No memory was found.
    fn words_read(&self, alloc: Global, body: BodyNo) -> Result<Vec<WordNo>, OutOfMemory>
        requires { body.0 < (describe self.now).bodies }
        ensures { IfOk result (λ words. IsReadList (describe self.now) body.0 words.items) };

    /// The bits that the body outputs on these words.
    fn output(
        &self,
        alloc: Global,
        body: BodyNo,
        words: &[u64],
    ) -> Result<Vec<(WordNo, u64)>, OutOfMemory>
        requires body { body.0 < (describe self.now).bodies }
        requires words { length words.now ≡ (describe self.now).words }
        ensures { IfOk result (λ bits. bits.items ≡ (describe self.now).output body.0 words.now) };

    ghost laws: { (it : Self) → IsLawful (describe it) };
}
