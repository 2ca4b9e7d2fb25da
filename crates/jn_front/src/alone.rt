//! One file's text, lexed and parsed with names of its own.
ghost use Rattle.std.specs.Prelude.{IfOk};
ghost use Rattle.jn_front.specs.Outcomes.{IsOutcome};

use crate::outcome::Outcome;
use crate::source::SourceRead;
use jn_base::{BodyNo, Fail, FileNo, OutOfMemory};
use jn_lex_shared::lex_shared;
use jn_lexer::law::texts_have_few_tokens;
use jn_parse_placed::parse_placed;
use jn_sharing::Gate;
use std::alloc::Global;
use std::thread::Threads;

/// Lexes and parses the file of this number. The worker enters the gate by the file's number first; `more` is how many others
/// may then take part in its text and in its tokens, which enter no gate.
///
/// # Errors
///
/// [`OutOfMemory`] where tokens, names or the tree found no memory.
pub fn outcome_of<R: Threads + Sync, G: Gate>(
    rt: &R,
    alloc: Global,
    read: &SourceRead,
    file: u32,
    worker: u32,
    more: u32,
    gate: &G,
) -> Result<Outcome, OutOfMemory>
    ensures { IfOk result (λ outcome. IsOutcome file read.now.file outcome) }
{
    texts_have_few_tokens();
    gate.enter(worker, BodyNo(file));
    let text = read.file.bytes.as_slice();
    let (tokens, names) = match lex_shared(rt, alloc, text, FileNo(file), more) {
        Ok(lexed) => lexed,
        Err(Fail::Refused(row)) => return Ok(Outcome::Lexical(row)),
        Err(Fail::OutOfMemory) => return Err(OutOfMemory),
    };
    let end = text.len() as u32;
    match parse_placed(rt, alloc, tokens.as_slice(), FileNo(file), end, more) {
        Ok(tree) => Ok(Outcome::Tree { names, tree }),
        Err(Fail::Refused(row)) => Ok(Outcome::Syntax(row)),
        Err(Fail::OutOfMemory) => Err(OutOfMemory),
    }
}
