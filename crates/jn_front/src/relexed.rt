//! The tokens of files whose trees are known.
ghost use Rattle.std.specs.Prelude.{◌≡◌, ◌<◌, ◌≤◌, ◌+◌, ◌-◌, ◌^◌, List, ℕ, length, IfOk};
ghost use Rattle.jn_trees.specs.declared.token.Token.{Token as SpecToken};
ghost use Rattle.jn_known.specs.Known.{known_names};
ghost use Rattle.jn_lexer.specs.Lexed.{Lexed};
ghost use Rattle.jn_front.specs.Files.{files_of_reads};
ghost use Rattle.jn_front.specs.Phases.{LexedFrom};

use crate::SourceRead;
use jn_base::lists::put;
use jn_base::{Fail, FileNo, OutOfMemory, Seq};
use jn_lex_shared::known_names;
use jn_lexer::law::{texts_have_few_tokens, texts_have_one_reading};
use jn_lexer::lex;
use jn_trees::{Names, Token};
use std::alloc::Global;

/// The tokens of a text that has these.
fn lex_again(
    alloc: Global,
    text: &[u8],
    file: u32,
    names: &mut Names,
) -> Result<Seq<Token>, OutOfMemory>
    requires few { length names.old + length text.now < 2 ^ 32 - 1 }
    requires lexes { (tokens : List SpecToken) × (new : List (List ℕ))
        × Lexed (record { 0 = file }) text.now names.old tokens new }
    ensures { IfOk result
        (λ ts. Lexed (record { 0 = file }) text.now names.old ts names.new) }
{
    texts_have_one_reading();
    match lex(alloc, text, FileNo(file), names) {
        Ok(tokens) => Ok(Seq::of_vec(tokens)),
        Err(Fail::Refused(_)) => unreachable!(),
        Err(Fail::OutOfMemory) => Err(OutOfMemory),
    }
}

/// The tokens of files that were read and have tokens, file by file, once more: where trees are kept without the tokens that they were
/// read from.
///
/// # Errors
/// No memory was found.
pub fn lex_all(alloc: Global, reads: &[SourceRead]) -> Result<Vec<Seq<Token>>, OutOfMemory>
    requires few { length reads.now ≤ 64 }
    requires lexes { (tokens : List (List SpecToken)) × (last : List (List ℕ))
        × LexedFrom 0 known_names (files_of_reads reads.now) tokens last }
    ensures { IfOk result (λ made. (tokens : List (List SpecToken)) (last : List (List ℕ))
        → LexedFrom 0 known_names (files_of_reads reads.now) tokens last → made.items ≡ tokens) }
{
    texts_have_one_reading();
    texts_have_few_tokens();
    let mut names = known_names(alloc)?;
    let mut all = Vec::new(alloc);
    let mut file = 0;
    while file < reads.len() {
        let text = reads[file].file.bytes.as_slice();
        let tokens = lex_again(alloc, text, file as u32, &mut names)?;
        put(&mut all, tokens)?;
        file += 1;
    }
    Ok(all)
}
