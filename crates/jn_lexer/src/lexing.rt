//! Texts as tokens.
ghost use Rattle.std.specs.Prelude.{◌≡◌, ◌+◌, ◌-◌, ◌≤◌, ◌<◌, ◌^◌, false, length, chars, encode_utf8_all, IfOk, IfErr, IfSome, OnOk, OnErr, MatchOption, MatchResult, take, drop, slice_get, Some, ℕ};
ghost use Rattle.jn_trees.specs.Names.{Extends};
ghost use Rattle.jn_lexer.specs.Characters.{width};
ghost use Rattle.jn_lexer.specs.Faults.{LexicalFault, HasNoUnicodeEscape, IsFirstEscape, IsTokenFault, IsAtCharacter};
ghost use Rattle.jn_trees.specs.Refused.{IfRefused};
ghost use Rattle.jn_lexer.specs.Lexed.{Lexed, names_with, kind_of};
ghost use Rattle.jn_lexer.specs.Moved.{LexedOnto, IsLexingOnto};
ghost use Rattle.jn_lexer.specs.Found.{lexeme_of, body_of, word_of, HasQuotes, IsNextOrEnd, IsFaultNext};
ghost use Rattle.jn_lexer.specs.Scan.{escape_at};

use crate::characters::{front_width, width};
use crate::gap::gap_len;
use crate::shape::{Fault, Shape, Spelled};
use crate::strings::value_of;
use crate::words::token_at;
use jn_base::{Code, Fail, FileNo, OutOfMemory, Row, Span};
use jn_trees::{Names, Token, TokenKind};
use std::alloc::{AllocError, Global};

/// The `u` of the first Unicode escape.
fn escape_at(text: &[char]) -> Option<usize>
    ensures value { result ≡ escape_at false text.now }
    ensures within { IfSome result (λ n. (0 < n) × (n < length text.now)) }
{
    let mut slash = false;
    for (i, c) in text.iter().enumerate() {
        if slash && *c == 'u' {
            return Some(i);
        }
        slash = !slash && *c == '\\';
    }
    None
}

/// After how many characters the first Unicode escape begins. The text's characters are those of `decoded`.
fn first_escape(decoded: &str, text: &[char]) -> Option<usize>
    requires { text.now ≡ chars decoded.now }
    ensures { MatchOption result (HasNoUnicodeEscape text.now) (λ n. (n < length text.now)
        × (slice_get text.now n ≡ Some 92) × IsFirstEscape text.now (take n text.now)) }
{
    if !decoded.as_bytes().contains(&b'\\') {
        return None;
    }
    if !decoded.contains("\\u") {
        return None;
    }
    match escape_at(text) {
        Some(letter) => Some(letter - 1),
        None => None,
    }
}

/// The characters that ASCII's bytes are.
fn ascii_characters(alloc: Global, bytes: &[u8]) -> Result<Vec<char>, AllocError>
    ensures { IfOk result (λ cs. cs.items ≡ bytes.now) }
{
    let mut characters = Vec::with_capacity(alloc, bytes.len())?;
    for byte in bytes {
        characters.push_reserved(*byte as char);
    }
    Ok(characters)
}

/// The characters of a text.
fn characters(alloc: Global, text: &str) -> Result<Vec<char>, AllocError>
    ensures { IfOk result (λ cs. cs.items ≡ chars text.now) }
{
    if text.is_ascii() {
        ascii_characters(alloc, text.as_bytes())
    } else {
        text.chars().collect(alloc)
    }
}

/// The row of a fault after so many characters of a text whose first byte is `at`.
fn row_at(text: &[char], file: FileNo, at: u32, fault: Fault) -> Row
    requires before { fault.before < length text.now }
    requires fits { at + width text.now < 2 ^ 32 }
    ensures code { result.code ≡ fault.code }
    ensures place { (c : ℕ) × (slice_get text.now fault.before ≡ Some c)
        × IsAtCharacter file (at + width (take fault.before text.now)) c result }
{
    let from = at + width(&text[..fault.before]) as u32;
    let to = from + text[fault.before].len_utf8() as u32;
    Row {
        span: Span { file, from, to },
        code: fault.code,
    }
}

/// The kind of the token that the word spells; its text, an identifier's as it is `spelled`, is numbered in `names`.
/// On want of memory the names are as before.
fn kind_of(
    alloc: Global,
    shape: Shape,
    word: &[char],
    spelled: &str,
    names: &mut Names,
) -> Result<TokenKind, OutOfMemory>
    requires room { length names.old < 2 ^ 32 - 1 }
    requires quotes { HasQuotes shape word.now }
    requires bytes { spelled.now ≡ encode_utf8_all word.now }
    ensures kind { IfOk result (λ kind. kind ≡ kind_of names.old (lexeme_of shape word.now)) }
    ensures names { OnOk result (names.new ≡ names_with names.old (lexeme_of shape word.now)) }
    ensures unchanged { OnErr result (names.new ≡ names.old) }
{
    match shape {
        Shape::Word => {
            let name = names.intern(spelled)?;
            Ok(TokenKind::Id(name))
        }
        Shape::Quoted => {
            let text = value_of(alloc, &word[1..word.len() - 1])?;
            let name = names.intern(text.as_str())?;
            Ok(TokenKind::Str(name))
        }
        Shape::Number(value) => Ok(TokenKind::Number(value)),
        Shape::Fixed(kind) => Ok(kind),
    }
}

/// The next token of a text of so many bytes, the first of which is `at`; none at its end.
fn next_token(text: &[char], file: FileNo, at: u32, bytes: usize) -> Result<Option<Spelled>, Row>
    requires whole { bytes ≡ width text.now }
    requires fits { at + bytes < 2 ^ 32 }
    ensures { MatchResult result (λ next. IsNextOrEnd text.now at next)
        (λ row. IsFaultNext file text.now at row) }
{
    let gap = match gap_len(text) {
        Ok(gap) => gap,
        Err(before) => {
            let open = Fault {
                code: Code::L4,
                before,
            };
            return Err(row_at(text, file, at, open));
        }
    };
    let before = front_width(text, gap, bytes);
    let from = at + before as u32;
    let body = &text[gap..];
    if body.len() == 0 {
        return Ok(None);
    }
    match token_at(body) {
        Ok(found) => {
            let to = from + front_width(body, found.count, bytes - before) as u32;
            Ok(Some(Spelled {
                shape: found.shape,
                gap,
                count: found.count,
                from,
                to,
            }))
        }
        Err(fault) => Err(row_at(body, file, from, fault)),
    }
}

/// The characters of the next token.
fn word_of(text: &[char], next: Spelled) -> &[char]
    requires { next.gap + next.count ≤ length text.now }
    ensures { result.now ≡ word_of text.now next }
{
    let body = &text[next.gap..];
    &body[..next.count]
}

/// What stands after the next token.
fn text_behind(text: &[char], next: Spelled) -> &[char]
    requires { next.gap + next.count ≤ length text.now }
    ensures { result.now ≡ drop next.count (body_of text.now next) }
{
    let body = &text[next.gap..];
    &body[next.count..]
}

/// Puts the tokens of the characters, which are those of `decoded`, after the others, their spans so many bytes further on.
fn tokens_onto(
    alloc: Global,
    decoded: &str,
    text: &[char],
    file: FileNo,
    by: u32,
    names: &mut Names,
    tokens: &mut Vec<Token>,
) -> Result<(), Fail<Row>>
    requires same { text.now ≡ chars decoded.now }
    requires room { length names.old + length decoded.now < 2 ^ 32 - 1 }
    requires fits { by + length decoded.now < 2 ^ 32 }
    ensures ok { OnOk result
        (IsLexingOnto file text.now by names.old tokens.old.items names.new tokens.new.items) }
    ensures refused { IfErr result
        (λ fail. IfRefused fail (λ row. IsTokenFault file text.now row)) }
    ensures extends { Extends names.old names.new }
{
    let mut rest = text;
    let mut at = 0;
    loop {
        let bytes = decoded.len() - at as usize;
        let next = match next_token(rest, file, at, bytes) {
            Ok(Some(next)) => next,
            Ok(None) => return Ok(()),
            Err(row) => return Err(Fail::Refused(row)),
        };
        let spelled = &decoded[next.from as usize..next.to as usize];
        let kind = match kind_of(alloc, next.shape, word_of(rest, next), spelled, names) {
            Ok(kind) => kind,
            Err(_) => return Err(Fail::OutOfMemory),
        };
        let span = Span {
            file,
            from: by + next.from,
            to: by + next.to,
        };
        if let Err(_) = tokens.push(Token { kind, span }) {
            return Err(Fail::OutOfMemory);
        }
        rest = text_behind(rest, next);
        at = next.to;
    }
}

/// Puts the tokens of a piece of a file's bytes after the others; the texts of identifiers and strings are numbered in `names`,
/// in the order of the tokens. The piece's first byte is the file's byte `at`, from which on the tokens' spans are counted.
///
/// It refuses with the row of the piece's fault, as [`lex`] says: the piece is lexed as a whole text, and the row is counted within
/// it, from 0 on. After a refusal or want of memory `tokens` and `names` have perhaps some more, after the old ones. While it runs
/// it holds the piece's characters, of 4 bytes each.
pub fn lex_onto(
    alloc: Global,
    text: &[u8],
    file: FileNo,
    at: u32,
    names: &mut Names,
    tokens: &mut Vec<Token>,
) -> Result<(), Fail<Row>>
    requires names { length names.old + length text.now < 2 ^ 32 - 1 }
    requires spans { at + length text.now < 2 ^ 32 }
    ensures ok { OnOk result
        (LexedOnto file text.now at names.old tokens.old.items names.new tokens.new.items) }
    ensures refused { IfErr result
        (λ fail. IfRefused fail (λ row. LexicalFault file text.now row)) }
    ensures extends { Extends names.old names.new }
{
    let decoded = match str::from_utf8(text) {
        Ok(decoded) => decoded,
        Err(error) => {
            let from = error.valid_up_to() as u32;
            let to = from + 1;
            return Err(Fail::Refused(Row {
                span: Span { file, from, to },
                code: Code::L1,
            }));
        }
    };
    let text = match characters(alloc, decoded) {
        Ok(text) => text,
        Err(_) => return Err(Fail::OutOfMemory),
    };
    if let Some(before) = first_escape(decoded, &text) {
        let escape = Fault {
            code: Code::L2,
            before,
        };
        return Err(Fail::Refused(row_at(&text, file, 0, escape)));
    }
    tokens_onto(alloc, decoded, &text, file, at, names, tokens)
}

/// The tokens of a file's bytes; the texts of identifiers and strings are numbered in `names`, in the order of the tokens.
///
/// It refuses with the row of the text's fault: L1 where the bytes aren't UTF-8, else L2 at the first Unicode escape, else L3 to L7 at the first place where a token should begin and none can.
/// After a refusal or want of memory `names` has perhaps some names more, after the old ones.
pub fn lex(
    alloc: Global,
    text: &[u8],
    file: FileNo,
    names: &mut Names,
) -> Result<Vec<Token>, Fail<Row>>
    requires { length names.old + length text.now < 2 ^ 32 - 1 }
    ensures ok { IfOk result (λ tokens. Lexed file text.now names.old tokens.items names.new) }
    ensures refused { IfErr result
        (λ fail. IfRefused fail (λ row. LexicalFault file text.now row)) }
    ensures extends { Extends names.old names.new }
{
    let mut tokens = Vec::new(alloc);
    match lex_onto(alloc, text, file, 0, names, &mut tokens) {
        Ok(()) => Ok(tokens),
        Err(fail) => Err(fail),
    }
}
