//! What a note says beside a syntax row.
ghost use Rattle.std.specs.Prelude.{◌≡◌, ◌-◌, ◌≤◌, ◌<◌, ◌^◌, ◌++◌, drop, length, take, slice_get, IfOk, MatchOption};
ghost use Rattle.jn_trees.specs.Pieces.{kinds};
ghost use Rattle.jn_follow.specs.Place.{IsStop};
ghost use Rattle.jn_follow.specs.StopNotes as spec;

use crate::place::stop;
use jn_base::{Fail, FileNo, OutOfMemory, Seq, Span};
use jn_lexer::law::texts_have_one_reading;
use jn_lexer::lex;
use jn_trees::{Names, Token, TokenKind};
use std::alloc::{AllocError, Global};

/// Where the text of a file stops being of the subset, in words that end before the place, and the bytes of that place.
#[derive(Drop)]
pub struct StopNote {
    pub words: Seq<u8>,
    pub span: Span,
}

fn is_arrow_end(kind: TokenKind) -> bool
    ensures { result ≡ spec.is_arrow_end kind }
{
    match kind {
        TokenKind::Greater => true,
        _ => false,
    }
}

fn is_colon(kind: TokenKind) -> bool
    ensures { result ≡ spec.is_colon kind }
{
    match kind {
        TokenKind::Colon => true,
        _ => false,
    }
}

fn is_dot(kind: TokenKind) -> bool
    ensures { result ≡ spec.is_dot kind }
{
    match kind {
        TokenKind::Dot => true,
        _ => false,
    }
}

fn is_left_shift(kind: TokenKind) -> bool
    ensures { result ≡ spec.is_left_shift kind }
{
    match kind {
        TokenKind::Less | TokenKind::LessEqual => true,
        _ => false,
    }
}

fn is_right_shift(kind: TokenKind) -> bool
    ensures { result ≡ spec.is_right_shift kind }
{
    match kind {
        TokenKind::Greater | TokenKind::GreaterEqual => true,
        _ => false,
    }
}

/// Are the two one sign of Java's, or the begin of one, where they touch?
fn is_pair(first: TokenKind, second: TokenKind) -> bool
    ensures { result ≡ spec.is_pair first second }
{
    match first {
        TokenKind::Minus => is_arrow_end(second),
        TokenKind::Colon => is_colon(second),
        TokenKind::Dot => is_dot(second),
        TokenKind::Less => is_left_shift(second),
        TokenKind::Greater => is_right_shift(second),
        _ => false,
    }
}

/// Does the second token touch the first, so that both are a part of one sign?
fn joins(first: Token, second: Token) -> bool
    ensures { result ≡ spec.joins first second }
{
    first.span.to == second.span.from && is_pair(first.kind, second.kind)
}

/// The first byte of the sign that the token is a part of.
fn sign_from(before: Option<Token>, token: Token) -> u32
    ensures { result ≡ spec.sign_from before token }
{
    match before {
        None => token.span.from,
        Some(before) => {
            if joins(before, token) {
                before.span.from
            } else {
                token.span.from
            }
        }
    }
}

/// The end of that sign, by the tokens after it.
#[tactic(auto, using(crate::proofs::Noted::sign_goes, crate::proofs::Noted::sign_stops, crate::proofs::Noted::sign_ends))]
fn sign_to(token: Token, rest: &[Token]) -> u32
    ensures { result ≡ spec.sign_to token rest.now }
{
    let mut last = token;
    for next in rest {
        if !joins(last, *next) {
            return last.span.to;
        }
        last = *next;
    }
    last.span.to
}

/// The bytes after so many.
#[tactic(auto, using(crate::proofs::Noted::none_left))]
fn bytes_behind(text: &[u8], count: usize) -> &[u8]
    ensures { result.now ≡ drop count text.now }
{
    if count < text.len() {
        &text[count..]
    } else {
        &[]
    }
}

/// The first so many bytes.
#[tactic(auto, using(crate::proofs::Noted::all_taken))]
fn first_bytes(text: &[u8], count: usize) -> &[u8]
    ensures { result.now ≡ take count text.now }
{
    if count < text.len() {
        &text[..count]
    } else {
        text
    }
}

/// The bytes from one place of a text to another.
fn bytes_between(text: &[u8], from: u32, to: u32) -> &[u8]
    ensures { result.now ≡ spec.bytes_between text.now from to }
{
    first_bytes(
        bytes_behind(text, from as usize),
        to.saturating_sub(from) as usize,
    )
}

/// These bytes between two texts.
fn between(alloc: Global, front: &str, bytes: &[u8], back: &str) -> Result<Vec<u8>, AllocError>
    ensures { IfOk result (λ words. words.items ≡ front.now ++ bytes.now ++ back.now) }
{
    let mut words = Vec::from_slice(alloc, front.as_bytes())?;
    words.extend_from_slice(bytes)?;
    words.extend_from_slice(back.as_bytes())?;
    Ok(words)
}

/// These words, at this place of the file.
fn note_at(words: Vec<u8>, file: FileNo, from: u32, to: u32) -> StopNote
    ensures { result ≡ spec.note_at words.items file from to }
{
    StopNote {
        words: Seq::of_vec(words),
        span: Span { file, from, to },
    }
}

/// That no file goes on with the sign that stands there.
fn sign_note(
    alloc: Global,
    file: FileNo,
    text: &[u8],
    from: u32,
    to: u32,
) -> Result<StopNote, OutOfMemory>
    ensures { IfOk result (λ note. note ≡ spec.sign_note file text.now from to) }
{
    let words = between(
        alloc,
        "no file of the subset goes on here: `",
        bytes_between(text, from, to),
        "` at",
    )?;
    Ok(note_at(words, file, from, to))
}

/// That none goes on with a string, which may hold any character and isn't shown.
fn string_note(alloc: Global, file: FileNo, from: u32, to: u32) -> Result<StopNote, OutOfMemory>
    ensures { IfOk result (λ note. note ≡ spec.string_note file from to) }
{
    let words = Vec::from_slice(alloc, b"no file of the subset goes on here: a string at")?;
    Ok(note_at(words, file, from, to))
}

/// That the text ends too early.
fn end_note(alloc: Global, file: FileNo, end: u32) -> Result<StopNote, OutOfMemory>
    ensures { IfOk result (λ note. note ≡ spec.end_note file end) }
{
    let words = Vec::from_slice(alloc, b"the file ends where more is to come: at")?;
    Ok(note_at(words, file, end, end))
}

fn is_string(kind: TokenKind) -> bool
    ensures { result ≡ spec.is_string kind }
{
    match kind {
        TokenKind::Str(_) => true,
        _ => false,
    }
}

/// What is said where these tokens are left.
fn stop_note(
    alloc: Global,
    file: FileNo,
    text: &[u8],
    before: Option<Token>,
    left: &[Token],
) -> Result<StopNote, OutOfMemory>
    requires { length text.now < 2 ^ 32 }
    ensures { IfOk result (λ note. note ≡ spec.stop_note file text.now before left.now) }
{
    match left {
        [] => end_note(alloc, file, text.len() as u32),
        [token, rest @ ..] => {
            if is_string(token.kind) {
                string_note(alloc, file, token.span.from, token.span.to)
            } else {
                sign_note(
                    alloc,
                    file,
                    text,
                    sign_from(before, *token),
                    sign_to(*token, rest),
                )
            }
        }
    }
}

/// The token of this number, if there is one.
fn token_at(tokens: &[Token], number: usize) -> Option<Token>
    ensures { result ≡ slice_get tokens.now number }
{
    if number < tokens.len() {
        Some(tokens[number])
    } else {
        None
    }
}

/// The token before this one, if it isn't the first.
fn token_before(tokens: &[Token], number: usize) -> Option<Token>
    ensures { result ≡ spec.token_before tokens.now number }
{
    if number == 0 {
        None
    } else {
        token_at(tokens, number - 1)
    }
}

/// The tokens from this one on.
fn tokens_from(tokens: &[Token], number: usize) -> &[Token]
    requires { number ≤ length tokens.now }
    ensures { result.now ≡ drop number tokens.now }
{
    &tokens[number..]
}

/// The note, unless its place is the row's own first byte.
fn apart(note: StopNote, row: &Span) -> Option<StopNote>
    ensures { MatchOption result (note.span.from ≡ row.now.from)
        (λ same. (same ≡ note) × (note.span.from ≡ row.now.from → ⊥)) }
{
    if note.span.from == row.from {
        None
    } else {
        Some(note)
    }
}

/// The note beside a row, where the table stops at the token of this number.
fn note_of_stop(
    alloc: Global,
    file: FileNo,
    text: &[u8],
    tokens: &[Token],
    number: usize,
    row: &Span,
) -> Result<Option<StopNote>, OutOfMemory>
    requires short { length text.now < 2 ^ 32 }
    requires stops { IsStop (kinds tokens.now) number }
    requires within { number ≤ length tokens.now }
    ensures { IfOk result (λ note. spec.NoteAmong file text.now tokens.now row.now note) }
{
    let before = token_before(tokens, number);
    let left = tokens_from(tokens, number);
    let note = stop_note(alloc, file, text, before, left)?;
    Ok(apart(note, row))
}

/// The note beside a row, by the tokens of the file's text.
#[tactic(auto, using(crate::proofs::Noted::within))]
fn note_among(
    alloc: Global,
    file: FileNo,
    text: &[u8],
    tokens: &[Token],
    row: &Span,
) -> Result<Option<StopNote>, OutOfMemory>
    requires { length text.now < 2 ^ 32 }
    ensures { IfOk result (λ note. spec.NoteAmong file text.now tokens.now row.now note) }
{
    let found = stop(alloc, tokens)?;
    match found {
        None => Ok(None),
        Some(number) => note_of_stop(alloc, file, text, tokens, number, row),
    }
}

/// What a note says beside a syntax row of a file with this text: the first sign with which no file of the subset goes on, or that
/// the text ends where more is to come. It says nothing where that place is the row's own first byte, nor where the table takes
/// the text whole, nor of a text without tokens.
///
/// # Errors
/// No memory was found.
pub fn note_beside(
    alloc: Global,
    file: FileNo,
    text: &[u8],
    row: &Span,
) -> Result<Option<StopNote>, OutOfMemory>
    requires { length text.now < 2 ^ 32 - 1 }
    ensures { IfOk result (λ note. spec.NoteBeside file text.now row.now note) }
{
    texts_have_one_reading();
    let mut names = Names::new(alloc);
    match lex(alloc, text, file, &mut names) {
        Ok(tokens) => note_among(alloc, file, text, &tokens, row),
        Err(Fail::Refused(_)) => Ok(None),
        Err(Fail::OutOfMemory) => Err(OutOfMemory),
    }
}
