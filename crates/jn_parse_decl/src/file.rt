//! Files from tokens.
ghost use Rattle.std.specs.Prelude.{◌≡◌, ◌<◌, ◌^◌, length, IfOk, IfErr};
ghost use Rattle.jn_trees.specs.Refused.{IfRefused};
ghost use Rattle.jn_trees.specs.Pieces.{IsFile, IsSyntaxRow, Shallow, kinds, token_place as spec_place};
ghost use Rattle.jn_trees.specs.View.{file_view};
ghost use Rattle.jn_parse_decl.specs.Ends.{EndsAt, IsWhole, NoFileAt};
ghost use Rattle.jn_parse_decl.specs.Ahead.{IsBehind};
ghost use Rattle.jn_parse_decl.specs.Seen.{built_view, around_view};

use crate::building::{Built, add, finished, nothing};
use crate::guess::Guess;
use crate::piece::{Around, behind};
use crate::pieces::read_piece;
use crate::scanning::scan;
use crate::sharing::read_ahead;
use jn_base::{Code, Fail, FileNo, OutOfMemory, Row, Span};
use jn_parse_decl_law::law::{pieces_are_read_in_turn, pieces_build_files};
use jn_trees::reading::covered;
use jn_trees::{FileTree, Token};
use std::alloc::Global;
use std::thread::Threads;

/// The one well-formed tree that spells the tokens of a file, or its syntax row: S2 at the first token with more than 200 open brackets, else S1 at the place where well-formed pieces end. `end` is the text's length in bytes, the place of a fault after the last token.
///
/// Places in the tree are set as well, but nothing is said of them here: `jn_parse_placed::parse_placed` claims them, and it
/// alone.
///
/// `more` is how many other workers may take part (0: none); what comes out is the same for every number of them. They share
/// the members of types that are large. It goes by `join`, and so may wait for its workers. Takes time in proportion to the
/// tokens.
///
/// # Errors
///
/// [`Fail::Refused`] with the row where no well-formed tree spells the tokens or too many brackets are open, [`Fail::OutOfMemory`] where the tree found no memory.
pub fn parse_file<R: Threads + Sync>(
    rt: &R,
    alloc: Global,
    tokens: &[Token],
    file: FileNo,
    end: u32,
    more: u32,
) -> Result<FileTree, Fail<Row>>
    requires { length tokens.now < 2 ^ 32 }
    ensures tree { IfOk result (λ tree. IsFile tokens.now (file_view tree)) }
    ensures row { IfErr result
        (λ fail. IfRefused fail (λ row. IsSyntaxRow file end tokens.now row)) }
{
    let (deep, guess) = match scan(rt, alloc, tokens, more) {
        Ok(found) => found,
        Err(_) => return Err(Fail::OutOfMemory),
    };
    match deep {
        Some(place) => Err(Fail::Refused(row(Code::S2, file, end, tokens, place))),
        None => match read_file(rt, alloc, tokens, &guess, more) {
            Ok(tree) => Ok(tree),
            Err(fail) => Err(syntax_row(fail, file, end, tokens)),
        },
    }
}

/// The row of a place where pieces end.
fn syntax_row(fail: Fail<usize>, file: FileNo, end: u32, tokens: &[Token]) -> Fail<Row>
    requires shallow { Shallow (kinds tokens.now) }
    requires none { NoFileAt (kinds tokens.now) fail }
    ensures { IfRefused result (λ row. IsSyntaxRow file end tokens.now row) }
{
    match fail {
        Fail::Refused(place) => Fail::Refused(row(Code::S1, file, end, tokens, place)),
        Fail::OutOfMemory => Fail::OutOfMemory,
    }
}

/// The file that the tokens spell, or the place where pieces end.
fn read_file<R: Threads + Sync>(
    rt: &R,
    alloc: Global,
    tokens: &[Token],
    guess: &Guess,
    more: u32,
) -> Result<FileTree, Fail<usize>>
    ensures tree { IfOk result (λ tree. IsWhole (kinds tokens.now) (file_view tree)) }
    ensures place { IfErr result (λ fail. NoFileAt (kinds tokens.now) fail) }
{
    match read_pieces(rt, alloc, tokens, guess, more) {
        Err(_) => Err(Fail::OutOfMemory),
        Ok((built, left)) => file_of(tokens, built, left),
    }
}

/// The file that was built before the tokens that are left, or the place of these.
fn file_of(tokens: &[Token], built: Built, left: &[Token]) -> Result<FileTree, Fail<usize>>
    requires { EndsAt (kinds tokens.now) (built_view built) (kinds left.now) }
    ensures tree { IfOk result (λ tree. IsWhole (kinds tokens.now) (file_view tree)) }
    ensures place { IfErr result (λ fail. NoFileAt (kinds tokens.now) fail) }
{
    pieces_are_read_in_turn();
    pieces_build_files();
    let unread = left.len();
    let place = tokens.len().saturating_sub(unread);
    if unread > 0 {
        return Err(Fail::Refused(place));
    }
    match finished(built) {
        Some(tree) => Ok(tree),
        None => Err(Fail::Refused(place)),
    }
}

/// What the pieces at the front build, as many as there are, and what follows them.
fn read_pieces<'t, R: Threads + Sync>(
    rt: &R,
    alloc: Global,
    tokens: &'t [Token],
    guess: &Guess,
    more: u32,
) -> Result<(Built, &'t [Token]), OutOfMemory>
    ensures { IfOk result (λ r. EndsAt (kinds tokens.now) (built_view r.0) (kinds r.1.now)) }
{
    pieces_are_read_in_turn();
    let mut built = nothing(alloc);
    let mut around = Around::AtStart;
    let mut left = tokens;
    'pieces: loop {
        match read_piece(alloc, left, around)? {
            None => return Ok((built, left)),
            Some((piece, rest)) => {
                around = behind(around, &piece);
                add(alloc, &mut built, piece, covered(left, rest))?;
                left = behind_members(rt, alloc, &mut built, around, rest, guess, more)?;
            }
        }
    }
}

/// Reads ahead what other workers can share of a type that has just been opened, and gives what follows.
fn behind_members<'t, R: Threads + Sync>(
    rt: &R,
    alloc: Global,
    built: &mut Built,
    around: Around,
    tokens: &'t [Token],
    guess: &Guess,
    more: u32,
) -> Result<&'t [Token], OutOfMemory>
    ensures { IfOk result (λ rest. IsBehind (around_view around) (built_view built.old)
        (kinds tokens.now) (built_view built.new) (kinds rest.now)) }
{
    if more == 0 {
        return Ok(tokens);
    }
    match around {
        Around::InType(owner) => {
            read_ahead(rt, alloc, &mut built.inside, owner, tokens, guess, more)
        }
        _ => Ok(tokens),
    }
}

/// A row at a token, or at the end of the text after the last.
fn row(code: Code, file: FileNo, end: u32, tokens: &[Token], place: usize) -> Row
    ensures { result ≡ record { span = spec_place file end tokens.now place; code = code } }
{
    Row {
        span: token_place(file, end, tokens, place),
        code,
    }
}

fn token_place(file: FileNo, end: u32, tokens: &[Token], place: usize) -> Span
    ensures { result ≡ spec_place file end tokens.now place }
{
    if place < tokens.len() {
        tokens[place].span
    } else {
        Span {
            file,
            from: end,
            to: end,
        }
    }
}
