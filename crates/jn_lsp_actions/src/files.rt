//! From files to the actions that are offered in one of them.
ghost use Rattle.std.specs.Prelude.{map, IfOk, OnOk};
ghost use Rattle.jn_system.specs.Rows.{AreBroken};
ghost use Rattle.jn_trees.specs.View.{file_view};
ghost use Rattle.jn_lsp_actions.specs.Offered.{AreActions, AreOfAsked, AreOfInferred, AreOfRows, AreOfRules, AreWritten};

use crate::choosing::{Asked, asked_rows, slots_of};
use crate::edits::{Lexed, Writing};
use crate::giving::put_given;
use crate::mending::{Mending, diagnostics_of};
use crate::wants::rows_want;
use jn_base::{Infer, OutOfMemory, Row, Seq};
use jn_lsp_solved::{Solved, Traced, find_solved};
use jn_lsp_text::{Action, Diagnostic, Encoding, Range};
use jn_places::law::places_are_forgotten;
use jn_recheck::FileSet;
use jn_sharing::{Gate, Workers};
use jn_system::check_all;
use std::alloc::Global;
use std::thread::Threads;

/// The actions of what is inferred, of rows of files none of whose fields shares its type with one of another qualifier.
fn written_for(
    alloc: Global,
    lexed: &Lexed,
    rows: &[Row],
    diagnostics: &[Diagnostic],
) -> Result<Seq<Action>, OutOfMemory>
    ensures { IfOk result (λ actions.
        AreWritten lexed.now.traced.now.encoding lexed.now.traced.now.files lexed.now.traced.now.names lexed.now.tokens.now
        (map file_view lexed.now.trees.now) lexed.now.traced.now.program lexed.now.traced.now.sig rows.now
        diagnostics.now actions) }
{
    lexed.traced.facts();
    let wants = slots_of(alloc, lexed, rows)?;
    let mending = Mending {
        wants: &wants,
        diagnostics,
    };
    let mut actions = Seq::new(alloc);
    put_given(&mut actions, alloc, lexed, Writing::Inferred, &mending)?;
    Ok(actions)
}

/// The actions of what is inferred.
#[tactic(auto, using(crate::proofs::Offering::some_shared, crate::proofs::Offering::none_shared))]
fn unless_shared(
    alloc: Global,
    lexed: &Lexed,
    rows: &[Row],
    diagnostics: &[Diagnostic],
) -> Result<Seq<Action>, OutOfMemory>
    ensures { IfOk result (λ actions.
        AreOfInferred lexed.now.traced.now.encoding lexed.now.traced.now.files lexed.now.traced.now.names lexed.now.tokens.now
        (map file_view lexed.now.trees.now) lexed.now.traced.now.program lexed.now.traced.now.sig rows.now
        diagnostics.now actions) }
{
    match lexed.first_shared(alloc)? {
        Some(_) => Ok(Seq::new(alloc)),
        None => written_for(alloc, lexed, rows, diagnostics),
    }
}

/// Puts the actions that write null after the others.
#[tactic(auto, using(crate::proofs::Offering::with_nulls))]
fn put_nulls(
    actions: &mut Seq<Action>,
    alloc: Global,
    lexed: &Lexed,
    rows: &[Row],
    diagnostics: &[Diagnostic],
) -> Result<(), OutOfMemory>
    requires inferred { AreOfInferred lexed.now.traced.now.encoding lexed.now.traced.now.files lexed.now.traced.now.names
        lexed.now.tokens.now (map file_view lexed.now.trees.now) lexed.now.traced.now.program
        lexed.now.traced.now.sig rows.now diagnostics.now actions.old }
    ensures { OnOk result
        (AreOfRows lexed.now.traced.now.encoding lexed.now.traced.now.files lexed.now.traced.now.names lexed.now.tokens.now
        (map file_view lexed.now.trees.now) lexed.now.traced.now.program lexed.now.traced.now.sig rows.now
        diagnostics.now actions.new) }
{
    lexed.traced.facts();
    let wants = rows_want(alloc, lexed.traced, rows)?;
    let mending = Mending {
        wants: &wants,
        diagnostics,
    };
    put_given(actions, alloc, lexed, Writing::Null, &mending)
}

/// The actions of rows of the rules with these diagnostics.
fn of_rows(
    alloc: Global,
    lexed: &Lexed,
    rows: &[Row],
    diagnostics: &[Diagnostic],
) -> Result<Seq<Action>, OutOfMemory>
    ensures { IfOk result (λ actions.
        AreOfRows lexed.now.traced.now.encoding lexed.now.traced.now.files lexed.now.traced.now.names lexed.now.tokens.now
        (map file_view lexed.now.trees.now) lexed.now.traced.now.program lexed.now.traced.now.sig rows.now
        diagnostics.now actions) }
{
    let mut actions = unless_shared(alloc, lexed, rows, diagnostics)?;
    put_nulls(&mut actions, alloc, lexed, rows, diagnostics)?;
    Ok(actions)
}

/// The actions of rows of the rules.
#[tactic(auto, using(crate::proofs::Offering::of_noted))]
fn of_asked(alloc: Global, lexed: &Lexed, rows: &[Row]) -> Result<Seq<Action>, OutOfMemory>
    ensures { IfOk result (λ actions.
        AreOfAsked lexed.now.traced.now.encoding lexed.now.traced.now.files lexed.now.traced.now.names lexed.now.tokens.now
        (map file_view lexed.now.trees.now) lexed.now.traced.now.program lexed.now.traced.now.sig rows.now
        actions) }
{
    let notes = lexed.traced.notes_of(alloc, rows)?;
    let diagnostics = diagnostics_of(alloc, lexed.traced, rows, &notes)?;
    let actions = of_rows(alloc, lexed, rows, diagnostics.as_slice())?;
    Ok(actions)
}

/// The actions of the rows of the rules that are asked for.
#[tactic(auto, using(crate::proofs::Offering::of_those))]
fn of_rules(
    alloc: Global,
    lexed: &Lexed,
    asked: &Asked,
    rows: &[Row],
) -> Result<Seq<Action>, OutOfMemory>
    ensures { IfOk result (λ actions.
        AreOfRules lexed.now.traced.now.encoding lexed.now.traced.now.files asked.now.name.now asked.now.range lexed.now.traced.now.names
        lexed.now.tokens.now (map file_view lexed.now.trees.now) lexed.now.traced.now.program
        lexed.now.traced.now.sig rows.now actions) }
{
    let rows = asked_rows(alloc, lexed.traced, asked, rows)?;
    let actions = of_asked(alloc, lexed, &rows)?;
    Ok(actions)
}

/// The actions of solved files whose causes are asked for, with these rows of the rules.
fn of_traced(
    alloc: Global,
    traced: &Traced,
    asked: &Asked,
    rows: &[Row],
) -> Result<Seq<Action>, OutOfMemory>
    requires rows { AreBroken traced.now.program traced.now.sig rows.now }
    ensures { IfOk result (λ actions.
        AreActions traced.now.infer traced.now.encoding traced.now.files asked.now.name.now asked.now.range actions) }
{
    places_are_forgotten();
    traced.facts();
    let parts = traced.parts();
    let tokens = traced.solved_files().tokens(alloc)?;
    let lexed = Lexed {
        traced: &*traced,
        tokens: &tokens,
        trees: parts.trees,
    };
    let actions = of_rules(alloc, &lexed, asked, rows)?;
    Ok(actions)
}

/// The rows of the rules of solved files.
fn rows_of<R: Threads + Sync, G: Gate + Sync>(
    rt: &R,
    gate: &G,
    alloc: Global,
    workers: Workers,
    solved: &Solved,
) -> Result<Vec<Row>, OutOfMemory>
    ensures { IfOk result (λ rows. AreBroken solved.now.program solved.now.sig rows.items) }
{
    let parts = solved.parts();
    let rows = check_all(rt, alloc, parts.indexed, parts.sig, workers, gate)?;
    Ok(rows)
}

/// The actions of solved files.
fn of_solved<R: Threads + Sync, G: Gate + Sync>(
    rt: &R,
    gate: &G,
    alloc: Global,
    workers: Workers,
    solved: &Solved,
    asked: &Asked,
) -> Result<Seq<Action>, OutOfMemory>
    ensures { IfOk result (λ actions.
        AreActions solved.now.infer solved.now.encoding solved.now.files asked.now.name.now asked.now.range actions) }
{
    let rows = rows_of(rt, gate, alloc, workers, solved)?;
    let traced = Traced::new(alloc, solved)?;
    let actions = of_traced(alloc, &traced, asked, &rows)?;
    Ok(actions)
}

/// The edits that are offered in a range of the file of a name, among files that are checked anew by so many workers, where
/// these members are inferred, and positions count in this unit. For each row there, the
/// first slot of the row's first chain of causes that is inferred and whose annotation can be written alone gives one edit, once for all rows
/// that come to that slot; edits stand in the order of the report, each at the last of its rows. An edit puts the words that annotating the
/// files puts for that slot ([`jn_annotate::annotate`]), with lines that import them where the file doesn't, into the file that declares the
/// slot, which may be another one. Each edit tells the diagnostics of the rows there for which it is offered, with their notes
/// ([`jn_notes::notes_of_rows`]). A worker enters the gate when it takes a file, infers, or checks a body.
///
/// After those stand the edits that write `@Nullable` where a row wants null, once for each slot, in the order of the report: at the field, the parameter
/// or the result that takes a value which may be null, at the overrider's parameter where the overridden method's may be null, and at the
/// overridden method's result where the overrider's may be.
///
/// None is offered where the files are refused. None of what is inferred is where the row speaks of no value and of no overriding pair, where its
/// chain has no slot whose annotation can be written, and, as [`jn_annotate::annotate`] refuses such files, where a field shares its type with one
/// of another qualifier. No `@Nullable` is where nullity is said, at a field that is declared together with another one, and where a type of the files
/// has that name.
///
/// # Errors
/// No memory was found.
pub fn actions_for<R: Threads + Sync, G: Gate + Sync>(
    rt: &R,
    gate: &G,
    alloc: Global,
    workers: Workers,
    infer: Infer,
    encoding: Encoding,
    files: &FileSet,
    name: &str,
    range: Range,
) -> Result<Seq<Action>, OutOfMemory>
    ensures { IfOk result (λ actions. AreActions infer encoding files.now name.now range actions) }
{
    match find_solved(rt, gate, alloc, workers, infer, encoding, files)? {
        None => Ok(Seq::new(alloc)),
        Some(solved) => of_solved(rt, gate, alloc, workers, &solved, &Asked { name, range }),
    }
}
