//! The notes of rows.
ghost use Rattle.std.specs.Prelude.{◌≡◌, ◌-◌, ◌++◌, [], IfOk, List, OnOk, length, map, take, true, Some};
ghost use Rattle.jn_contrib.specs.Entries.{AreOverriders};
ghost use Rattle.jn_tables_law.specs.Inferable.{IsInferable};
ghost use Rattle.jn_inference_law.specs.Solution.{IsLeastSignature};
ghost use Rattle.jn_reasons_law.specs.Chains.{HasChain};
ghost use Rattle.jn_reasons_law.specs.declared.item.Step.{Step};
ghost use Rattle.jn_chain.specs.Told.{told_of};
ghost use Rattle.jn_sites.specs.Near.{AreNear};
ghost use Rattle.jn_notes.specs.Asked.{item_of};
ghost use Rattle.jn_notes.specs.Noted.{AreEach, AreFrom, AreNotes, AreNotesOf, before_last, headed, last_of, left_out, most_shown, no_notes, note_of, noted};
ghost use Rattle.jn_reasons_law.specs.Choice as choice;

use crate::found::register_item_at;
use crate::pairs::{part_of, slot_item};
use crate::placed::Placed;
use crate::reads::{register_item, sought_of};
use crate::solved::SolvedProgram;
use crate::tables::least_tables;
use crate::topics::{Topic, topic_notes, topics_of};
use crate::walk::Walk;
use jn_base::lists::put;
use jn_base::{OutOfMemory, Row, Seq};
use jn_chain::Told;
use jn_contrib::{Overrider, overriders};
use jn_env::FlowTable;
use jn_index::indexed::IndexedProgram;
use jn_note_words::note::{Note, Notes};
use jn_note_words::owners::{OwnedProgram, find_owners};
use jn_note_words::preceded;
use jn_note_words::spans::step_span;
use jn_note_words::words::step_words;
use jn_origins::LeastOrigins;
use jn_origins::law::{least_tables_are_sized, what_stands_has_a_chain};
use jn_points::Program;
use jn_reasons_law::{Item, Step};
use jn_sigs::Sig;
use jn_sites::{find_near, find_sites, overriders_at, spans_of};
use jn_tables_law::law::rounds_give_the_least_table;
use jn_trees::Names;
use std::alloc::{AllocError, Global};

/// The greatest number of steps that are shown of a row, and of declarations.
pub(crate) const MOST_SHOWN: usize = 8;

/// A step in words, and where it stands, and whether the chain ends there.
fn note_of(
    alloc: Global,
    program: &OwnedProgram,
    names: &Names,
    ends: bool,
    step: Step,
) -> Result<Note, AllocError>
    ensures { IfOk result (λ note. note ≡ note_of program.now names.now ends step) }
{
    let words = step_words(alloc, program, names, step)?;
    Ok(Note {
        joined: false,
        ends,
        words: Seq::of_vec(words),
        span: step_span(program, step),
    })
}

/// Puts the steps in words after the notes.
fn put_steps(
    notes: &mut Vec<Note>,
    alloc: Global,
    program: &OwnedProgram,
    names: &Names,
    ends: bool,
    steps: &[Step],
) -> Result<(), AllocError>
    ensures { OnOk result
        (notes.new.items ≡ notes.old.items ++ map (note_of program.now names.now ends) steps.now) }
{
    for step in steps {
        let note = note_of(alloc, program, names, ends, *step)?;
        put(notes, note)?;
    }
    Ok(())
}

/// As many steps as are shown before the last one.
fn first_steps(steps: &[Step]) -> &[Step]
    ensures { result.now ≡ take (most_shown - 1) steps.now }
{
    if steps.len() < MOST_SHOWN {
        steps
    } else {
        &steps[..MOST_SHOWN - 1]
    }
}

/// Where the last one stands.
fn last_place(steps: usize) -> usize
    ensures { result ≡ steps - 1 }
{
    if steps == 0 { 0 } else { steps - 1 }
}

/// The steps that are shown before the last one.
fn before_last(steps: &[Step]) -> &[Step]
    ensures { result.now ≡ before_last steps.now }
{
    first_steps(&steps[..last_place(steps.len())])
}

/// The last step, where there is one.
fn last_of(steps: &[Step]) -> &[Step]
    ensures { result.now ≡ last_of steps.now }
{
    &steps[last_place(steps.len())..]
}

/// How many more there are.
fn more(steps: usize) -> usize
    ensures { result ≡ steps - most_shown }
{
    if steps <= MOST_SHOWN {
        0
    } else {
        steps - MOST_SHOWN
    }
}

/// These notes, and the steps that are shown of those that are told, in words.
pub(crate) fn noted(
    alloc: Global,
    program: &OwnedProgram,
    names: &Names,
    voids: Vec<Note>,
    told: &Told,
) -> Result<Notes, AllocError>
    ensures { IfOk result (λ notes. (steps : List Step) → told.now ≡ told_of most_shown steps
        → notes ≡ noted program.now names.now voids.items (choice.told steps)) }
{
    let mut notes = voids;
    let steps = told.shown.as_slice();
    put_steps(&mut notes, alloc, program, names, false, before_last(steps))?;
    put_steps(&mut notes, alloc, program, names, true, last_of(steps))?;
    Ok(Notes {
        shown: Seq::of_vec(notes),
        more: more(told.count),
    })
}

/// No note is shown, and none is left out.
pub fn no_notes(alloc: Global) -> Notes
    ensures { result ≡ no_notes }
{
    Notes {
        shown: Seq::new(alloc),
        more: 0,
    }
}

/// The item that a row speaks of, where a chain says something of it.
pub fn item_of(
    program: &Program,
    sig: &Sig,
    tables: &[FlowTable],
    overriders: &[Overrider],
    row: Row,
) -> Option<Item>
    requires inferable { IsInferable program.now }
    requires overriders { AreOverriders program.now overriders.now }
    ensures { result ≡ item_of program.now sig.now row tables.now }
{
    match sought_of(row) {
        None => slot_item(sig, row.span, part_of(row.code), program, overriders),
        Some(sought) => register_item(sought, program, sig, tables),
    }
}

/// The same by what is kept for the row's place: the overriders that stand there, and the points at which a value stands there.
fn item_at(placed: &Placed, overriders: &[Overrider], row: Row) -> Option<Item>
    requires overriders { AreNear placed.now.basis.program.now row.span overriders.now }
    ensures { result
        ≡ item_of placed.now.basis.program.now placed.now.basis.sig.now row
        placed.now.basis.tables.now }
{
    let basis = placed.basis;
    match sought_of(row) {
        None => slot_item(
            basis.sig,
            row.span,
            part_of(row.code),
            basis.program,
            overriders,
        ),
        Some(sought) => register_item_at(sought, placed),
    }
}

/// The notes of an item from which a chain goes: what is told of the first chain from it.
///
/// # Errors
/// No memory was found.
pub fn notes_from(alloc: Global, of: &SolvedProgram, item: Item) -> Result<Notes, OutOfMemory>
    requires { HasChain of.now.program of.now.sig of.now.tables item }
    ensures { IfOk result (λ notes.
        AreFrom of.now.program of.now.names of.now.sig of.now.tables (Some item) notes) }
{
    let mut walk = Walk::new(alloc, of);
    let notes = walk.notes_from(alloc, item)?;
    Ok(notes)
}

/// The notes of a row's item.
fn notes_behind(
    alloc: Global,
    walk: &mut Walk,
    row: Row,
    item: Option<Item>,
) -> Result<Notes, OutOfMemory>
    requires item { item ≡ item_of walk.old.program walk.old.sig row walk.old.tables }
    ensures same { IfOk result (λ notes. walk.new ≡ walk.old) }
    ensures notes { IfOk result (λ notes.
        AreFrom walk.old.program walk.old.names walk.old.sig walk.old.tables item notes) }
{
    what_stands_has_a_chain();
    walk.program().facts();
    let _row = row;
    match item {
        None => Ok(no_notes(alloc)),
        Some(item) => walk.notes_from(alloc, item),
    }
}

/// As many declarations as are shown.
fn first_topics(topics: &[Topic]) -> &[Topic]
    ensures { result.now ≡ take most_shown topics.now }
{
    if topics.len() <= MOST_SHOWN {
        topics
    } else {
        &topics[..MOST_SHOWN]
    }
}

/// How many notes are left out.
fn left_out(topics: usize, behind: usize) -> usize
    ensures { result ≡ left_out topics behind }
{
    if topics == 0 { behind } else { topics }
}

/// The notes of the declarations that a row speaks of, and then those of its chain.
fn headed(
    alloc: Global,
    program: &Program,
    names: &Names,
    row: Row,
    topics: &[Topic],
    behind: Notes,
) -> Result<Notes, AllocError>
    ensures { IfOk result
        (λ notes. notes ≡ headed program.now names.now row topics.now behind) }
{
    let mut notes = topic_notes(alloc, program, names, row.span, first_topics(topics))?;
    let hidden = left_out(more(topics.len()), behind.more);
    let mut others = behind.shown.into_vec();
    notes.append(&mut others)?;
    Ok(Notes {
        shown: Seq::of_vec(notes),
        more: hidden,
    })
}

/// The notes of a row.
fn notes_of(
    alloc: Global,
    walk: &mut Walk,
    placed: &Placed,
    overriders: &[Overrider],
    row: Row,
) -> Result<Notes, OutOfMemory>
    requires program { placed.now.basis.program.now ≡ walk.old.program }
    requires sig { placed.now.basis.sig.now ≡ walk.old.sig }
    requires tables { placed.now.basis.tables.now ≡ walk.old.tables }
    requires overriders { AreNear placed.now.basis.program.now row.span overriders.now }
    ensures same { IfOk result (λ notes. walk.new ≡ walk.old) }
    ensures notes { IfOk result (λ notes.
        AreNotes walk.old.program walk.old.names walk.old.sig walk.old.tables row notes) }
{
    let topics = topics_of(alloc, placed, overriders, row)?;
    let item = item_at(placed, overriders, row);
    let of = walk.program();
    let behind = notes_behind(alloc, walk, row, item)?;
    let behind = preceded(alloc, of.program(), item, behind)?;
    let notes = headed(alloc, of.program(), of.names(), row, &topics, behind)?;
    Ok(notes)
}

/// The notes of each row.
fn notes_of_each(
    alloc: Global,
    of: &SolvedProgram,
    overriders: &[Overrider],
    rows: &[Row],
) -> Result<Vec<Notes>, OutOfMemory>
    requires overriders { AreOverriders of.now.program overriders.now }
    ensures { IfOk result (λ notes.
        AreEach of.now.program of.now.names of.now.sig of.now.tables rows.now notes.items) }
{
    let basis = of.basis();
    let program = basis.program;
    let spans = spans_of(alloc, rows)?;
    let near = find_near(alloc, program, overriders, &spans)?;
    let sites = find_sites(alloc, program, &spans)?;
    let placed = Placed {
        basis,
        sites: &sites,
    };
    let mut walk = Walk::new(alloc, of);
    let mut list = Vec::new(alloc);
    for row in rows {
        let there = overriders_at(&near, program, overriders, row.span);
        let notes = notes_of(alloc, &mut walk, &placed, there, *row)?;
        put(&mut list, notes)?;
    }
    Ok(list)
}

fn are_none(rows: &[Row]) -> bool
    ensures { result ≡ true → rows.now ≡ [] }
{
    rows.len() == 0
}

/// The notes of no rows, for which nothing is made.
fn notes_of_none(
    alloc: Global,
    program: &Program,
    names: &Names,
    sig: &Sig,
    rows: &[Row],
) -> Vec<Notes>
    requires inferable { IsInferable program.now }
    requires none { rows.now ≡ [] }
    ensures { AreNotesOf program.now names.now sig.now rows.now result.items }
{
    rounds_give_the_least_table();
    let _program = program;
    let _names = names;
    let _sig = sig;
    let _rows = rows;
    Vec::new(alloc)
}

/// The notes of some rows.
fn notes_of_some(
    alloc: Global,
    program: &IndexedProgram,
    names: &Names,
    sig: &Sig,
    rows: &[Row],
) -> Result<Vec<Notes>, OutOfMemory>
    requires inferable { IsInferable program.now }
    requires least { IsLeastSignature program.now sig.now }
    ensures { IfOk result
        (λ notes. AreNotesOf program.now names.now sig.now rows.now notes.items) }
{
    least_tables_are_sized();
    let tables = least_tables(alloc, program.program(), sig)?;
    let overriders = overriders(alloc, program)?;
    let owners = find_owners(alloc, program.program())?;
    let origins = LeastOrigins::new(alloc, program, sig, &tables)?;
    let of = SolvedProgram::new(names, &owners, &origins);
    notes_of_each(alloc, &of, &overriders, rows)
}

/// The notes of each row of a program under its least signature, in the rows' order. What they need is made once: the least tables of all bodies,
/// what overrides what, and whose slots are whose; and nothing where there is no row.
///
/// # Errors
/// No memory was found.
pub fn notes_of_rows(
    alloc: Global,
    program: &IndexedProgram,
    names: &Names,
    sig: &Sig,
    rows: &[Row],
) -> Result<Vec<Notes>, OutOfMemory>
    requires inferable { IsInferable program.now }
    requires least { IsLeastSignature program.now sig.now }
    ensures { IfOk result
        (λ notes. AreNotesOf program.now names.now sig.now rows.now notes.items) }
{
    if are_none(rows) {
        Ok(notes_of_none(alloc, program.program(), names, sig, rows))
    } else {
        notes_of_some(alloc, program, names, sig, rows)
    }
}
