//! The rows that are asked for, and the slots whose annotations are offered at these.
ghost use Rattle.std.specs.Prelude.{◌≡◌, ◌++◌, ◌∷◌, [], filter, IfOk, map, OnOk, option_to_list, Some};
ghost use Rattle.jn_notes.specs.Asked.{item_of as item_of_row};
ghost use Rattle.jn_reasons_law.specs.Items.{Stands};
ghost use Rattle.jn_trees.specs.View.{file_view};
ghost use Rattle.jn_lsp_actions.specs.Offered as spec;
ghost use Rattle.jn_lsp_actions.specs.Written.{is_written};

use crate::asking::is_asked;
use crate::edits::Lexed;
use jn_base::lists::put;
use jn_base::{OutOfMemory, Row, Seq};
use jn_lsp_solved::{Marked, Traced};
use jn_lsp_text::Range;
use jn_reasons_law::{Item, Step};
use std::alloc::{AllocError, Global};

/// What is asked for: rows of the file of a name that meet a range.
#[derive(Clone, Copy)]
pub struct Asked<'a> {
    pub name: &'a str,
    pub range: Range,
}

/// Puts the row after the others, where it is asked for.
fn put_asked(
    asked_rows: &mut Vec<Row>,
    marked: &Marked,
    asked: &Asked,
    row: Row,
) -> Result<(), AllocError>
    ensures { OnOk result (asked_rows.new.items
        ≡ asked_rows.old.items
        ++ filter
        (spec.is_asked_row marked.now.encoding marked.now.files asked.now.name.now asked.now.range)
        (row ∷ [])) }
{
    if is_asked(marked, asked.name, asked.range, row.span) {
        put(asked_rows, row)
    } else {
        Ok(())
    }
}

/// The rows of marked files that are asked for.
fn asked_rows_in(
    alloc: Global,
    marked: &Marked,
    asked: &Asked,
    rows: &[Row],
) -> Result<Vec<Row>, AllocError>
    ensures { IfOk result (λ asked_rows. asked_rows.items
        ≡ filter
        (spec.is_asked_row marked.now.encoding marked.now.files asked.now.name.now asked.now.range)
        rows.now) }
{
    let mut asked_rows = Vec::new(alloc);
    for row in rows {
        put_asked(&mut asked_rows, marked, asked, *row)?;
    }
    Ok(asked_rows)
}

/// The rows that are asked for.
///
/// # Errors
/// No memory was found.
pub fn asked_rows(
    alloc: Global,
    traced: &Traced,
    asked: &Asked,
    rows: &[Row],
) -> Result<Vec<Row>, OutOfMemory>
    ensures { IfOk result (λ asked_rows. asked_rows.items
        ≡ filter
        (spec.is_asked_row traced.now.encoding traced.now.files asked.now.name.now asked.now.range)
        rows.now) }
{
    let marked = traced.solved_files().marked(alloc, rows.len() > 0)?;
    let asked_rows = asked_rows_in(alloc, &marked, asked, rows)?;
    Ok(asked_rows)
}

/// The first slot of a chain whose annotation can be written.
fn first_slot(steps: &[Step], alloc: Global, lexed: &Lexed) -> Result<Option<u32>, OutOfMemory>
    ensures { IfOk result (λ slot. slot
        ≡ spec.first_slot (is_written lexed.now.traced.now.encoding lexed.now.traced.now.files lexed.now.tokens.now
        (map file_view lexed.now.trees.now) lexed.now.traced.now.program lexed.now.traced.now.sig) steps.now) }
{
    match steps {
        [] => Ok(None),
        [step, more @ ..] => match step.item {
            Item::AtSlot(slot, _) => {
                if lexed.is_written(alloc, slot)? {
                    Ok(Some(slot))
                } else {
                    first_slot(more, alloc, lexed)
                }
            }
            Item::AtRegister(_, _, _, _) => first_slot(more, alloc, lexed),
        },
    }
}

/// A list of the slot, where there is one.
fn listed(alloc: Global, slot: Option<u32>) -> Result<Seq<u32>, AllocError>
    ensures { IfOk result (λ slots. slots ≡ option_to_list slot) }
{
    let mut slots = Seq::new(alloc);
    if let Some(slot) = slot {
        slots.push(slot)?;
    }
    Ok(slots)
}

/// The first slot of the first chain from an item.
fn slots_from(alloc: Global, lexed: &Lexed, item: Item) -> Result<Seq<u32>, OutOfMemory>
    requires stands { Stands lexed.now.traced.now.sig lexed.now.traced.now.tables item }
    ensures { IfOk result (λ slots.
        spec.AreSlotsFrom lexed.now.traced.now.program lexed.now.traced.now.sig lexed.now.traced.now.tables
        (is_written lexed.now.traced.now.encoding lexed.now.traced.now.files lexed.now.tokens.now
        (map file_view lexed.now.trees.now) lexed.now.traced.now.program lexed.now.traced.now.sig)
        (Some item) slots) }
{
    let steps = lexed.traced.chain_from(alloc, item)?;
    let slot = first_slot(&steps, alloc, lexed)?;
    let slots = listed(alloc, slot)?;
    Ok(slots)
}

/// The slot of a row, where it has one.
fn slots_of_row(alloc: Global, lexed: &Lexed, row: Row) -> Result<Seq<u32>, OutOfMemory>
    ensures { IfOk result (λ slots.
        spec.AreSlotsFrom lexed.now.traced.now.program lexed.now.traced.now.sig lexed.now.traced.now.tables
        (is_written lexed.now.traced.now.encoding lexed.now.traced.now.files lexed.now.tokens.now
        (map file_view lexed.now.trees.now) lexed.now.traced.now.program lexed.now.traced.now.sig)
        (item_of_row lexed.now.traced.now.program lexed.now.traced.now.sig row lexed.now.traced.now.tables) slots) }
{
    match lexed.traced.item_of(row) {
        None => Ok(Seq::new(alloc)),
        Some(item) => slots_from(alloc, lexed, item),
    }
}

/// The slots of rows, row by row.
///
/// # Errors
/// No memory was found.
pub fn slots_of(alloc: Global, lexed: &Lexed, rows: &[Row]) -> Result<Vec<Seq<u32>>, OutOfMemory>
    ensures { IfOk result (λ wants.
        spec.AreSlotsOf lexed.now.traced.now.program lexed.now.traced.now.sig lexed.now.traced.now.tables
        (is_written lexed.now.traced.now.encoding lexed.now.traced.now.files lexed.now.tokens.now
        (map file_view lexed.now.trees.now) lexed.now.traced.now.program lexed.now.traced.now.sig)
        rows.now wants.items) }
{
    let mut wants = Vec::new(alloc);
    for row in rows {
        let slots = slots_of_row(alloc, lexed, *row)?;
        put(&mut wants, slots)?;
    }
    Ok(wants)
}
