//! The actions of slots, each once.
ghost use Rattle.std.specs.Prelude.{◌≡◌, ◌++◌, cond, [], flat_map, map, option_to_list, IfOk, OnOk};
ghost use Rattle.jn_trees.specs.View.{file_view};
ghost use Rattle.jn_lsp_actions.specs.Mended as mends;
ghost use Rattle.jn_lsp_actions.specs.Offered as spec;
ghost use Rattle.jn_lsp_actions.specs.Written.{give};

use crate::edits::{Lexed, Writing};
use crate::mending::{Mending, comes};
use jn_base::{OutOfMemory, Seq};
use jn_lsp_text::Action;
use std::alloc::{AllocError, Global};

/// The action of the slot, unless it comes again.
fn given_here(
    alloc: Global,
    lexed: &Lexed,
    writing: Writing,
    mending: &Mending,
    slot: u32,
    slots: &[u32],
) -> Result<Option<Action>, OutOfMemory>
    ensures { IfOk result (λ action. option_to_list action
        ≡ cond (mends.comes slot slots.now) []
        (give lexed.now.traced.now.encoding lexed.now.traced.now.files lexed.now.traced.now.names lexed.now.tokens.now
        (map file_view lexed.now.trees.now) lexed.now.traced.now.program lexed.now.traced.now.sig writing
        (mends.mended mending.now.wants.now mending.now.diagnostics.now) slot)) }
{
    if comes(slot, slots) {
        Ok(None)
    } else {
        lexed.action_of_slot(alloc, writing, mending, slot)
    }
}

fn push_some(actions: &mut Seq<Action>, action: Option<Action>) -> Result<(), AllocError>
    ensures { OnOk result (actions.new ≡ actions.old ++ option_to_list action) }
{
    match action {
        None => Ok(()),
        Some(action) => actions.push(action),
    }
}

/// Puts the actions of slots after the others, each where its slot comes last.
fn put_each(
    actions: &mut Seq<Action>,
    alloc: Global,
    lexed: &Lexed,
    writing: Writing,
    mending: &Mending,
    slots: &[u32],
) -> Result<(), OutOfMemory>
    ensures { OnOk result (actions.new
        ≡ actions.old
        ++ spec.given (give lexed.now.traced.now.encoding lexed.now.traced.now.files lexed.now.traced.now.names lexed.now.tokens.now
        (map file_view lexed.now.trees.now) lexed.now.traced.now.program lexed.now.traced.now.sig writing
        (mends.mended mending.now.wants.now mending.now.diagnostics.now)) slots.now) }
{
    let mut rest = slots;
    while let [slot, more @ ..] = rest {
        push_some(
            actions,
            given_here(alloc, lexed, writing, mending, *slot, more)?,
        )?;
        rest = more;
    }
    Ok(())
}

/// The slots of all rows, in their order.
fn all_slots(alloc: Global, wants: &[Seq<u32>]) -> Result<Vec<u32>, AllocError>
    ensures { IfOk result (λ slots. slots.items ≡ flat_map (λ slots. slots) wants.now) }
{
    let mut all = Vec::new(alloc);
    for slots in wants {
        all.extend_from_slice(slots.as_slice())?;
    }
    Ok(all)
}

/// Puts the actions of the rows' slots after the others, once for a slot, each where its slot comes last.
///
/// # Errors
/// No memory was found.
pub fn put_given(
    actions: &mut Seq<Action>,
    alloc: Global,
    lexed: &Lexed,
    writing: Writing,
    mending: &Mending,
) -> Result<(), OutOfMemory>
    ensures { OnOk result (actions.new
        ≡ actions.old
        ++ spec.given_for lexed.now.traced.now.encoding lexed.now.traced.now.files lexed.now.traced.now.names lexed.now.tokens.now
        (map file_view lexed.now.trees.now) lexed.now.traced.now.program lexed.now.traced.now.sig writing
        mending.now.wants.now mending.now.diagnostics.now) }
{
    let slots = all_slots(alloc, mending.wants)?;
    put_each(actions, alloc, lexed, writing, mending, &slots)
}
