//! What may be of a value, in words.
ghost use Rattle.std.specs.Prelude.{◌≡◌, IfOk, slice_get};
ghost use Rattle.jn_note_words.specs.Owned.{AreOwners};
ghost use Rattle.jn_transfer.specs.Contributions.{is_inferred};
ghost use Rattle.jn_lsp_hover.specs.Worded as spec;

use jn_base::Text;
use jn_note_words::owners::{Owner, owner_at};
use jn_note_words::words::owner_words;
use jn_points::Program;
use jn_quals::Qual;
use jn_trees::Names;
use std::alloc::{AllocError, Global};

fn null_words(null: bool) -> &'static str
    ensures { result.now ≡ spec.null_words null }
{
    if null { "may be null" } else { "never null" }
}

fn whole_words(free: bool) -> &'static str
    ensures { result.now ≡ spec.whole_words free }
{
    if free {
        ", may be under construction"
    } else {
        ", whole"
    }
}

/// Whether it may be null, and whether it may be under construction.
fn qual_bytes(alloc: Global, qual: Qual) -> Result<Vec<u8>, AllocError>
    ensures { IfOk result (λ words. words.items ≡ spec.qual_words qual) }
{
    let mut words = Vec::from_slice(alloc, null_words(qual.has_null()).as_bytes())?;
    words.extend_from_slice(whole_words(qual.has_free()).as_bytes())?;
    Ok(words)
}

/// What a value of this qualifier may be.
///
/// # Errors
/// No memory was found.
pub fn qual_words(alloc: Global, qual: Qual) -> Result<Text, AllocError>
    ensures { IfOk result (λ words. words ≡ spec.qual_words qual) }
{
    let mut words = String::from_str(alloc, null_words(qual.has_null()))?;
    words.push_str(whole_words(qual.has_free()))?;
    Ok(Text::of_string(words))
}

fn source_words(inferred: bool) -> &'static str
    ensures { result.now ≡ spec.source_words inferred }
{
    if inferred {
        "; inferred"
    } else {
        "; as written"
    }
}

/// Whether the slot's qualifier is inferred.
fn is_inferred(program: &Program, slot: u32) -> bool
    ensures { result ≡ is_inferred (slice_get program.now.slots slot) }
{
    match program.slots.as_slice().get(slot as usize) {
        None => false,
        Some(info) => info.inferred,
    }
}

/// What has a slot, what that may be, and whether it is inferred.
///
/// # Errors
/// No memory was found.
pub fn slot_words(
    alloc: Global,
    program: &Program,
    names: &Names,
    owners: &[Option<Owner>],
    slot: u32,
    qual: Qual,
) -> Result<Text, AllocError>
    requires owners { AreOwners program.now owners.now }
    ensures { IfOk result (λ words. words ≡ spec.slot_words program.now names.now slot qual) }
{
    let mut words = owner_words(alloc, program, names, owner_at(owners, slot))?;
    words.extend_from_slice(b": ")?;
    words.extend_from_slice(&qual_bytes(alloc, qual)?)?;
    words.extend_from_slice(source_words(is_inferred(program, slot)).as_bytes())?;
    Ok(Text::of_string(String::from_utf8_lossy(alloc, &words)?))
}
