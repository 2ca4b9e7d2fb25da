//! The words of inferred positions: at a type and at a receiver.
ghost use Rattle.std.specs.Prelude.{◌≡◌, ◌++◌, ◌∷◌, [], codes, IfOk, OnOk};
ghost use Rattle.jn_trees.specs.View.{base_view, brackets_view, parameter_views, receiver_view, type_use_view};
ghost use Rattle.jn_annotate.specs.Insertions as spec;
ghost use Rattle.jn_annotate.specs.Puts.{insertions};
ghost use Rattle.jn_annotate.specs.Words as words;

use crate::insert::Put;
use crate::steps::{behind_annotations, front, step};
use crate::words::{initialization_text, nullity_text};
use jn_base::lists::put;
use jn_base::{OutOfMemory, Seq, SlotNo};
use jn_points::Program;
use jn_quals::Qual;
use jn_sigs::Sig;
use jn_trees::{Annotation, Parameter, Receiver, Token, TypeUse};
use std::alloc::Global;

/// The qualifier of a slot that is inferred.
pub fn inferred_qual(program: &Program, sig: &Sig, slot: Option<SlotNo>) -> Option<Qual>
    ensures { result ≡ spec.inferred_qual program.now.slots sig.now slot }
{
    match slot {
        None => None,
        Some(slot) => match program.slots.as_slice().get(slot.0 as usize) {
            None => None,
            Some(info) => {
                if info.inferred {
                    Some(sig.get(slot))
                } else {
                    None
                }
            }
        },
    }
}

/// Puts words before a byte after the others.
fn put_at(puts: &mut Vec<Put>, at: u32, words: Vec<u8>) -> Result<(), OutOfMemory>
    ensures { OnOk result (insertions puts.new.items
        ≡ insertions puts.old.items ++ (record { at = at; words = words.items }) ∷ []) }
{
    put(
        puts,
        Put {
            at: at as usize,
            words: Seq::of_vec(words),
        },
    )?;
    Ok(())
}

/// Where the words of a type stand: before its first token, and of an array's before its bracket (JLS 9.7.4).
fn type_at(tokens: &[Token], type_use: &TypeUse) -> u32
    ensures { result
        ≡ spec.type_at tokens.now (base_view type_use.now.base)
        (brackets_view type_use.now.array) }
{
    match &type_use.array {
        None => front(tokens).from,
        Some(annotations) => front(behind_annotations(step(tokens), annotations)).from,
    }
}

/// A word as it stands there: before a bracket with a space before it.
fn type_word(
    alloc: Global,
    array: &Option<Vec<Annotation>>,
    word: &[u8],
) -> Result<Vec<u8>, OutOfMemory>
    ensures { IfOk result (λ w. w.items ≡ spec.type_words word.now (brackets_view array.now)) }
{
    match array {
        None => Ok(Vec::from_slice(alloc, word)?),
        Some(_) => {
            let mut words = Vec::from_slice(alloc, b" ")?;
            words.extend_from_slice(word)?;
            Ok(words)
        }
    }
}

/// Puts the word for null at a field's type.
pub fn put_nullity(
    alloc: Global,
    puts: &mut Vec<Put>,
    tokens: &[Token],
    type_use: &TypeUse,
    qual: Option<Qual>,
) -> Result<(), OutOfMemory>
    ensures { OnOk result (insertions puts.new.items
        ≡ insertions puts.old.items
        ++ spec.at_type words.nullity_text tokens.now (type_use_view type_use.now) qual) }
{
    match qual {
        None => Ok(()),
        Some(qual) => {
            let words = type_word(alloc, &type_use.array, nullity_text(qual))?;
            put_at(puts, type_at(tokens, type_use), words)
        }
    }
}

/// Puts both words at the type of a parameter or a result.
pub fn put_both(
    alloc: Global,
    puts: &mut Vec<Put>,
    tokens: &[Token],
    type_use: &TypeUse,
    qual: Option<Qual>,
) -> Result<(), OutOfMemory>
    ensures { OnOk result (insertions puts.new.items
        ≡ insertions puts.old.items
        ++ spec.at_type words.both_texts tokens.now (type_use_view type_use.now) qual) }
{
    match qual {
        None => Ok(()),
        Some(qual) => {
            let mut words = type_word(alloc, &type_use.array, nullity_text(qual))?;
            words.extend_from_slice(initialization_text(qual))?;
            put_at(puts, type_at(tokens, type_use), words)
        }
    }
}

/// What stands between a receiver and the parameters.
fn comma(parameters: &[Parameter]) -> &'static [u8]
    ensures { result.now ≡ spec.comma (parameter_views parameters.now) }
{
    match parameters {
        [] => b"",
        [_, ..] => b", ",
    }
}

/// A receiver that isn't named, as it is written before the parameters.
#[tactic(auto, using(crate::proofs::Walking::four_parts))]
fn receiver_words(
    alloc: Global,
    class: &[u8],
    parameters: &[Parameter],
    qual: Qual,
) -> Result<Vec<u8>, OutOfMemory>
    ensures { IfOk result (λ w. w.items
        ≡ words.initialization_text qual
        ++ (class.now ++ (codes " this" ++ spec.comma (parameter_views parameters.now)))) }
{
    let mut words = Vec::from_slice(alloc, initialization_text(qual))?;
    words.extend_from_slice(class)?;
    words.extend_from_slice(b" this")?;
    words.extend_from_slice(comma(parameters))?;
    Ok(words)
}

/// Puts the word for initialization before the class's name of a receiver that is named, and else a receiver after the parenthesis, which is the first
/// token (JLS 8.4.1).
pub fn put_receiver(
    alloc: Global,
    puts: &mut Vec<Put>,
    class: &[u8],
    paren: &[Token],
    receiver: &Option<Receiver>,
    parameters: &[Parameter],
    qual: Option<Qual>,
) -> Result<(), OutOfMemory>
    ensures { OnOk result (insertions puts.new.items
        ≡ insertions puts.old.items
        ++ spec.at_receiver class.now paren.now (receiver_view receiver.now)
        (parameter_views parameters.now) qual) }
{
    match qual {
        None => Ok(()),
        Some(qual) => match receiver {
            None => {
                let words = receiver_words(alloc, class, parameters, qual)?;
                put_at(puts, front(paren).to, words)
            }
            Some(receiver) => {
                let words = Vec::from_slice(alloc, initialization_text(qual))?;
                let class_name = behind_annotations(step(paren), &receiver.annotations);
                put_at(puts, front(class_name).from, words)
            }
        },
    }
}
