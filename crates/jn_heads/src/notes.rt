//! Modifiers and annotations (JLS 9.7.4).
ghost use Rattle.std.specs.Prelude.{◌≡◌};
ghost use Rattle.jn_points.specs.Members.{some_of};
ghost use Rattle.jn_heads.specs.Extract as spec;
ghost use Rattle.jn_heads.specs.Heads.{no_notes};

use crate::head::Notes;
use jn_base::NameNo;
use jn_known::{
    INITIALIZED, MONOTONIC_NON_NULL, NON_NULL, NULLABLE, UNDER_INITIALIZATION,
    UNKNOWN_INITIALIZATION,
};
use jn_trees::{Annotation, LocalModifier, Modifier};

/// A modifier that a class table looks for.
#[derive(Clone, Copy, Debug, PartialEq, Eq)]
pub enum Word {
    Public,
    Private,
    Static,
    Final,
    Abstract,
}

fn is_word(word: Word, modifier: Modifier) -> bool
    ensures { result ≡ spec.is_word word modifier }
{
    match (word, modifier) {
        (Word::Public, Modifier::Public(_)) => true,
        (Word::Private, Modifier::Private(_)) => true,
        (Word::Static, Modifier::Static(_)) => true,
        (Word::Final, Modifier::Final(_)) => true,
        (Word::Abstract, Modifier::Abstract(_)) => true,
        _ => false,
    }
}

/// Whether the word stands among the modifiers.
pub fn has_word(modifiers: &[Modifier], word: Word) -> bool
    ensures { result ≡ spec.has_word word modifiers.now }
{
    for modifier in modifiers {
        if is_word(word, *modifier) {
            return true;
        }
    }
    false
}

fn is_named(name: NameNo, annotation: Annotation) -> bool
    ensures { result ≡ spec.is_named name.0 annotation }
{
    annotation.name.0 == name.0
}

fn is_note(name: NameNo, modifier: Modifier) -> bool
    ensures { result ≡ spec.is_note name.0 modifier }
{
    match modifier {
        Modifier::Annotation(annotation) => is_named(name, annotation),
        _ => false,
    }
}

fn is_local_note(name: NameNo, modifier: LocalModifier) -> bool
    ensures { result ≡ spec.is_local_note name.0 modifier }
{
    match modifier {
        LocalModifier::Annotation(annotation) => is_named(name, annotation),
        LocalModifier::Final(_) => false,
    }
}

fn has_named(annotations: &[Annotation], name: NameNo) -> bool
    ensures { result ≡ some_of (spec.is_named name.0) annotations.now }
{
    for annotation in annotations {
        if is_named(name, *annotation) {
            return true;
        }
    }
    false
}

fn has_note(modifiers: &[Modifier], name: NameNo) -> bool
    ensures { result ≡ some_of (spec.is_note name.0) modifiers.now }
{
    for modifier in modifiers {
        if is_note(name, *modifier) {
            return true;
        }
    }
    false
}

fn has_local_note(modifiers: &[LocalModifier], name: NameNo) -> bool
    ensures { result ≡ some_of (spec.is_local_note name.0) modifiers.now }
{
    for modifier in modifiers {
        if is_local_note(name, *modifier) {
            return true;
        }
    }
    false
}

/// No annotation.
pub fn no_notes() -> Notes
    ensures { result ≡ no_notes }
{
    Notes {
        non_null: false,
        nullable: false,
        initialized: false,
        under: false,
        unknown: false,
        monotonic: false,
    }
}

/// Which of the six stand in a list.
pub fn notes_of(annotations: &[Annotation]) -> Notes
    ensures { result ≡ spec.notes_of annotations.now }
{
    Notes {
        non_null: has_named(annotations, NON_NULL),
        nullable: has_named(annotations, NULLABLE),
        initialized: has_named(annotations, INITIALIZED),
        under: has_named(annotations, UNDER_INITIALIZATION),
        unknown: has_named(annotations, UNKNOWN_INITIALIZATION),
        monotonic: has_named(annotations, MONOTONIC_NON_NULL),
    }
}

/// Which of the six stand among the modifiers of a member.
pub fn modifier_notes(modifiers: &[Modifier]) -> Notes
    ensures { result ≡ spec.modifier_notes modifiers.now }
{
    Notes {
        non_null: has_note(modifiers, NON_NULL),
        nullable: has_note(modifiers, NULLABLE),
        initialized: has_note(modifiers, INITIALIZED),
        under: has_note(modifiers, UNDER_INITIALIZATION),
        unknown: has_note(modifiers, UNKNOWN_INITIALIZATION),
        monotonic: has_note(modifiers, MONOTONIC_NON_NULL),
    }
}

/// Which of the six stand among the modifiers of a parameter.
pub fn local_notes(modifiers: &[LocalModifier]) -> Notes
    ensures { result ≡ spec.local_notes modifiers.now }
{
    Notes {
        non_null: has_local_note(modifiers, NON_NULL),
        nullable: has_local_note(modifiers, NULLABLE),
        initialized: has_local_note(modifiers, INITIALIZED),
        under: has_local_note(modifiers, UNDER_INITIALIZATION),
        unknown: has_local_note(modifiers, UNKNOWN_INITIALIZATION),
        monotonic: has_local_note(modifiers, MONOTONIC_NON_NULL),
    }
}
