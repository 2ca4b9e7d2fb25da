//! Causes, and their words.
ghost use Rattle.std.specs.Prelude.{◌≡◌, ◌++◌, ◌∷◌, [], OnOk};
ghost use Rattle.jn_refused_notes.specs.Marked.{refusal};
ghost use Rattle.jn_refused_notes.specs.Told as spec;

use jn_base::{Seq, Span};
use std::alloc::AllocError;

/// Why a form isn't of the subset.
#[derive(Clone, Copy, Debug, PartialEq, Eq)]
pub enum Cause {
    /// An annotation that is none of the checker's six, nor `@Override` on a method.
    OtherAnnotation,
    /// One of the six on an `int`, a `boolean` or elements of such a type.
    OnPrimitive,
    /// One on initialization at a field or at elements.
    OfInitialization,
    /// `@MonotonicNonNull` elsewhere than at a field.
    OfField,
    /// One on nullness at a receiver.
    OfNullness,
    /// Two of one kind at one place.
    Doubled,
    /// A field of an interface.
    InterfaceField,
    /// A static field of another type or with another value than is taken.
    StaticField,
    /// The name of a member of Object that is declared or called.
    ObjectMember,
    /// A call of `equals` that isn't that of a String with one argument.
    OtherEquals,
    /// Another member of String or System than those that are taken.
    OtherMember,
    /// A comparison of references of which one is an Object or a String.
    OfReferences,
    /// An import of what isn't under `org.checkerframework.`.
    OtherImport,
    /// Another package than that of the first package line.
    OtherPackage,
}

/// What may not be of the subset: why, where it stands, and the place that is told of it, which is its own, or that of the other annotation or of the first
/// package's name.
#[derive(Clone, Copy)]
pub struct Refusal {
    pub cause: Cause,
    pub span: Span,
    pub told: Span,
}

/// Puts what isn't taken at a place.
pub(crate) fn refuse(found: &mut Seq<Refusal>, cause: Cause, span: Span) -> Result<(), AllocError>
    ensures { OnOk result (found.new ≡ found.old ++ refusal cause span ∷ []) }
{
    let told = span;
    found.push(Refusal { cause, span, told })
}

/// A cause in words, which end before the place that is told: what is of the subset there, and what stands in its place.
pub fn cause_words(cause: Cause) -> &'static str
    ensures { result.now ≡ spec.cause_words cause }
{
    match cause {
        Cause::OtherAnnotation => {
            "the six annotations of the checker, and `@Override` on a method, are of the subset: another one stands at"
        }
        Cause::OnPrimitive => {
            "an `int` or a `boolean` takes none of the checker's annotations: one stands at"
        }
        Cause::OfInitialization => {
            "a field or an element takes no annotation on initialization: one stands at"
        }
        Cause::OfField => "`@MonotonicNonNull` is for fields alone: it stands at",
        Cause::OfNullness => {
            "a receiver is never null, and takes no annotation on nullness: one stands at"
        }
        Cause::Doubled => {
            "two annotations of one kind stand at one place: the other one stands at"
        }
        Cause::InterfaceField => { "an interface has no fields in the subset: one is declared at" }
        Cause::StaticField => {
            "a static field is an `int` or a `boolean`, without a value or with one literal: another one is declared at"
        }
        Cause::ObjectMember => {
            "no member of `Object` is declared or called by its name: one is named at"
        }
        Cause::OtherEquals => {
            "`equals` is called of a `String` alone, with one argument: it is named at"
        }
        Cause::OtherMember => {
            "a `String` has `length()`, `isEmpty()` and `equals(e)`, and `System` has `System.out.println(e)`: another member is named at"
        }
        Cause::OfReferences => {
            "an `Object` or a `String` is compared by `==` and `!=` with `null` alone: it is compared otherwise at"
        }
        Cause::OtherImport => {
            "only what is under `org.checkerframework.` is imported: another import stands at"
        }
        Cause::OtherPackage => "all files are of one package: it is first named at",
    }
}
