//! Annotations that aren't of the subset where they stand.
ghost use Rattle.std.specs.Prelude.{◌≡◌, ◌++◌, cond, find, flat_map, OnOk};
ghost use Rattle.jn_lower_rows.specs.Views.{allowed_of, kind_of};
ghost use Rattle.jn_places.specs.PlacedView.{placed_type_use};
ghost use Rattle.jn_refused_notes.specs.Marked as spec;

use crate::causes::{Cause, Refusal, refuse};
use jn_base::{NameNo, Seq};
use jn_lower_rows::annotations::{Allowed, Kind, NULLITY_ALONE, is_allowed, is_kind};
use jn_scopes::types::is_class_use;
use jn_trees::{Annotation, TypeUse};
use std::alloc::AllocError;

/// Why an annotation that isn't taken has no meaning where it stands.
fn misplaced(reference: bool, name: NameNo) -> Cause
    ensures { result ≡ spec.misplaced reference name.0 }
{
    if !(is_kind(Kind::AnyNullity, name) || is_kind(Kind::Initialization, name)) {
        Cause::OtherAnnotation
    } else if !reference {
        Cause::OnPrimitive
    } else if is_kind(Kind::Initialization, name) {
        Cause::OfInitialization
    } else if is_kind(Kind::Monotonic, name) {
        Cause::OfField
    } else {
        Cause::OfNullness
    }
}

/// Puts an annotation, where it has no meaning.
fn one(
    allowed: Allowed,
    reference: bool,
    annotation: Annotation,
    found: &mut Seq<Refusal>,
) -> Result<(), AllocError>
    ensures { OnOk result (found.new
        ≡ found.old
        ++ spec.refused_annotation (allowed_of allowed) reference annotation) }
{
    if is_allowed(allowed, reference, annotation.name) {
        Ok(())
    } else {
        refuse(
            found,
            misplaced(reference, annotation.name),
            annotation.span,
        )
    }
}

fn each(
    allowed: Allowed,
    reference: bool,
    annotations: &[Annotation],
    found: &mut Seq<Refusal>,
) -> Result<(), AllocError>
    ensures { OnOk result (found.new
        ≡ found.old
        ++ flat_map (spec.refused_annotation (allowed_of allowed) reference) annotations.now) }
{
    for annotation in annotations {
        one(allowed, reference, *annotation, found)?;
    }
    Ok(())
}

/// The first annotation of the kind.
fn first_of_kind(kind: Kind, annotations: &[Annotation]) -> Option<Annotation>
    ensures { result ≡ find (spec.is_named (kind_of kind)) annotations.now }
{
    for annotation in annotations {
        if is_kind(kind, annotation.name) {
            return Some(*annotation);
        }
    }
    None
}

/// Puts an annotation, where another one of its kind stands after it.
fn first_of_two(
    first: Annotation,
    second: Option<Annotation>,
    found: &mut Seq<Refusal>,
) -> Result<(), AllocError>
    ensures { OnOk result (found.new ≡ found.old ++ spec.first_of_two first second) }
{
    match second {
        None => Ok(()),
        Some(other) => {
            let cause = Cause::Doubled;
            let (span, told) = (first.span, other.span);
            found.push(Refusal { cause, span, told })
        }
    }
}

/// Puts the first of two of one kind.
fn doubles(
    kind: Kind,
    annotations: &[Annotation],
    found: &mut Seq<Refusal>,
) -> Result<(), AllocError>
    ensures { OnOk result
        (found.new ≡ found.old ++ spec.doubles (kind_of kind) annotations.now) }
{
    let mut left = annotations;
    while let [first, rest @ ..] = left {
        if is_kind(kind, first.name) {
            return first_of_two(*first, first_of_kind(kind, rest), found);
        }
        left = rest;
    }
    Ok(())
}

/// Puts the annotations of a place that aren't taken there.
pub(crate) fn annotations(
    allowed: Allowed,
    reference: bool,
    written: &[Annotation],
    found: &mut Seq<Refusal>,
) -> Result<(), AllocError>
    ensures { OnOk result (found.new
        ≡ found.old
        ++ spec.annotation_refusals (allowed_of allowed) reference written.now) }
{
    each(allowed, reference, written, found)?;
    doubles(Kind::AnyNullity, written, found)?;
    doubles(Kind::Initialization, written, found)
}

/// Puts those of a use of a type and of what stands before it (JLS 9.7.4): those before an array's type are its elements'.
pub(crate) fn type_use(
    written: &TypeUse,
    allowed: Allowed,
    leading: &[Annotation],
    found: &mut Seq<Refusal>,
) -> Result<(), AllocError>
    ensures { OnOk result (found.new
        ≡ found.old
        ++ spec.use_refusals (placed_type_use written.now) (allowed_of allowed) leading.now) }
{
    let reference = is_class_use(written.base);
    match &written.array {
        None => annotations(allowed, reference, leading, found),
        Some(brackets) => {
            annotations(NULLITY_ALONE, reference, leading, found)?;
            annotations(allowed, true, brackets, found)
        }
    }
}
