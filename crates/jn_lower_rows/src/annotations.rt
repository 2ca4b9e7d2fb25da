//! Rows of written types: annotations that have no meaning where they stand (J5), and unknown classes (J1).
ghost use Rattle.std.specs.Prelude.{◌≡◌, ◌++◌, OnOk};
ghost use Rattle.jn_lowering.specs.Annotations as spec;
ghost use Rattle.jn_known.specs.Known.{is_object_member};
ghost use Rattle.jn_places.specs.PlacedView.{placed_type_use};
ghost use Rattle.jn_lower_rows.specs.Views.{allowed_of, kind_of};

use crate::row::push_if;
use jn_base::{Code, NameNo, Row, Seq};
use jn_known::{
    FIRST_MEMBER, INITIALIZED, IS_EMPTY, MONOTONIC_NON_NULL, NON_NULL, NULLABLE,
    UNDER_INITIALIZATION, UNKNOWN_INITIALIZATION,
};
use jn_scopes::types::is_class_use;
use jn_trees::{Annotation, Identifier, TypeUse};
use std::alloc::AllocError;

/// A kind of annotations (Checker Framework manual, 3): whether a value may be null, or whether it is initialized.
#[derive(Clone, Copy)]
pub enum Kind {
    Nullity,
    Initialization,
    Monotonic,
    /// Nullity, and monotonic.
    AnyNullity,
}

/// The kinds that may stand at a place.
#[derive(Clone, Copy)]
pub struct Allowed {
    pub nullity: bool,
    pub initialization: bool,
    pub monotonic: bool,
}

/// At a parameter, a result and a local.
pub const BOTH_KINDS: Allowed = Allowed {
    nullity: true,
    initialization: true,
    monotonic: false,
};

/// At an array's elements.
pub const NULLITY_ALONE: Allowed = Allowed {
    nullity: true,
    initialization: false,
    monotonic: false,
};

/// At a field.
pub const OF_FIELD: Allowed = Allowed {
    nullity: true,
    initialization: false,
    monotonic: true,
};

/// At a receiver.
pub const INITIALIZATION_ALONE: Allowed = Allowed {
    nullity: false,
    initialization: true,
    monotonic: false,
};

/// Whether an annotation of this name is of the kind.
pub fn is_kind(kind: Kind, name: NameNo) -> bool
    ensures { result ≡ kind_of kind name.0 }
{
    match kind {
        Kind::Nullity => name.0 == NON_NULL.0 || name.0 == NULLABLE.0,
        Kind::Initialization => {
            name.0 == INITIALIZED.0
                || name.0 == UNDER_INITIALIZATION.0
                || name.0 == UNKNOWN_INITIALIZATION.0
        }
        Kind::Monotonic => name.0 == MONOTONIC_NON_NULL.0,
        Kind::AnyNullity => {
            name.0 == NON_NULL.0 || name.0 == NULLABLE.0 || name.0 == MONOTONIC_NON_NULL.0
        }
    }
}

/// Whether an annotation of this name may stand where these are allowed, at a reference or a primitive.
pub fn is_allowed(allowed: Allowed, reference: bool, name: NameNo) -> bool
    ensures { result ≡ spec.is_allowed (allowed_of allowed) reference name.0 }
{
    reference
        && ((is_kind(Kind::Nullity, name) && allowed.nullity)
            || (is_kind(Kind::Initialization, name) && allowed.initialization)
            || (is_kind(Kind::Monotonic, name) && allowed.monotonic))
}

fn some_of(kind: Kind, annotations: &[Annotation]) -> bool
    ensures { result ≡ spec.some_named (kind_of kind) annotations.now }
{
    for annotation in annotations {
        if is_kind(kind, annotation.name) {
            return true;
        }
    }
    false
}

fn doubled(rows: &mut Seq<Row>, kind: Kind, annotations: &[Annotation]) -> Result<(), AllocError>
    ensures { OnOk result (rows.new ≡ rows.old ++ spec.doubled (kind_of kind) annotations.now) }
{
    let mut left = annotations;
    while let [first, rest @ ..] = left {
        if is_kind(kind, first.name) {
            return push_if(rows, some_of(kind, rest), Code::J5, first.span);
        }
        left = rest;
    }
    Ok(())
}

fn not_allowed(
    rows: &mut Seq<Row>,
    allowed: Allowed,
    reference: bool,
    annotations: &[Annotation],
) -> Result<(), AllocError>
    ensures { OnOk result
        (rows.new ≡ rows.old ++ spec.not_allowed (allowed_of allowed) reference annotations.now) }
{
    for annotation in annotations {
        let wrong = !is_allowed(allowed, reference, annotation.name);
        push_if(rows, wrong, Code::J5, annotation.span)?;
    }
    Ok(())
}

/// The annotations of a place: unknown ones, those of a kind that has no meaning there, two of one kind.
pub fn annotation_rows(
    rows: &mut Seq<Row>,
    allowed: Allowed,
    reference: bool,
    annotations: &[Annotation],
) -> Result<(), AllocError>
    ensures { OnOk result (rows.new
        ≡ rows.old ++ spec.annotation_rows (allowed_of allowed) reference annotations.now) }
{
    not_allowed(rows, allowed, reference, annotations)?;
    doubled(rows, Kind::AnyNullity, annotations)?;
    doubled(rows, Kind::Initialization, annotations)
}

/// The annotations of a use of a type and of what stands before it (JLS 9.7.4): those before an array's type are its elements'.
pub fn type_rows(
    rows: &mut Seq<Row>,
    type_use: &TypeUse,
    allowed: Allowed,
    leading: &[Annotation],
) -> Result<(), AllocError>
    ensures { OnOk result (rows.new
        ≡ rows.old
        ++ spec.type_rows (placed_type_use type_use.now) (allowed_of allowed) leading.now) }
{
    let reference = is_class_use(type_use.base);
    match &type_use.array {
        None => annotation_rows(rows, allowed, reference, leading),
        Some(brackets) => {
            annotation_rows(rows, NULLITY_ALONE, reference, leading)?;
            annotation_rows(rows, allowed, true, brackets)
        }
    }
}

/// Whether the name is that of a member of Object (JLS 4.3.2).
pub fn is_object_member(name: NameNo) -> bool
    ensures { result ≡ is_object_member name.0 }
{
    name.0 >= FIRST_MEMBER.0 && name.0 < IS_EMPTY.0
}

/// J5: the name of a member of Object that is declared.
pub fn name_row(rows: &mut Seq<Row>, name: Identifier) -> Result<(), AllocError>
    ensures { OnOk result (rows.new ≡ rows.old ++ spec.name_row name.name.0 name.span) }
{
    push_if(rows, is_object_member(name.name), Code::J5, name.span)
}
