//! The types of declared locals, and what is written of their qualifiers (JLS 4.3, 9.7.4 and 14.4).
ghost use Rattle.std.specs.Prelude.{◌≡◌, Some};
ghost use Rattle.jn_lowering.specs.Annotations.{base_rows};
ghost use Rattle.jn_lowering.specs.Bases as spec;
ghost use Rattle.jn_lowering.specs.Locals as local;
ghost use Rattle.jn_places.specs.PlacedView.{placed_type_use};
ghost use Rattle.jn_scopes.specs.Views as view;
ghost use Rattle.jn_lower_stmt.specs.Views.{rows_of};

use crate::state::LocalKind;
use jn_base::{Code, NameNo, Row};
use jn_index::indexed::IndexedProgram;
use jn_known::{INITIALIZED, NON_NULL, NULLABLE, UNDER_INITIALIZATION, UNKNOWN_INITIALIZATION};
use jn_points::{BaseType, Elem};
use jn_scopes::Bound;
use jn_scopes::members::{class_named, class_or_object};
use jn_scopes::types::{is_class_use, simple_type};
use jn_trees::{Annotation, Base, LocalModifier, TypeUse};

fn has_annotation(name: NameNo, modifiers: &[LocalModifier]) -> bool
    ensures { result ≡ spec.has_annotation name.0 (local.annotations_of modifiers.now) }
{
    for modifier in modifiers {
        if let LocalModifier::Annotation(annotation) = modifier {
            if annotation.name.0 == name.0 {
                return true;
            }
        }
    }
    false
}

fn elem_type(program: &IndexedProgram, base: &Base, modifiers: &[LocalModifier]) -> Elem
    ensures { result ≡ spec.elem_type program.now base.now (local.annotations_of modifiers.now) }
{
    match base {
        Base::Class(name) => Elem::Ref(class_or_object(program, name.name)),
        Base::Int(_) => Elem::Int,
        Base::Boolean(_) => Elem::Bool,
    }
}

/// The type of an array whose elements have the annotations (JLS 9.7.4).
fn array_type(program: &IndexedProgram, base: &Base, modifiers: &[LocalModifier]) -> BaseType
    ensures { result ≡ spec.array_type program.now base.now (local.annotations_of modifiers.now) }
{
    BaseType::Array(
        elem_type(program, base, modifiers),
        is_class_use(*base) && has_annotation(NULLABLE, modifiers),
    )
}

fn type_of_use(
    program: &IndexedProgram,
    type_use: &TypeUse,
    modifiers: &[LocalModifier],
) -> BaseType
    ensures { result
        ≡ spec.type_of_use program.now (placed_type_use type_use.now)
        (local.annotations_of modifiers.now) }
{
    match &type_use.array {
        Some(_) => array_type(program, &type_use.base, modifiers),
        None => simple_type(program, type_use.base),
    }
}

/// The row of an unknown class.
fn fault_of(program: &IndexedProgram, base: &Base) -> Option<Row>
    ensures { rows_of result ≡ base_rows program.now base.now }
{
    match base {
        Base::Class(name) => match class_named(program, name.name) {
            Some(_) => None,
            None => Some(Row {
                span: name.span,
                code: Code::J1,
            }),
        },
        _ => None,
    }
}

/// What an annotation leaves open of a local's qualifier (Checker Framework manual, 3.2 and 3.8).
fn bound_named(name: NameNo) -> Option<Bound>
    ensures { view.bound_of result ≡ local.bound_named name.0 }
{
    if name.0 == NON_NULL.0 {
        bound(false, true, true)
    } else if name.0 == NULLABLE.0 || name.0 == UNKNOWN_INITIALIZATION.0 {
        bound(true, true, true)
    } else if name.0 == INITIALIZED.0 {
        bound(true, true, false)
    } else if name.0 == UNDER_INITIALIZATION.0 {
        bound(true, false, true)
    } else {
        None
    }
}

fn bound(null: bool, committed: bool, free: bool) -> Option<Bound>
    ensures { result ≡ Some (record { null = null; committed = committed; free = free }) }
{
    Some(Bound {
        null,
        committed,
        free,
    })
}

/// What two annotations both leave open.
fn common(first: Option<Bound>, second: Option<Bound>) -> Option<Bound>
    ensures { view.bound_of result ≡ local.common (view.bound_of first) (view.bound_of second) }
{
    match first {
        None => second,
        Some(a) => match second {
            None => first,
            Some(b) => bound(
                a.null && b.null,
                a.committed && b.committed,
                a.free && b.free,
            ),
        },
    }
}

fn bound_of_marks(modifiers: &[LocalModifier]) -> Option<Bound>
    ensures { view.bound_of result ≡ local.bound_of (local.annotations_of modifiers.now) }
{
    let mut at = modifiers.len();
    let mut all = None;
    while at > 0 {
        at -= 1;
        if let LocalModifier::Annotation(annotation) = modifiers[at] {
            all = common(bound_named(annotation.name), all);
        }
    }
    all
}

fn bound_of_brackets(annotations: &[Annotation]) -> Option<Bound>
    ensures { view.bound_of result ≡ local.bound_of annotations.now }
{
    let mut at = annotations.len();
    let mut all = None;
    while at > 0 {
        at -= 1;
        all = common(bound_named(annotations[at].name), all);
    }
    all
}

fn bound_of_use(type_use: &TypeUse, modifiers: &[LocalModifier]) -> Option<Bound>
    ensures { view.bound_of result
        ≡ local.bound_of (local.own_annotations (placed_type_use type_use.now).array
        (local.annotations_of modifiers.now)) }
{
    match &type_use.array {
        Some(brackets) => bound_of_brackets(brackets),
        None => bound_of_marks(modifiers),
    }
}

/// The type and the bound that a declaration writes for its locals.
pub fn kind_of(
    program: &IndexedProgram,
    type_use: &TypeUse,
    modifiers: &[LocalModifier],
) -> LocalKind
    ensures base { result.base
        ≡ spec.type_of_use program.now (placed_type_use type_use.now)
        (local.annotations_of modifiers.now) }
    ensures bound { view.bound_of result.bound
        ≡ local.bound_of (local.own_annotations (placed_type_use type_use.now).array
        (local.annotations_of modifiers.now)) }
    ensures fault { rows_of result.fault ≡ base_rows program.now type_use.now.base }
{
    LocalKind {
        base: type_of_use(program, type_use, modifiers),
        bound: bound_of_use(type_use, modifiers),
        fault: fault_of(program, &type_use.base),
    }
}
