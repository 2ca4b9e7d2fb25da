//! Rows J5 outside bodies: packages, imports, annotations, names of Object's members, static and interface fields.
ghost use Rattle.std.specs.Prelude.{◌≡◌, ◌++◌, ◌∷◌, true, map, OnOk};
ghost use Rattle.jn_lowering.specs.Annotations as annotated;
ghost use Rattle.jn_lowering.specs.Locals.{annotations_of};
ghost use Rattle.jn_lowering.specs.FileRows as spec;
ghost use Rattle.jn_places.specs.PlacedView.{placed_declarator, placed_declarators, placed_dotted, placed_file, placed_import, placed_member, placed_members, placed_optional, placed_package, placed_parameters, placed_receiver, placed_result, placed_type, placed_type_use, placed_view};
ghost use Rattle.jn_lower_rows.specs.Views.{first_package};

use crate::annotations::{
    BOTH_KINDS, INITIALIZATION_ALONE, OF_FIELD, annotation_rows, name_row, type_rows,
};
use crate::notes::{local_notes, notes, notes_but_override};
use crate::row::{push, push_if};
use jn_base::{Code, Row, Seq, Span};
use jn_known::{CHECKERFRAMEWORK, ORG};
use jn_trees::{
    Base, Declarator, Expr, FileTree, Identifier, Import, Literal, Member, Modifier, PackageLine,
    Parameter, QualifiedName, Receiver, ResultUse, TypeTree, TypeUse, UnaryOperator,
};
use std::alloc::{AllocError, Global};

fn is_number(tree: &Expr) -> bool
    ensures { result ≡ spec.is_number_tree (placed_view tree.now) }
{
    match tree {
        Expr::Literal { literal, .. } => match literal {
            Literal::Number(_) => true,
            _ => false,
        },
        _ => false,
    }
}

fn is_int_start(tree: &Expr) -> bool
    ensures { result ≡ spec.is_int_start (placed_view tree.now) }
{
    match tree {
        Expr::Unary {
            operator,
            operand,
            ..
        } => match operator {
            UnaryOperator::Minus => is_number(operand),
            _ => false,
        },
        _ => is_number(tree),
    }
}

fn is_truth_start(tree: &Expr) -> bool
    ensures { result ≡ spec.is_truth_start (placed_view tree.now) }
{
    match tree {
        Expr::Literal { literal, .. } => match literal {
            Literal::True => true,
            Literal::False => true,
            _ => false,
        },
        _ => false,
    }
}

fn starts(base: Base, value: &Option<Box<Expr>>) -> bool
    ensures { result ≡ spec.starts base (placed_optional value.now) }
{
    match value {
        None => true,
        Some(tree) => match base {
            Base::Class(_) => false,
            Base::Int(_) => is_int_start(tree),
            Base::Boolean(_) => is_truth_start(tree),
        },
    }
}

fn all_start(base: Base, declarators: &[Declarator]) -> bool
    ensures { result ≡ spec.all_start base (placed_declarators declarators.now) }
{
    for declarator in declarators {
        if !starts(base, &declarator.value) {
            return false;
        }
    }
    true
}

fn is_primitive(base: Base) -> bool
    ensures { result ≡ spec.is_primitive_base base }
{
    match base {
        Base::Class(_) => false,
        _ => true,
    }
}

fn is_static_start(type_use: &TypeUse, first: &Declarator, more: &[Declarator]) -> bool
    ensures { result
        ≡ spec.is_static_start (placed_type_use type_use.now)
        (placed_declarator first.now ∷ placed_declarators more.now) }
{
    is_primitive(type_use.base)
        && type_use.array.is_none()
        && starts(type_use.base, &first.value)
        && all_start(type_use.base, more)
}

/// Whether `static` is among the modifiers.
pub fn has_static(modifiers: &[Modifier]) -> bool
    ensures { result ≡ spec.has_static modifiers.now }
{
    for modifier in modifiers {
        if let Modifier::Static(_) = modifier {
            return true;
        }
    }
    false
}

fn names_rows(rows: &mut Seq<Row>, declarators: &[Declarator]) -> Result<(), AllocError>
    ensures { OnOk result
        (rows.new ≡ rows.old ++ spec.names_rows (placed_declarators declarators.now)) }
{
    for declarator in declarators {
        name_row(rows, declarator.name)?;
    }
    Ok(())
}

fn parameter_row(
    alloc: Global,
    rows: &mut Seq<Row>,
    parameter: &Parameter,
) -> Result<(), AllocError>
    ensures { OnOk result (rows.new
        ≡ rows.old
        ++ (annotated.name_row parameter.now.name.name.0 parameter.now.name.span
        ++ annotated.type_rows (placed_type_use parameter.now.type_use) annotated.both_kinds
        (annotations_of parameter.now.modifiers.items))) }
{
    name_row(rows, parameter.name)?;
    let notes = local_notes(alloc, &parameter.modifiers)?;
    type_rows(rows, &parameter.type_use, BOTH_KINDS, &notes)
}

fn parameter_rows(
    alloc: Global,
    rows: &mut Seq<Row>,
    parameters: &[Parameter],
) -> Result<(), AllocError>
    ensures { OnOk result
        (rows.new ≡ rows.old ++ spec.parameter_rows (placed_parameters parameters.now)) }
{
    for parameter in parameters {
        parameter_row(alloc, rows, parameter)?;
    }
    Ok(())
}

fn result_rows(
    alloc: Global,
    rows: &mut Seq<Row>,
    result_use: &ResultUse,
    modifiers: &[Modifier],
) -> Result<(), AllocError>
    ensures { OnOk result (rows.new
        ≡ rows.old
        ++ spec.result_rows (placed_result result_use.now)
        (spec.without_override (spec.notes_of modifiers.now))) }
{
    let notes = notes_but_override(alloc, modifiers)?;
    match result_use {
        ResultUse::Void(_) => annotation_rows(rows, BOTH_KINDS, true, &notes),
        ResultUse::Value(type_use) => type_rows(rows, type_use, BOTH_KINDS, &notes),
    }
}

fn receiver_rows(rows: &mut Seq<Row>, receiver: &Option<Receiver>) -> Result<(), AllocError>
    ensures { OnOk result
        (rows.new ≡ rows.old ++ spec.receiver_rows (placed_receiver receiver.now)) }
{
    match receiver {
        None => Ok(()),
        Some(given) => annotation_rows(rows, INITIALIZATION_ALONE, true, &given.annotations),
    }
}

fn marked_rows(alloc: Global, rows: &mut Seq<Row>, modifiers: &[Modifier]) -> Result<(), AllocError>
    ensures { OnOk result (rows.new
        ≡ rows.old
        ++ annotated.annotation_rows annotated.both_kinds true (spec.notes_of modifiers.now)) }
{
    let notes = notes(alloc, modifiers)?;
    annotation_rows(rows, BOTH_KINDS, true, &notes)
}

fn field_type_rows(
    alloc: Global,
    rows: &mut Seq<Row>,
    type_use: &TypeUse,
    modifiers: &[Modifier],
) -> Result<(), AllocError>
    ensures { OnOk result (rows.new
        ≡ rows.old
        ++ annotated.type_rows (placed_type_use type_use.now) annotated.of_field
        (spec.notes_of modifiers.now)) }
{
    let notes = notes(alloc, modifiers)?;
    type_rows(rows, type_use, OF_FIELD, &notes)
}

fn mark_span(modifier: Modifier) -> Span
    ensures { result ≡ spec.mark_span modifier }
{
    match modifier {
        Modifier::Annotation(annotation) => annotation.span,
        Modifier::Public(span) => span,
        Modifier::Protected(span) => span,
        Modifier::Private(span) => span,
        Modifier::Static(span) => span,
        Modifier::Final(span) => span,
        Modifier::Abstract(span) => span,
    }
}

fn base_span(base: Base) -> Span
    ensures { result ≡ spec.base_span base }
{
    match base {
        Base::Class(name) => name.span,
        Base::Int(span) => span,
        Base::Boolean(span) => span,
    }
}

/// The first token of a field's declaration, where an annotation counts as one.
pub fn first_mark(modifiers: &[Modifier], type_use: &TypeUse) -> Span
    ensures { result ≡ spec.first_mark modifiers.now (placed_type_use type_use.now) }
{
    match modifiers {
        [] => base_span(type_use.base),
        [first, ..] => mark_span(*first),
    }
}

/// The rows of a member's head: its annotations, the names that it declares, and how its fields start.
fn head_rows(
    alloc: Global,
    rows: &mut Seq<Row>,
    interface: bool,
    member: &Member,
) -> Result<(), AllocError>
    ensures { OnOk result
        (rows.new ≡ rows.old ++ spec.head_rows interface (placed_member member.now)) }
{
    match member {
        Member::Field {
            modifiers,
            type_use,
            first,
            more,
            ..
        } => {
            field_type_rows(alloc, rows, type_use, modifiers)?;
            name_row(rows, first.name)?;
            names_rows(rows, more)?;
            let at = first_mark(modifiers, type_use);
            if interface {
                push(rows, Code::J5, at)
            } else {
                let wrong = has_static(modifiers) && !is_static_start(type_use, first, more);
                push_if(rows, wrong, Code::J5, at)
            }
        }
        Member::Method {
            modifiers,
            result: result_use,
            name,
            receiver,
            parameters,
            ..
        } => {
            name_row(rows, *name)?;
            result_rows(alloc, rows, result_use, modifiers)?;
            receiver_rows(rows, receiver)?;
            parameter_rows(alloc, rows, parameters)
        }
        Member::Constructor {
            modifiers,
            parameters,
            ..
        } => {
            marked_rows(alloc, rows, modifiers)?;
            parameter_rows(alloc, rows, parameters)
        }
    }
}

fn heads_rows(
    alloc: Global,
    rows: &mut Seq<Row>,
    interface: bool,
    members: &[Member],
) -> Result<(), AllocError>
    ensures { OnOk result
        (rows.new ≡ rows.old ++ spec.heads_rows interface (placed_members members.now)) }
{
    for member in members {
        head_rows(alloc, rows, interface, member)?;
    }
    Ok(())
}

fn declared_type_rows(
    alloc: Global,
    rows: &mut Seq<Row>,
    declared: &TypeTree,
) -> Result<(), AllocError>
    ensures { OnOk result
        (rows.new ≡ rows.old ++ spec.declared_type_rows (placed_type declared.now)) }
{
    match declared {
        TypeTree::Class {
            modifiers,
            name,
            members,
            ..
        } => {
            marked_rows(alloc, rows, modifiers)?;
            name_row(rows, *name)?;
            heads_rows(alloc, rows, false, members)
        }
        TypeTree::Interface {
            modifiers,
            name,
            members,
            ..
        } => {
            marked_rows(alloc, rows, modifiers)?;
            name_row(rows, *name)?;
            heads_rows(alloc, rows, true, members)
        }
    }
}

fn types_rows(alloc: Global, rows: &mut Seq<Row>, types: &[TypeTree]) -> Result<(), AllocError>
    ensures { OnOk result (rows.new ≡ rows.old ++ spec.types_rows (map placed_type types.now)) }
{
    for declared in types {
        declared_type_rows(alloc, rows, declared)?;
    }
    Ok(())
}

/// Whether the names after `org` go on below `checkerframework`.
fn is_under(names: &[Identifier], all: bool) -> bool
    ensures { result ≡ spec.is_under names.now all }
{
    match names {
        [] => false,
        [second] => second.name.0 == CHECKERFRAMEWORK.0 && all,
        [second, ..] => second.name.0 == CHECKERFRAMEWORK.0,
    }
}

fn import_row(rows: &mut Seq<Row>, import: &Import) -> Result<(), AllocError>
    ensures { OnOk result (rows.new ≡ rows.old ++ spec.import_row (placed_import import.now)) }
{
    let known = import.name.first.name.0 == ORG.0 && is_under(&import.name.more, import.all);
    push_if(rows, !known, Code::J5, import.span)
}

fn import_rows(rows: &mut Seq<Row>, imports: &[Import]) -> Result<(), AllocError>
    ensures { OnOk result
        (rows.new ≡ rows.old ++ spec.import_rows (map placed_import imports.now)) }
{
    for import in imports {
        import_row(rows, import)?;
    }
    Ok(())
}

fn same_names(left: &[Identifier], right: &[Identifier]) -> bool
    ensures { result ≡ spec.same_names left.now right.now }
{
    let mut one = left;
    let mut other = right;
    while let [first, rest @ ..] = one {
        match other {
            [] => return false,
            [second, more @ ..] => {
                if first.name.0 != second.name.0 {
                    return false;
                }
                one = rest;
                other = more;
            }
        }
    }
    other.is_empty()
}

fn same_package(left: &QualifiedName, right: &QualifiedName) -> bool
    ensures { result ≡ spec.same_package (placed_dotted left.now) (placed_dotted right.now) }
{
    left.first.name.0 == right.first.name.0 && same_names(&left.more, &right.more)
}

/// J5: another package than the one that is written first.
fn package_row(
    rows: &mut Seq<Row>,
    first: Option<&QualifiedName>,
    line: &Option<PackageLine>,
) -> Result<(), AllocError>
    ensures { OnOk result (rows.new
        ≡ rows.old ++ spec.package_row (first_package first.entry) (placed_package line.now)) }
{
    match line {
        None => Ok(()),
        Some(package) => match first {
            None => Ok(()),
            Some(name) => {
                let same = same_package(name, &package.name);
                push_if(rows, !same, Code::J5, package.span)
            }
        },
    }
}

/// The package that is written first.
fn package_behind<'a>(
    first: Option<&'a QualifiedName>,
    line: &'a Option<PackageLine>,
) -> Option<&'a QualifiedName>
    ensures { first_package result
        ≡ spec.package_behind (first_package first.entry) (placed_package line.now) }
{
    match first {
        Some(name) => Some(name),
        None => match line {
            None => None,
            Some(package) => Some(&package.name),
        },
    }
}

/// The rows J5 of the files outside bodies.
pub fn file_rows(alloc: Global, rows: &mut Seq<Row>, files: &[FileTree]) -> Result<(), AllocError>
    ensures { OnOk result (rows.new ≡ rows.old ++ spec.outside_rows (map placed_file files.now)) }
{
    let mut first = None;
    for file in files {
        package_row(rows, first, &file.package)?;
        import_rows(rows, &file.imports)?;
        types_rows(alloc, rows, &file.types)?;
        first = package_behind(first, &file.package);
    }
    Ok(())
}
