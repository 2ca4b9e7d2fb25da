//! Rows J1 to J5 of an expression, and its type, in one pass.
ghost use Rattle.std.specs.Prelude.{◌≡◌, ◌++◌, false, IfOk, OnOk};
ghost use Rattle.jn_places.specs.PlacedView.{placed_view, placed_views};
ghost use Rattle.jn_scopes.specs.Views.{access_of, type_in};
ghost use Rattle.jn_lower_rows.specs.Views.{all_in, assigned_in, rows_in};
ghost use Rattle.jn_lower_rows.specs.Before.{IsBefore, access_in, accessed_rows, argument_rows, is_clean, prints_in};
ghost use Rattle.jn_lowering.specs.Scopes.{count as spec_count};

use crate::calls::{own_call_rows, super_call_rows};
use crate::members::{known_class, new_rows};
use crate::names::{array_rows, assigned_name_rows, name_rows};
use crate::receivers::{
    Before, Found, Looked, access_rows, both_rows, call_rows, called_type, either_null, found_rows,
    index_rows, unseen,
};
use crate::row::{push, push_if};
use crate::setting::Setting;
use jn_base::{Code, Row, Seq};
use jn_points::BaseType;
use jn_points::lookup::elem_base;
use jn_scopes::forms::{count, span_of};
use jn_scopes::lookup::{access_by, before_dot, is_println, meaning};
use jn_scopes::members::class_or_object;
use jn_scopes::types::{
    access_type, array_type, assign_type, binary_type, is_local, literal_type, meaning_type,
    operator_of, own_type, super_type, type_of, unary_type, wider,
};
use jn_scopes::{Context, Meaning};
use jn_trees::{Expr, Identifier};
use std::alloc::AllocError;

/// The rows of an expression that is read, and its type. One pass does both, so that a chain of calls isn't typed anew at each dot.
#[cycle(looking)]
pub fn expression(
    tree: &Expr,
    c: &Context,
    at: Setting,
    rows: &mut Seq<Row>,
) -> Result<BaseType, AllocError>
    ensures { IfOk result (λ base. (base ≡ type_in c.now (placed_view tree.now))
        × (rows.new ≡ rows.old ++ rows_in c.now at (placed_view tree.now))) }
{
    match tree {
        Expr::Literal { literal, .. } => Ok(literal_type(*literal)),
        Expr::Name { name } => {
            let meant = meaning(c, name.name);
            name_rows(rows, c, at, meant, name.span)?;
            Ok(meaning_type(c, meant))
        }
        Expr::This { span } => {
            push_if(rows, !at.this_stands, Code::J1, *span)?;
            Ok(BaseType::Ref(c.class))
        }
        Expr::Paren { inner, .. } => expression(inner, c, at, rows),
        Expr::Field { target, name, .. } => {
            let found = field(target, *name, c, at, rows)?;
            Ok(access_type(c, found.access))
        }
        Expr::Call {
            target,
            name,
            arguments,
            ..
        } => {
            let listed: &[Expr] = arguments;
            let before = receiver(target, *name, listed, c, at, rows)?;
            arguments_of(tree, c, at, rows)?;
            let arity = count(listed);
            call_rows(rows, c, before, *name, arity)?;
            Ok(called_type(c, before, name.name, arity))
        }
        Expr::OwnCall {
            name,
            arguments,
            ..
        } => {
            let listed: &[Expr] = arguments;
            all(listed, c, at, rows)?;
            let arity = count(listed);
            own_call_rows(rows, c, at, *name, arity)?;
            Ok(own_type(c, name.name, arity))
        }
        Expr::SuperCall {
            name,
            arguments,
            span,
        } => {
            let listed: &[Expr] = arguments;
            push_if(rows, !at.this_stands, Code::J1, *span)?;
            all(listed, c, at, rows)?;
            let arity = count(listed);
            super_call_rows(rows, c, at, *name, arity)?;
            Ok(super_type(c, name.name, arity))
        }
        Expr::Index { array, index, .. } => {
            let of = looked(array, c, at, rows)?;
            expression(index, c, at, rows)?;
            index_rows(rows, of, array)?;
            Ok(elem_base(of.base))
        }
        Expr::New {
            class,
            arguments,
            ..
        } => {
            let listed: &[Expr] = arguments;
            all(listed, c, at, rows)?;
            new_rows(rows, c, *class, count(listed))?;
            Ok(BaseType::Ref(class_or_object(c.program, class.name)))
        }
        Expr::NewArray {
            element,
            length,
            ..
        } => {
            array_rows(rows, c, element.base, &element.annotations)?;
            expression(length, c, at, rows)?;
            Ok(array_type(c.program, element.base, &element.annotations))
        }
        Expr::ArrayOf {
            element,
            elements,
            ..
        } => {
            array_rows(rows, c, element.base, &element.annotations)?;
            all(elements, c, at, rows)?;
            Ok(array_type(c.program, element.base, &element.annotations))
        }
        Expr::Postfix { target, .. } => assigned(target, c, at, rows),
        Expr::Prefix { target, .. } => {
            assigned(target, c, at, rows)?;
            Ok(BaseType::Int)
        }
        Expr::Unary {
            operator,
            operand,
            ..
        } => {
            expression(operand, c, at, rows)?;
            Ok(unary_type(*operator))
        }
        Expr::Cast { class, operand, .. } => {
            known_class(rows, c, *class)?;
            expression(operand, c, at, rows)?;
            Ok(BaseType::Ref(class_or_object(c.program, class.name)))
        }
        Expr::Binary {
            left,
            operator,
            right,
            span,
        } => {
            let one = looked(left, c, at, rows)?;
            let other = looked(right, c, at, rows)?;
            let null = either_null(left, right);
            both_rows(rows, c, *operator, null, one, other, *span)?;
            Ok(binary_type(operator_of(*operator), one.base, other.base))
        }
        Expr::InstanceOf { operand, class, .. } => {
            known_class(rows, c, *class)?;
            expression(operand, c, at, rows)?;
            Ok(BaseType::Bool)
        }
        Expr::Conditional {
            condition,
            then,
            otherwise,
            ..
        } => {
            expression(condition, c, at, rows)?;
            let one = expression(then, c, at, rows)?;
            let other = expression(otherwise, c, at, rows)?;
            Ok(wider(c, one, other))
        }
        Expr::Assign {
            target,
            operator,
            value,
            ..
        } => {
            let one = assigned(target, c, at, rows)?;
            let other = expression(value, c, at, rows)?;
            Ok(assign_type(c, *operator, is_local(c, target), one, other))
        }
    }
}

/// The rows of what is assigned, and its type.
#[cycle(looking)]
fn assigned(
    tree: &Expr,
    c: &Context,
    at: Setting,
    rows: &mut Seq<Row>,
) -> Result<BaseType, AllocError>
    ensures { IfOk result (λ base. (base ≡ type_in c.now (placed_view tree.now))
        × (rows.new ≡ rows.old ++ assigned_in c.now at (placed_view tree.now))) }
{
    match tree {
        Expr::Name { name } => {
            let meant = meaning(c, name.name);
            assigned_name_rows(rows, c, at, meant, name.span)?;
            Ok(meaning_type(c, meant))
        }
        Expr::Field { target, name, span } => {
            let found = field(target, *name, c, at, rows)?;
            found_rows(rows, c, at, found, target, *span)?;
            Ok(access_type(c, found.access))
        }
        Expr::Index { array, index, .. } => {
            let of = looked(array, c, at, rows)?;
            expression(index, c, at, rows)?;
            index_rows(rows, of, array)?;
            Ok(elem_base(of.base))
        }
        _ => {
            push(rows, Code::J4, span_of(tree))?;
            Ok(type_of(tree, c))
        }
    }
}

/// The rows of an expression, its type, and whether it has none.
#[cycle(looking)]
fn looked(tree: &Expr, c: &Context, at: Setting, rows: &mut Seq<Row>) -> Result<Looked, AllocError>
    ensures { IfOk result (λ seen. (seen.base ≡ type_in c.now (placed_view tree.now))
        × (seen.clean ≡ is_clean (rows_in c.now at (placed_view tree.now)))
        × (rows.new ≡ rows.old ++ rows_in c.now at (placed_view tree.now))) }
{
    let start = rows.len();
    let base = expression(tree, c, at, rows)?;
    Ok(Looked {
        base,
        clean: rows.len() == start,
    })
}

/// What stands before a dot: a class or System has no rows.
#[cycle(looking)]
fn before(
    target: &Expr,
    c: &Context,
    at: Setting,
    rows: &mut Seq<Row>,
) -> Result<Before, AllocError>
    ensures { IfOk result
        (λ b. IsBefore c.now at false (placed_view target.now) b rows.old rows.new) }
{
    let meaning = before_dot(c, target);
    match meaning {
        Meaning::Class(_) => Ok(unseen(meaning, false)),
        Meaning::System => Ok(unseen(meaning, false)),
        _ => {
            let seen = looked(target, c, at, rows)?;
            Ok(Before {
                prints: false,
                meaning,
                base: seen.base,
                clean: seen.clean,
            })
        }
    }
}

/// What stands before the dot of a call: `System.out` of a `println` has no rows.
#[cycle(looking)]
fn receiver(
    target: &Expr,
    name: Identifier,
    arguments: &[Expr],
    c: &Context,
    at: Setting,
    rows: &mut Seq<Row>,
) -> Result<Before, AllocError>
    ensures { IfOk result (λ b. IsBefore c.now at
        (prints_in c.now (placed_view target.now) name (spec_count (placed_views arguments.now)))
        (placed_view target.now) b rows.old rows.new) }
{
    if is_println(c, target, name.name, count(arguments)) {
        return Ok(unseen(before_dot(c, target), true));
    }
    before(target, c, at, rows)
}

/// The rows of a field after a dot, what it names, and whether there are none.
#[cycle(looking)]
fn field(
    target: &Expr,
    name: Identifier,
    c: &Context,
    at: Setting,
    rows: &mut Seq<Row>,
) -> Result<Found, AllocError>
    ensures { IfOk result (λ found. (access_of found.access
        ≡ access_in c.now (placed_view target.now) name)
        × (found.clean ≡ is_clean (accessed_rows c.now at (placed_view target.now) name))
        × (rows.new ≡ rows.old ++ accessed_rows c.now at (placed_view target.now) name)) }
{
    let start = rows.len();
    let before = before(target, c, at, rows)?;
    access_rows(rows, c, before, name)?;
    Ok(Found {
        access: access_by(c, before.meaning, before.base, name.name),
        clean: rows.len() == start,
    })
}

/// The rows of the arguments of a call with a dot.
#[cycle(looking)]
fn arguments_of(
    tree: &Expr,
    c: &Context,
    at: Setting,
    rows: &mut Seq<Row>,
) -> Result<(), AllocError>
    ensures { OnOk result (rows.new ≡ rows.old ++ argument_rows c.now at (placed_view tree.now)) }
{
    match tree {
        Expr::Call { arguments, .. } => {
            all(arguments, c, at, rows)?;
            Ok(())
        }
        _ => Ok(()),
    }
}

/// The rows of expressions one after the other.
#[cycle(looking)]
pub fn all(trees: &[Expr], c: &Context, at: Setting, rows: &mut Seq<Row>) -> Result<(), AllocError>
    ensures { OnOk result (rows.new ≡ rows.old ++ all_in c.now at (placed_views trees.now)) }
{
    for tree in trees {
        expression(tree, c, at, rows)?;
    }
    Ok(())
}
