//! Values that are made alike.
ghost use Rattle.std.specs.Prelude.{◌≡◌, ◌++◌, ◌∷◌, [], IfOk, OnOk, None, Some, flat_map};
ghost use Rattle.std.specs.List.{list_all};
ghost use Rattle.jn_points.specs.Operands.{operand_if};
ghost use Rattle.jn_unkept.specs.Alike as spec;
ghost use Rattle.jn_unkept.specs.Making.{point_of};

use crate::making::{is_local, maker, point_of};
use jn_base::least;
use jn_base::lists::put;
use jn_points::members::same_flag;
use jn_points::{Body, Literal, Operand, Operator, Point, PointKind};
use std::alloc::{AllocError, Global};

/// What a register has before a point.
#[derive(Clone, Copy, Debug, PartialEq, Eq)]
pub struct Held {
    pub point: u32,
    pub reg: u32,
}

/// Two values.
#[derive(Clone, Copy, Debug, PartialEq, Eq)]
pub struct Pair {
    pub left: Held,
    pub right: Held,
}

fn operator_no(operator: Operator) -> u32
    ensures { result ≡ spec.operator_no operator }
{
    match operator {
        Operator::Add => 0,
        Operator::Sub => 1,
        Operator::Mul => 2,
        Operator::Div => 3,
        Operator::Rem => 4,
        Operator::Less => 5,
        Operator::LessEqual => 6,
        Operator::Greater => 7,
        Operator::GreaterEqual => 8,
        Operator::Equal => 9,
        Operator::NotEqual => 10,
    }
}

fn same_literal(left: Literal, right: Literal) -> bool
    ensures { result ≡ spec.same_literal left right }
{
    match (left, right) {
        (Literal::Int(left), Literal::Int(right)) => left == right,
        (Literal::Truth(left), Literal::Truth(right)) => same_flag(left, right),
        (Literal::Str(left), Literal::Str(right)) => left.0 == right.0,
        (Literal::Null, Literal::Null) => true,
        _ => false,
    }
}

/// Whether a receiver is there in both or in neither.
fn both_or_none(left: Option<Operand>, right: Option<Operand>) -> bool
    ensures { result ≡ spec.both_or_none left right }
{
    left.is_some() == right.is_some()
}

/// Whether points do the same with what they read, where they are of a form that is compared.
fn same_form(left: &PointKind, right: &PointKind) -> bool
    ensures { result ≡ spec.same_form left.now right.now }
{
    match (left, right) {
        (PointKind::Const { value, .. }, PointKind::Const { value: other, .. }) => {
            same_literal(*value, *other)
        }
        (PointKind::Move { .. }, PointKind::Move { .. }) => true,
        (
            PointKind::Binary { operator, .. },
            PointKind::Binary {
                operator: other,
                ..
            },
        ) => { operator_no(*operator) == operator_no(*other) }
        (PointKind::FieldRead { field, .. }, PointKind::FieldRead { field: other, .. }) => {
            field.0 == other.0
        }
        (PointKind::StaticRead { field, .. }, PointKind::StaticRead { field: other, .. }) => {
            field.0 == other.0
        }
        (PointKind::ElemRead { .. }, PointKind::ElemRead { .. }) => true,
        (PointKind::ArrayLen { .. }, PointKind::ArrayLen { .. }) => true,
        (
            PointKind::Call {
                method,
                receiver,
                args,
                ..
            },
            PointKind::Call {
                method: other,
                receiver: of,
                args: with,
                ..
            },
        ) => method.0 == other.0 && (both_or_none(*receiver, *of) && args.len() == with.len()),
        _ => false,
    }
}

fn one(alloc: Global, operand: Operand) -> Result<Vec<Operand>, AllocError>
    ensures { IfOk result (λ list. list.items ≡ operand ∷ []) }
{
    let mut list = Vec::new(alloc);
    put(&mut list, operand)?;
    Ok(list)
}

fn two(alloc: Global, left: Operand, right: Operand) -> Result<Vec<Operand>, AllocError>
    ensures { IfOk result (λ list. list.items ≡ left ∷ right ∷ []) }
{
    let mut list = one(alloc, left)?;
    put(&mut list, right)?;
    Ok(list)
}

fn call_operands(
    alloc: Global,
    receiver: Option<Operand>,
    args: &[Operand],
) -> Result<Vec<Operand>, AllocError>
    ensures { IfOk result (λ list. list.items ≡ operand_if receiver ++ args.now) }
{
    let mut list = Vec::new(alloc);
    match receiver {
        None => {}
        Some(receiver) => put(&mut list, receiver)?,
    }
    list.extend_from_slice(args)?;
    Ok(list)
}

/// From what a point makes its value, where it is of a form that is compared.
fn made_of(alloc: Global, kind: &PointKind) -> Result<Vec<Operand>, AllocError>
    ensures { IfOk result (λ list. list.items ≡ spec.made_of kind.now) }
{
    match kind {
        PointKind::Move { from, .. } => one(alloc, *from),
        PointKind::Binary { left, right, .. } => two(alloc, *left, *right),
        PointKind::FieldRead { object, .. } => one(alloc, *object),
        PointKind::ElemRead { array, index, .. } => two(alloc, *array, *index),
        PointKind::ArrayLen { array, .. } => one(alloc, *array),
        PointKind::Call { receiver, args, .. } => call_operands(alloc, *receiver, args.as_slice()),
        _ => Ok(Vec::new(alloc)),
    }
}

fn pair_of(i: u32, left: Operand, j: u32, right: Operand) -> Pair
    ensures { result ≡ spec.pair_of i left j right }
{
    Pair {
        left: Held {
            point: i,
            reg: left.reg.0,
        },
        right: Held {
            point: j,
            reg: right.reg.0,
        },
    }
}

/// Puts the operands of two points after the pairs, one by one.
fn put_pairs(
    pairs: &mut Vec<Pair>,
    i: u32,
    lefts: &[Operand],
    j: u32,
    rights: &[Operand],
) -> Result<(), AllocError>
    ensures { OnOk result
        (pairs.new.items ≡ pairs.old.items ++ spec.paired i lefts.now j rights.now) }
{
    for at in 0..least(lefts.len(), rights.len()) {
        put(pairs, pair_of(i, lefts[at], j, rights[at]))?;
    }
    Ok(())
}

fn put_points(
    pairs: &mut Vec<Pair>,
    alloc: Global,
    i: u32,
    left: &Point,
    j: u32,
    right: &Point,
) -> Result<(), AllocError>
    ensures { OnOk result (pairs.new.items
        ≡ pairs.old.items ++ spec.points_from i (Some left.now) j (Some right.now)) }
{
    let lefts = made_of(alloc, &left.kind)?;
    let rights = made_of(alloc, &right.kind)?;
    put_pairs(pairs, i, &lefts, j, &rights)
}

fn put_numbers(
    pairs: &mut Vec<Pair>,
    alloc: Global,
    body: &Body,
    i: u32,
    j: u32,
) -> Result<(), AllocError>
    ensures { OnOk result (pairs.new.items
        ≡ pairs.old.items ++ spec.numbers_from body.now (Some i) (Some j)) }
{
    match (point_of(body, i as usize), point_of(body, j as usize)) {
        (Some(left), Some(right)) => put_points(pairs, alloc, i, left, j, right),
        _ => Ok(()),
    }
}

fn origin(body: &Body, value: Held) -> Option<u32>
    ensures { result ≡ spec.origin body.now value }
{
    maker(body, value.point, value.reg)
}

/// Whether one of the two is a local, a parameter or `this`.
fn is_named(body: &Body, pair: Pair) -> bool
    ensures { result ≡ spec.is_named body.now pair }
{
    is_local(body, pair.left.reg) || is_local(body, pair.right.reg)
}

/// Puts what two values are made from after the pairs.
fn put_made(pairs: &mut Vec<Pair>, alloc: Global, body: &Body, pair: Pair) -> Result<(), AllocError>
    ensures { OnOk result
        (pairs.new.items ≡ pairs.old.items ++ spec.made_from body.now pair) }
{
    if is_named(body, pair) {
        return Ok(());
    }
    match (origin(body, pair.left), origin(body, pair.right)) {
        (Some(i), Some(j)) => put_numbers(pairs, alloc, body, i, j),
        _ => Ok(()),
    }
}

/// What the pairs are made from.
fn all_made(alloc: Global, body: &Body, pairs: &[Pair]) -> Result<Vec<Pair>, AllocError>
    ensures { IfOk result
        (λ list. list.items ≡ flat_map (spec.made_from body.now) pairs.now) }
{
    let mut list = Vec::new(alloc);
    for pair in pairs {
        put_made(&mut list, alloc, body, *pair)?;
    }
    Ok(list)
}

/// Whether two points are there and of the same form.
fn are_same(body: &Body, i: u32, j: u32) -> bool
    ensures { result ≡ spec.made_same body.now (Some i) (Some j) }
{
    match (point_of(body, i as usize), point_of(body, j as usize)) {
        (Some(left), Some(right)) => same_form(&left.kind, &right.kind),
        _ => false,
    }
}

fn made_same(body: &Body, left: Option<u32>, right: Option<u32>) -> bool
    ensures { result ≡ spec.made_same body.now left right }
{
    match (left, right) {
        (Some(i), Some(j)) => are_same(body, i, j),
        _ => false,
    }
}

fn is_like(body: &Body, pair: Pair) -> bool
    ensures { result ≡ spec.is_like body.now pair }
{
    if is_named(body, pair) {
        pair.left.reg == pair.right.reg
    } else {
        made_same(body, origin(body, pair.left), origin(body, pair.right))
    }
}

fn are_like(body: &Body, pairs: &[Pair]) -> bool
    ensures { result ≡ list_all (spec.is_like body.now) pairs.now }
{
    for pair in pairs {
        if !is_like(body, *pair) {
            return false;
        }
    }
    true
}

/// Whether two values are made alike: round by round what they are made from is compared, down to locals, parameters, `this` and literals.
///
/// # Errors
/// No memory was found.
pub(crate) fn alike(alloc: Global, body: &Body, left: Held, right: Held) -> Result<bool, AllocError>
    ensures { IfOk result (λ r. r ≡ spec.alike body.now left right) }
{
    let mut pairs = Vec::new(alloc);
    put(&mut pairs, Pair { left, right })?;
    for _round in 0..body.points.len() {
        if pairs.len() == 0 {
            return Ok(true);
        }
        if !are_like(body, &pairs) {
            return Ok(false);
        }
        pairs = all_made(alloc, body, &pairs)?;
    }
    if pairs.len() == 0 {
        Ok(true)
    } else {
        Ok(false)
    }
}
