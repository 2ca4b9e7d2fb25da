//! The operands that a point reads.
ghost use Rattle.std.specs.Prelude.{◌≡◌, ◌++◌, [], ◌∷◌, None, Some, length};
ghost use Rattle.jn_points.specs.Operands as spec;
ghost use Rattle.jn_basecheck.specs.Listed.{listed};

use jn_points::{Operand, PointKind};

/// The operands of a point, in the order in which they are evaluated (JLS 8, 15.7): up to three,
/// then those of a list.
#[derive(Clone, Copy)]
pub struct Operands<'a> {
    pub first: Option<Operand>,
    pub second: Option<Operand>,
    pub third: Option<Operand>,
    pub rest: &'a [Operand],
}

fn few<'a>(first: Option<Operand>, second: Option<Operand>, third: Option<Operand>) -> Operands<'a>
    ensures { listed result
        ≡ spec.operand_if first ++ (spec.operand_if second ++ spec.operand_if third) }
{
    Operands {
        first,
        second,
        third,
        rest: &[],
    }
}

fn one<'a>(operand: Operand) -> Operands<'a>
    ensures { listed result ≡ operand ∷ [] }
{
    few(Some(operand), None, None)
}

fn two<'a>(left: Operand, right: Operand) -> Operands<'a>
    ensures { listed result ≡ left ∷ right ∷ [] }
{
    few(Some(left), Some(right), None)
}

fn list(first: Option<Operand>, rest: &[Operand]) -> Operands
    ensures { listed result ≡ spec.operand_if first ++ rest.now }
{
    Operands {
        first,
        second: None,
        third: None,
        rest,
    }
}

/// The operands of a point.
pub fn operands_of(kind: &PointKind) -> Operands
    ensures { listed result ≡ spec.operands kind.now }
{
    match kind {
        PointKind::Move { from, .. } => one(*from),
        PointKind::Unary { of, .. } => one(*of),
        PointKind::Binary { left, right, .. } => two(*left, *right),
        PointKind::Concat { left, right, .. } => two(*left, *right),
        PointKind::SameRef { left, right, .. } => two(*left, *right),
        PointKind::FieldRead { object, .. } => one(*object),
        PointKind::FieldWrite { object, value, .. } => two(*object, *value),
        PointKind::StaticWrite { value, .. } => one(*value),
        PointKind::ElemRead { array, index, .. } => two(*array, *index),
        PointKind::ElemWrite {
            array,
            index,
            value,
        } => few(Some(*array), Some(*index), Some(*value)),
        PointKind::ArrayLen { array, .. } => one(*array),
        PointKind::NewArray { length, .. } => one(*length),
        PointKind::ArrayOf { values, .. } => list(None, values.as_slice()),
        PointKind::New { args, .. } => list(None, args.as_slice()),
        PointKind::CtorCall { args, .. } => list(None, args.as_slice()),
        PointKind::Call { receiver, args, .. } => list(*receiver, args.as_slice()),
        PointKind::StrOp { of, other, .. } => few(Some(*of), *other, None),
        PointKind::Print { of } => one(*of),
        PointKind::Cast { of, .. } => one(*of),
        PointKind::TestInst { of, .. } => one(*of),
        PointKind::TestNull { of, .. } => one(*of),
        PointKind::Branch { of, .. } => one(*of),
        PointKind::Return { value } => few(*value, None, None),
        PointKind::Const { .. } => few(None, None, None),
        PointKind::StaticRead { .. } => few(None, None, None),
        PointKind::Goto { .. } => few(None, None, None),
    }
}
