//! Points that do the same.
ghost use Rattle.std.specs.Prelude.{◌≡◌, ◌↔◌, true, false};
ghost use Rattle.jn_recheck_law.specs.Alike.{acting_kind, bare_kind};
ghost use Rattle.jn_reuse.specs.Seen.{seen_kind};

use crate::operands::{same_operand, same_operands, same_optional};
use jn_base::{ClassNo, FieldNo, MethodNo, PointNo, RegNo, Seq};
use jn_points::{BaseType, Literal, Operand, Operator, Origin, PointKind, StrOperation};
use jn_quals::Qual;

fn same_move(
    placed: bool,
    dst: RegNo,
    from: &Operand,
    bound: Option<Qual>,
    kind: &PointKind,
) -> bool
    ensures { (result ≡ true) ↔ (seen_kind placed (PointKind.Move dst from.now bound) ≡ seen_kind placed kind.now) }
{
    match kind {
        PointKind::Move {
            dst: dst_2,
            from: from_2,
            bound: bound_2,
        } => dst == *dst_2 && same_operand(placed, from, from_2) && bound == *bound_2,
        _ => false,
    }
}

fn same_unary(placed: bool, dst: RegNo, negate: bool, of: &Operand, kind: &PointKind) -> bool
    ensures { (result ≡ true) ↔ (seen_kind placed (PointKind.Unary dst negate of.now) ≡ seen_kind placed kind.now) }
{
    match kind {
        PointKind::Unary {
            dst: dst_2,
            negate: negate_2,
            of: of_2,
        } => dst == *dst_2 && negate == *negate_2 && same_operand(placed, of, of_2),
        _ => false,
    }
}

fn same_binary(
    placed: bool,
    dst: RegNo,
    operator: Operator,
    left: &Operand,
    right: &Operand,
    kind: &PointKind,
) -> bool
    ensures { (result ≡ true) ↔ (seen_kind placed (PointKind.Binary dst operator left.now right.now) ≡ seen_kind placed kind.now) }
{
    match kind {
        PointKind::Binary {
            dst: dst_2,
            operator: operator_2,
            left: left_2,
            right: right_2,
        } => dst == *dst_2
            && operator == *operator_2
            && same_operand(placed, left, left_2)
            && same_operand(placed, right, right_2),
        _ => false,
    }
}

fn same_concat(placed: bool, dst: RegNo, left: &Operand, right: &Operand, kind: &PointKind) -> bool
    ensures { (result ≡ true) ↔ (seen_kind placed (PointKind.Concat dst left.now right.now) ≡ seen_kind placed kind.now) }
{
    match kind {
        PointKind::Concat {
            dst: dst_2,
            left: left_2,
            right: right_2,
        } => dst == *dst_2
            && same_operand(placed, left, left_2)
            && same_operand(placed, right, right_2),
        _ => false,
    }
}

fn same_same_ref(
    placed: bool,
    dst: RegNo,
    equal: bool,
    left: &Operand,
    right: &Operand,
    kind: &PointKind,
) -> bool
    ensures { (result ≡ true) ↔ (seen_kind placed (PointKind.SameRef dst equal left.now right.now) ≡ seen_kind placed kind.now) }
{
    match kind {
        PointKind::SameRef {
            dst: dst_2,
            equal: equal_2,
            left: left_2,
            right: right_2,
        } => dst == *dst_2
            && equal == *equal_2
            && same_operand(placed, left, left_2)
            && same_operand(placed, right, right_2),
        _ => false,
    }
}

fn same_field_read(
    placed: bool,
    dst: RegNo,
    object: &Operand,
    field: FieldNo,
    kind: &PointKind,
) -> bool
    ensures { (result ≡ true) ↔ (seen_kind placed (PointKind.FieldRead dst object.now field) ≡ seen_kind placed kind.now) }
{
    match kind {
        PointKind::FieldRead {
            dst: dst_2,
            object: object_2,
            field: field_2,
        } => dst == *dst_2 && same_operand(placed, object, object_2) && field == *field_2,
        _ => false,
    }
}

fn same_field_write(
    placed: bool,
    object: &Operand,
    field: FieldNo,
    value: &Operand,
    kind: &PointKind,
) -> bool
    ensures { (result ≡ true) ↔ (seen_kind placed (PointKind.FieldWrite object.now field value.now) ≡ seen_kind placed kind.now) }
{
    match kind {
        PointKind::FieldWrite {
            object: object_2,
            field: field_2,
            value: value_2,
        } => same_operand(placed, object, object_2)
            && field == *field_2
            && same_operand(placed, value, value_2),
        _ => false,
    }
}

fn same_static_read(placed: bool, dst: RegNo, field: FieldNo, kind: &PointKind) -> bool
    ensures { (result ≡ true) ↔ (seen_kind placed (PointKind.StaticRead dst field) ≡ seen_kind placed kind.now) }
{
    match kind {
        PointKind::StaticRead {
            dst: dst_2,
            field: field_2,
        } => dst == *dst_2 && field == *field_2,
        _ => false,
    }
}

fn same_static_write(placed: bool, field: FieldNo, value: &Operand, kind: &PointKind) -> bool
    ensures { (result ≡ true) ↔ (seen_kind placed (PointKind.StaticWrite field value.now) ≡ seen_kind placed kind.now) }
{
    match kind {
        PointKind::StaticWrite {
            field: field_2,
            value: value_2,
        } => field == *field_2 && same_operand(placed, value, value_2),
        _ => false,
    }
}

fn same_elem_read(
    placed: bool,
    dst: RegNo,
    array: &Operand,
    index: &Operand,
    kind: &PointKind,
) -> bool
    ensures { (result ≡ true) ↔ (seen_kind placed (PointKind.ElemRead dst array.now index.now) ≡ seen_kind placed kind.now) }
{
    match kind {
        PointKind::ElemRead {
            dst: dst_2,
            array: array_2,
            index: index_2,
        } => dst == *dst_2
            && same_operand(placed, array, array_2)
            && same_operand(placed, index, index_2),
        _ => false,
    }
}

fn same_elem_write(
    placed: bool,
    array: &Operand,
    index: &Operand,
    value: &Operand,
    kind: &PointKind,
) -> bool
    ensures { (result ≡ true) ↔ (seen_kind placed (PointKind.ElemWrite array.now index.now value.now) ≡ seen_kind placed kind.now) }
{
    match kind {
        PointKind::ElemWrite {
            array: array_2,
            index: index_2,
            value: value_2,
        } => same_operand(placed, array, array_2)
            && same_operand(placed, index, index_2)
            && same_operand(placed, value, value_2),
        _ => false,
    }
}

fn same_array_len(placed: bool, dst: RegNo, array: &Operand, kind: &PointKind) -> bool
    ensures { (result ≡ true) ↔ (seen_kind placed (PointKind.ArrayLen dst array.now) ≡ seen_kind placed kind.now) }
{
    match kind {
        PointKind::ArrayLen {
            dst: dst_2,
            array: array_2,
        } => dst == *dst_2 && same_operand(placed, array, array_2),
        _ => false,
    }
}

fn same_new_array(
    placed: bool,
    dst: RegNo,
    base: BaseType,
    length: &Operand,
    kind: &PointKind,
) -> bool
    ensures { (result ≡ true) ↔ (seen_kind placed (PointKind.NewArray dst base length.now) ≡ seen_kind placed kind.now) }
{
    match kind {
        PointKind::NewArray {
            dst: dst_2,
            base: base_2,
            length: length_2,
        } => dst == *dst_2 && base == *base_2 && same_operand(placed, length, length_2),
        _ => false,
    }
}

fn same_array_of(
    placed: bool,
    dst: RegNo,
    base: BaseType,
    values: &Seq<Operand>,
    kind: &PointKind,
) -> bool
    ensures { (result ≡ true) ↔ (seen_kind placed (PointKind.ArrayOf dst base values.now) ≡ seen_kind placed kind.now) }
{
    match kind {
        PointKind::ArrayOf {
            dst: dst_2,
            base: base_2,
            values: values_2,
        } => dst == *dst_2
            && base == *base_2
            && same_operands(placed, values.as_slice(), values_2.as_slice()),
        _ => false,
    }
}

fn same_new(placed: bool, dst: RegNo, ctor: MethodNo, args: &Seq<Operand>, kind: &PointKind) -> bool
    ensures { (result ≡ true) ↔ (seen_kind placed (PointKind.New dst ctor args.now) ≡ seen_kind placed kind.now) }
{
    match kind {
        PointKind::New {
            dst: dst_2,
            ctor: ctor_2,
            args: args_2,
        } => dst == *dst_2
            && ctor == *ctor_2
            && same_operands(placed, args.as_slice(), args_2.as_slice()),
        _ => false,
    }
}

fn same_ctor_call(
    placed: bool,
    ctor: MethodNo,
    args: &Seq<Operand>,
    own: bool,
    kind: &PointKind,
) -> bool
    ensures { (result ≡ true) ↔ (seen_kind placed (PointKind.CtorCall ctor args.now own) ≡ seen_kind placed kind.now) }
{
    match kind {
        PointKind::CtorCall {
            ctor: ctor_2,
            args: args_2,
            own: own_2,
        } => ctor == *ctor_2
            && same_operands(placed, args.as_slice(), args_2.as_slice())
            && own == *own_2,
        _ => false,
    }
}

fn same_call(
    placed: bool,
    dst: Option<RegNo>,
    method: MethodNo,
    receiver: Option<Operand>,
    direct: bool,
    args: &Seq<Operand>,
    kind: &PointKind,
) -> bool
    ensures { (result ≡ true) ↔ (seen_kind placed (PointKind.Call dst method receiver direct args.now) ≡ seen_kind placed kind.now) }
{
    match kind {
        PointKind::Call {
            dst: dst_2,
            method: method_2,
            receiver: receiver_2,
            direct: direct_2,
            args: args_2,
        } => dst == *dst_2
            && method == *method_2
            && same_optional(placed, receiver, *receiver_2)
            && direct == *direct_2
            && same_operands(placed, args.as_slice(), args_2.as_slice()),
        _ => false,
    }
}

fn same_str_op(
    placed: bool,
    dst: RegNo,
    op: StrOperation,
    of: &Operand,
    other: Option<Operand>,
    kind: &PointKind,
) -> bool
    ensures { (result ≡ true) ↔ (seen_kind placed (PointKind.StrOp dst op of.now other) ≡ seen_kind placed kind.now) }
{
    match kind {
        PointKind::StrOp {
            dst: dst_2,
            op: op_2,
            of: of_2,
            other: other_2,
        } => dst == *dst_2
            && op == *op_2
            && same_operand(placed, of, of_2)
            && same_optional(placed, other, *other_2),
        _ => false,
    }
}

fn same_print(placed: bool, of: &Operand, kind: &PointKind) -> bool
    ensures { (result ≡ true) ↔ (seen_kind placed (PointKind.Print of.now) ≡ seen_kind placed kind.now) }
{
    match kind {
        PointKind::Print { of: of_2 } => same_operand(placed, of, of_2),
        _ => false,
    }
}

fn same_cast(placed: bool, dst: RegNo, of: &Operand, class: ClassNo, kind: &PointKind) -> bool
    ensures { (result ≡ true) ↔ (seen_kind placed (PointKind.Cast dst of.now class) ≡ seen_kind placed kind.now) }
{
    match kind {
        PointKind::Cast {
            dst: dst_2,
            of: of_2,
            class: class_2,
        } => dst == *dst_2 && same_operand(placed, of, of_2) && class == *class_2,
        _ => false,
    }
}

fn same_test_inst(
    placed: bool,
    of: &Operand,
    class: ClassNo,
    origin: Option<Origin>,
    yes: PointNo,
    no: PointNo,
    kind: &PointKind,
) -> bool
    ensures { (result ≡ true) ↔ (seen_kind placed (PointKind.TestInst of.now class origin yes no) ≡ seen_kind placed kind.now) }
{
    match kind {
        PointKind::TestInst {
            of: of_2,
            class: class_2,
            origin: origin_2,
            yes: yes_2,
            no: no_2,
        } => same_operand(placed, of, of_2)
            && class == *class_2
            && origin == *origin_2
            && yes == *yes_2
            && no == *no_2,
        _ => false,
    }
}

fn same_test_null(
    placed: bool,
    of: &Operand,
    origin: Option<Origin>,
    null: PointNo,
    non_null: PointNo,
    kind: &PointKind,
) -> bool
    ensures { (result ≡ true) ↔ (seen_kind placed (PointKind.TestNull of.now origin null non_null) ≡ seen_kind placed kind.now) }
{
    match kind {
        PointKind::TestNull {
            of: of_2,
            origin: origin_2,
            null: null_2,
            non_null: non_null_2,
        } => same_operand(placed, of, of_2)
            && origin == *origin_2
            && null == *null_2
            && non_null == *non_null_2,
        _ => false,
    }
}

fn same_branch(placed: bool, of: &Operand, yes: PointNo, no: PointNo, kind: &PointKind) -> bool
    ensures { (result ≡ true) ↔ (seen_kind placed (PointKind.Branch of.now yes no) ≡ seen_kind placed kind.now) }
{
    match kind {
        PointKind::Branch {
            of: of_2,
            yes: yes_2,
            no: no_2,
        } => same_operand(placed, of, of_2) && yes == *yes_2 && no == *no_2,
        _ => false,
    }
}

fn same_goto(placed: bool, to: PointNo, kind: &PointKind) -> bool
    ensures { (result ≡ true) ↔ (seen_kind placed (PointKind.Goto to) ≡ seen_kind placed kind.now) }
{
    match kind {
        PointKind::Goto { to: to_2 } => to == *to_2,
        _ => false,
    }
}

fn same_return(placed: bool, value: Option<Operand>, kind: &PointKind) -> bool
    ensures { (result ≡ true) ↔ (seen_kind placed (PointKind.Return value) ≡ seen_kind placed kind.now) }
{
    match kind {
        PointKind::Return { value: value_2 } => same_optional(placed, value, *value_2),
        _ => false,
    }
}

/// Whether literals are equal but for the number of a string.
fn same_literal(dst: RegNo, value: Literal, dst_2: RegNo, value_2: Literal) -> bool
    ensures { (result ≡ true) ↔ (bare_kind (PointKind.Const dst value) ≡ bare_kind (PointKind.Const dst_2 value_2)) }
{
    match value {
        Literal::Int(one) => match value_2 {
            Literal::Int(other) => dst == dst_2 && one == other,
            Literal::Truth(_) => false,
            Literal::Str(_) => false,
            Literal::Null => false,
        },
        Literal::Truth(one) => match value_2 {
            Literal::Int(_) => false,
            Literal::Truth(other) => dst == dst_2 && one == other,
            Literal::Str(_) => false,
            Literal::Null => false,
        },
        Literal::Str(_) => match value_2 {
            Literal::Int(_) => false,
            Literal::Truth(_) => false,
            Literal::Str(_) => dst == dst_2,
            Literal::Null => false,
        },
        Literal::Null => match value_2 {
            Literal::Int(_) => false,
            Literal::Truth(_) => false,
            Literal::Str(_) => false,
            Literal::Null => dst == dst_2,
        },
    }
}

#[tactic(auto, using(crate::proofs::PointsAlike::const_apart))]
fn same_const(placed: bool, dst: RegNo, value: Literal, kind: &PointKind) -> bool
    ensures { (result ≡ true) ↔ (bare_kind (PointKind.Const dst value) ≡ bare_kind (seen_kind placed kind.now)) }
{
    match kind {
        PointKind::Const {
            dst: dst_2,
            value: value_2,
        } => { same_literal(dst, value, *dst_2, *value_2) }
        _ => false,
    }
}

/// Whether points do the same, but for the numbers of strings, and for the places of operands where these aren't compared.
#[tactic(auto, using(crate::proofs::PointsAlike::plain_alike))]
fn is_seen_same(placed: bool, one: &PointKind, other: &PointKind) -> bool
    ensures { (result ≡ true) ↔ (bare_kind (seen_kind placed one.now) ≡ bare_kind (seen_kind placed other.now)) }
{
    match one {
        PointKind::Const { dst, value } => same_const(placed, *dst, *value, other),
        PointKind::Move { dst, from, bound } => same_move(placed, *dst, from, *bound, other),
        PointKind::Unary { dst, negate, of } => same_unary(placed, *dst, *negate, of, other),
        PointKind::Binary {
            dst,
            operator,
            left,
            right,
        } => same_binary(placed, *dst, *operator, left, right, other),
        PointKind::Concat { dst, left, right } => same_concat(placed, *dst, left, right, other),
        PointKind::SameRef {
            dst,
            equal,
            left,
            right,
        } => same_same_ref(placed, *dst, *equal, left, right, other),
        PointKind::FieldRead { dst, object, field } => same_field_read(
            placed, *dst, object, *field, other,
        ),
        PointKind::FieldWrite {
            object,
            field,
            value,
        } => same_field_write(placed, object, *field, value, other),
        PointKind::StaticRead { dst, field } => same_static_read(placed, *dst, *field, other),
        PointKind::StaticWrite { field, value } => same_static_write(placed, *field, value, other),
        PointKind::ElemRead { dst, array, index } => same_elem_read(
            placed, *dst, array, index, other,
        ),
        PointKind::ElemWrite {
            array,
            index,
            value,
        } => same_elem_write(placed, array, index, value, other),
        PointKind::ArrayLen { dst, array } => same_array_len(placed, *dst, array, other),
        PointKind::NewArray { dst, base, length } => same_new_array(
            placed, *dst, *base, length, other,
        ),
        PointKind::ArrayOf { dst, base, values } => same_array_of(
            placed, *dst, *base, values, other,
        ),
        PointKind::New { dst, ctor, args } => same_new(placed, *dst, *ctor, args, other),
        PointKind::CtorCall { ctor, args, own } => same_ctor_call(placed, *ctor, args, *own, other),
        PointKind::Call {
            dst,
            method,
            receiver,
            direct,
            args,
        } => same_call(placed, *dst, *method, *receiver, *direct, args, other),
        PointKind::StrOp {
            dst,
            op,
            of,
            other: with,
        } => same_str_op(placed, *dst, *op, of, *with, other),
        PointKind::Print { of } => same_print(placed, of, other),
        PointKind::Cast { dst, of, class } => same_cast(placed, *dst, of, *class, other),
        PointKind::TestInst {
            of,
            class,
            origin,
            yes,
            no,
        } => same_test_inst(placed, of, *class, *origin, *yes, *no, other),
        PointKind::TestNull {
            of,
            origin,
            null,
            non_null,
        } => same_test_null(placed, of, *origin, *null, *non_null, other),
        PointKind::Branch { of, yes, no } => same_branch(placed, of, *yes, *no, other),
        PointKind::Goto { to } => same_goto(placed, *to, other),
        PointKind::Return { value } => same_return(placed, *value, other),
    }
}

/// Whether points do the same, but for the numbers of strings.
pub(crate) fn same_kind(one: &PointKind, other: &PointKind) -> bool
    ensures { (result ≡ true) ↔ (bare_kind one.now ≡ bare_kind other.now) }
{
    is_seen_same(true, one, other)
}

/// Whether points do the same, but for the numbers of strings and the places of operands.
#[tactic(auto, using(crate::proofs::Placing::unplaced_same))]
pub(crate) fn acts_the_same(one: &PointKind, other: &PointKind) -> bool
    ensures { (result ≡ true) ↔ (acting_kind one.now ≡ acting_kind other.now) }
{
    is_seen_same(false, one, other)
}
