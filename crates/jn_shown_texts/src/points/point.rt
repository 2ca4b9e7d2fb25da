//! A point part by part.
use crate::points::line::{Line, Part};
use jn_points::{Operator, PointKind, StrOperation};

fn operator_word(operator: Operator) -> &'static str {
    match operator {
        Operator::Add => "Add",
        Operator::Sub => "Sub",
        Operator::Mul => "Mul",
        Operator::Div => "Div",
        Operator::Rem => "Rem",
        Operator::Less => "Less",
        Operator::LessEqual => "LessEqual",
        Operator::Greater => "Greater",
        Operator::GreaterEqual => "GreaterEqual",
        Operator::Equal => "Equal",
        Operator::NotEqual => "NotEqual",
    }
}

fn operation_word(operation: StrOperation) -> &'static str {
    match operation {
        StrOperation::Length => "length",
        StrOperation::IsEmpty => "isEmpty",
        StrOperation::Equals => "equals",
    }
}

fn word_of(flag: bool, yes: &'static str, no: &'static str) -> Part {
    Part::Word(if flag { yes } else { no })
}

/// What calculates with values, or moves one.
fn put_calculation(line: &mut Line, kind: &PointKind) {
    match kind {
        PointKind::Const { dst, value } => line.put(&[
            Part::Word("Const"),
            Part::To(*dst),
            Part::Constant(*value),
        ]),
        PointKind::Move { dst, from, bound } => {
            line.put(&[Part::Word("Move"), Part::To(*dst), Part::Value(*from)]);
            line.bound(*bound)
        }
        PointKind::Unary { dst, negate, of } => line.put(&[
            Part::Word("Unary"),
            Part::To(*dst),
            word_of(*negate, "minus", "plus"),
            Part::Value(*of),
        ]),
        PointKind::Binary {
            dst,
            operator,
            left,
            right,
        } => line.put(&[
            Part::Word("Binary"),
            Part::To(*dst),
            Part::Word(operator_word(*operator)),
            Part::Value(*left),
            Part::Value(*right),
        ]),
        PointKind::Concat { dst, left, right } => line.put(&[
            Part::Word("Concat"),
            Part::To(*dst),
            Part::Value(*left),
            Part::Value(*right),
        ]),
        PointKind::SameRef {
            dst,
            equal,
            left,
            right,
        } => line.put(&[
            Part::Word("SameRef"),
            Part::To(*dst),
            word_of(*equal, "equal", "other"),
            Part::Value(*left),
            Part::Value(*right),
        ]),
        PointKind::Cast { dst, of, class } => line.put(&[
            Part::Word("Cast"),
            Part::To(*dst),
            Part::Value(*of),
            Part::Class(*class),
        ]),
        _ => {}
    }
}

/// What reads and writes fields.
fn put_field(line: &mut Line, kind: &PointKind) {
    match kind {
        PointKind::FieldRead { dst, object, field } => line.put(&[
            Part::Word("FieldRead"),
            Part::To(*dst),
            Part::Value(*object),
            Part::Field(*field),
        ]),
        PointKind::FieldWrite {
            object,
            field,
            value,
        } => line.put(&[
            Part::Word("FieldWrite"),
            Part::Value(*object),
            Part::Field(*field),
            Part::Value(*value),
        ]),
        PointKind::StaticRead { dst, field } => line.put(&[
            Part::Word("StaticRead"),
            Part::To(*dst),
            Part::Field(*field),
        ]),
        PointKind::StaticWrite { field, value } => line.put(&[
            Part::Word("StaticWrite"),
            Part::Field(*field),
            Part::Value(*value),
        ]),
        _ => put_calculation(line, kind),
    }
}

/// What makes arrays, and reads and writes elements.
fn put_array(line: &mut Line, kind: &PointKind) {
    match kind {
        PointKind::ElemRead { dst, array, index } => line.put(&[
            Part::Word("ElemRead"),
            Part::To(*dst),
            Part::Value(*array),
            Part::Value(*index),
        ]),
        PointKind::ElemWrite {
            array,
            index,
            value,
        } => line.put(&[
            Part::Word("ElemWrite"),
            Part::Value(*array),
            Part::Value(*index),
            Part::Value(*value),
        ]),
        PointKind::ArrayLen { dst, array } => line.put(&[
            Part::Word("ArrayLen"),
            Part::To(*dst),
            Part::Value(*array),
        ]),
        PointKind::NewArray { dst, base, length } => line.put(&[
            Part::Word("NewArray"),
            Part::To(*dst),
            Part::Base(*base),
            Part::Value(*length),
        ]),
        PointKind::ArrayOf { dst, base, values } => {
            line.put(&[Part::Word("ArrayOf"), Part::To(*dst), Part::Base(*base)]);
            line.values(values.as_slice())
        }
        _ => put_field(line, kind),
    }
}

/// What calls and prints.
fn put_call(line: &mut Line, kind: &PointKind) {
    match kind {
        PointKind::New { dst, ctor, args } => {
            line.put(&[Part::Word("New"), Part::To(*dst), Part::Method(*ctor)]);
            line.values(args.as_slice())
        }
        PointKind::CtorCall { ctor, args, own } => {
            line.put(&[
                Part::Word("CtorCall"),
                word_of(*own, "this", "super"),
                Part::Method(*ctor),
            ]);
            line.values(args.as_slice())
        }
        PointKind::Call {
            dst,
            method,
            receiver,
            direct,
            args,
        } => {
            line.put(&[Part::Word("Call")]);
            line.to(*dst);
            line.put(&[
                word_of(*direct, "direct", "selected"),
                Part::Method(*method),
            ]);
            line.value(*receiver);
            line.values(args.as_slice())
        }
        PointKind::StrOp { dst, op, of, other } => {
            line.put(&[
                Part::Word("StrOp"),
                Part::To(*dst),
                Part::Word(operation_word(*op)),
                Part::Value(*of),
            ]);
            line.value(*other)
        }
        PointKind::Print { of } => line.put(&[Part::Word("Print"), Part::Value(*of)]),
        _ => put_array(line, kind),
    }
}

/// The kind's name, and what it has.
pub fn put_kind(line: &mut Line, kind: &PointKind) {
    match kind {
        PointKind::TestInst {
            of,
            class,
            origin,
            yes,
            no,
        } => {
            line.put(&[
                Part::Word("TestInst"),
                Part::Value(*of),
                Part::Class(*class),
            ]);
            line.origin(*origin);
            line.put(&[Part::Target(*yes), Part::Target(*no)])
        }
        PointKind::TestNull {
            of,
            origin,
            null,
            non_null,
        } => {
            line.put(&[Part::Word("TestNull"), Part::Value(*of)]);
            line.origin(*origin);
            line.put(&[Part::Target(*null), Part::Target(*non_null)])
        }
        PointKind::Branch { of, yes, no } => line.put(&[
            Part::Word("Branch"),
            Part::Value(*of),
            Part::Target(*yes),
            Part::Target(*no),
        ]),
        PointKind::Goto { to } => line.put(&[Part::Word("Goto"), Part::Target(*to)]),
        PointKind::Return { value } => {
            line.put(&[Part::Word("Return")]);
            line.value(*value)
        }
        _ => put_call(line, kind),
    }
}
