//! Points of bodies made by hand. A place is a number: line times 100 plus column, where its program stands in a file.
use jn_base::{ClassNo, Code, FieldNo, FileNo, MethodNo, NameNo, RegNo, Row, Seq, Span};
use jn_points::{BaseType, Literal, Operand, Operator, Point, PointKind, StrOperation};

pub fn span(from: u32) -> Span {
    Span {
        file: FileNo(0),
        from,
        to: from,
    }
}

pub fn row(code: Code, from: u32) -> Row {
    Row {
        span: span(from),
        code,
    }
}

pub fn at(reg: u32, from: u32) -> Operand {
    Operand {
        reg: RegNo(reg),
        span: span(from),
    }
}

fn point(kind: PointKind) -> Point {
    Point {
        kind,
        span: span(0),
    }
}

fn literal(dst: u32, value: Literal) -> Point {
    point(PointKind::Const {
        dst: RegNo(dst),
        value,
    })
}

pub fn int(dst: u32, number: i32) -> Point {
    literal(dst, Literal::Int(number))
}

pub fn text(dst: u32) -> Point {
    literal(dst, Literal::Str(NameNo(0)))
}

pub fn null(dst: u32) -> Point {
    literal(dst, Literal::Null)
}

pub fn binary(dst: u32, operator: Operator, left: Operand, right: Operand) -> Point {
    point(PointKind::Binary {
        dst: RegNo(dst),
        operator,
        left,
        right,
    })
}

/// `left + right` of texts.
pub fn concat(dst: u32, left: Operand, right: Operand) -> Point {
    point(PointKind::Concat {
        dst: RegNo(dst),
        left,
        right,
    })
}

/// `dst = (C) of`
pub fn cast(dst: u32, of: Operand, class: ClassNo) -> Point {
    point(PointKind::Cast {
        dst: RegNo(dst),
        of,
        class,
    })
}

/// `left == right` of references.
pub fn same(dst: u32, left: Operand, right: Operand) -> Point {
    point(PointKind::SameRef {
        dst: RegNo(dst),
        equal: true,
        left,
        right,
    })
}

/// `dst = object.field`
pub fn read(dst: u32, object: Operand, field: FieldNo) -> Point {
    point(PointKind::FieldRead {
        dst: RegNo(dst),
        object,
        field,
    })
}

/// `object.field = value`
pub fn write(object: Operand, field: FieldNo, value: Operand) -> Point {
    point(PointKind::FieldWrite {
        object,
        field,
        value,
    })
}

/// `dst = array[index]`
pub fn element(dst: u32, array: Operand, index: Operand) -> Point {
    point(PointKind::ElemRead {
        dst: RegNo(dst),
        array,
        index,
    })
}

/// `array[index] = value`
pub fn put(array: Operand, index: Operand, value: Operand) -> Point {
    point(PointKind::ElemWrite {
        array,
        index,
        value,
    })
}

/// `dst = array.length`
pub fn count(dst: u32, array: Operand) -> Point {
    point(PointKind::ArrayLen {
        dst: RegNo(dst),
        array,
    })
}

/// `dst = new B[length]`, which stands at a place.
pub fn new_array(dst: u32, base: BaseType, length: Operand, from: u32) -> Point {
    Point {
        kind: PointKind::NewArray {
            dst: RegNo(dst),
            base,
            length,
        },
        span: span(from),
    }
}

/// `dst = new C(args)`
pub fn create(dst: u32, ctor: MethodNo, args: Seq<Operand>) -> Point {
    point(PointKind::New {
        dst: RegNo(dst),
        ctor,
        args,
    })
}

/// `super(args)`, or `this(args)` where it is an own one.
pub fn construct(ctor: MethodNo, args: Seq<Operand>, own: bool) -> Point {
    point(PointKind::CtorCall { ctor, args, own })
}

/// `dst = receiver.method(args)`, direct where the method is private or static.
pub fn call(
    dst: Option<RegNo>,
    method: MethodNo,
    receiver: Option<Operand>,
    direct: bool,
    args: Seq<Operand>,
) -> Point {
    point(PointKind::Call {
        dst,
        method,
        receiver,
        direct,
        args,
    })
}

/// `dst = of.length()`
pub fn length(dst: u32, of: Operand) -> Point {
    point(PointKind::StrOp {
        dst: RegNo(dst),
        op: StrOperation::Length,
        of,
        other: None,
    })
}

pub fn print(of: Operand) -> Point {
    point(PointKind::Print { of })
}

/// `return value;`
pub fn give(value: Operand) -> Point {
    point(PointKind::Return { value: Some(value) })
}

/// `return;`, and the end of a body.
pub fn end() -> Point {
    point(PointKind::Return { value: None })
}
