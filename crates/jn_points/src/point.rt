//! The points of a body.
use jn_base::{ClassNo, FieldNo, MethodNo, NameNo, PointNo, RegNo, Seq, Span};
use jn_quals::Qual;

#[derive(Clone, Copy, Debug, PartialEq, Eq)]
pub struct Operand {
    pub reg: RegNo,
    pub span: Span,
}

#[derive(Clone, Copy, Debug, PartialEq, Eq)]
pub enum Elem {
    Int,
    Bool,
    Ref(ClassNo),
}

#[derive(Clone, Copy, Debug, PartialEq, Eq)]
pub enum BaseType {
    Int,
    Bool,
    Void,
    Null,
    Ref(ClassNo),
    Array(Elem, bool),
}

#[derive(Clone, Copy, Debug, PartialEq, Eq)]
pub enum Literal {
    Int(i32),
    Truth(bool),
    Str(NameNo),
    Null,
}

#[derive(Clone, Copy, Debug, PartialEq, Eq)]
pub enum Operator {
    Add,
    Sub,
    Mul,
    Div,
    Rem,
    Less,
    LessEqual,
    Greater,
    GreaterEqual,
    Equal,
    NotEqual,
}

#[derive(Clone, Copy, Debug, PartialEq, Eq)]
pub enum StrOperation {
    Length,
    IsEmpty,
    Equals,
}

#[derive(Clone, Copy, Debug, PartialEq, Eq)]
pub struct Origin {
    pub reg: RegNo,
    pub field: FieldNo,
}

#[derive(Drop)]
pub enum PointKind {
    Const {
        dst: RegNo,
        value: Literal,
    },
    Move {
        dst: RegNo,
        from: Operand,
        bound: Option<Qual>,
    },
    Unary {
        dst: RegNo,
        negate: bool,
        of: Operand,
    },
    Binary {
        dst: RegNo,
        operator: Operator,
        left: Operand,
        right: Operand,
    },
    Concat {
        dst: RegNo,
        left: Operand,
        right: Operand,
    },
    SameRef {
        dst: RegNo,
        equal: bool,
        left: Operand,
        right: Operand,
    },
    FieldRead {
        dst: RegNo,
        object: Operand,
        field: FieldNo,
    },
    FieldWrite {
        object: Operand,
        field: FieldNo,
        value: Operand,
    },
    StaticRead {
        dst: RegNo,
        field: FieldNo,
    },
    StaticWrite {
        field: FieldNo,
        value: Operand,
    },
    ElemRead {
        dst: RegNo,
        array: Operand,
        index: Operand,
    },
    ElemWrite {
        array: Operand,
        index: Operand,
        value: Operand,
    },
    ArrayLen {
        dst: RegNo,
        array: Operand,
    },
    NewArray {
        dst: RegNo,
        base: BaseType,
        length: Operand,
    },
    ArrayOf {
        dst: RegNo,
        base: BaseType,
        values: Seq<Operand>,
    },
    New {
        dst: RegNo,
        ctor: MethodNo,
        args: Seq<Operand>,
    },
    CtorCall {
        ctor: MethodNo,
        args: Seq<Operand>,
        own: bool,
    },
    Call {
        dst: Option<RegNo>,
        method: MethodNo,
        receiver: Option<Operand>,
        direct: bool,
        args: Seq<Operand>,
    },
    StrOp {
        dst: RegNo,
        op: StrOperation,
        of: Operand,
        other: Option<Operand>,
    },
    Print {
        of: Operand,
    },
    Cast {
        dst: RegNo,
        of: Operand,
        class: ClassNo,
    },
    TestInst {
        of: Operand,
        class: ClassNo,
        origin: Option<Origin>,
        yes: PointNo,
        no: PointNo,
    },
    TestNull {
        of: Operand,
        origin: Option<Origin>,
        null: PointNo,
        non_null: PointNo,
    },
    Branch {
        of: Operand,
        yes: PointNo,
        no: PointNo,
    },
    Goto {
        to: PointNo,
    },
    Return {
        value: Option<Operand>,
    },
}

#[derive(Drop)]
pub struct Point {
    pub kind: PointKind,
    pub span: Span,
}
