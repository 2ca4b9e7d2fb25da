//! Trees of expressions (JLS 15).
use jn_base::{NameNo, Span};

/// An identifier, and where it stands.
#[derive(Clone, Copy, Debug, PartialEq, Eq)]
pub struct Identifier {
    pub name: NameNo,
    pub span: Span,
}

/// An annotation `@Name` (JLS 9.7). The span goes from the `@` through the name.
#[derive(Clone, Copy, Debug, PartialEq, Eq)]
pub struct Annotation {
    pub name: NameNo,
    pub span: Span,
}

/// A literal (JLS 15.8.1): a number by its value, which is at most 2,147,483,648, and a string by the number of its text.
#[derive(Clone, Copy, Debug, PartialEq, Eq)]
pub enum Literal {
    Number(u32),
    Str(NameNo),
    True,
    False,
    Null,
}

/// The sign before an operand (JLS 15.15).
#[derive(Clone, Copy, Debug, PartialEq, Eq)]
pub enum UnaryOperator {
    /// `+`
    Plus,
    /// `-`
    Minus,
    /// `!`
    Not,
}

/// A step by one, before or after a variable (JLS 15.14, 15.15).
#[derive(Clone, Copy, Debug, PartialEq, Eq)]
pub enum Step {
    /// `++`
    Increment,
    /// `--`
    Decrement,
}

/// An operator between two operands (JLS 15.17 to 15.24).
#[derive(Clone, Copy, Debug, PartialEq, Eq)]
pub enum BinaryOperator {
    /// `*`
    Multiply,
    /// `/`
    Divide,
    /// `%`
    Remainder,
    /// `+`
    Add,
    /// `-`
    Subtract,
    /// `<`
    Less,
    /// `>`
    Greater,
    /// `<=`
    LessEqual,
    /// `>=`
    GreaterEqual,
    /// `==`
    Equal,
    /// `!=`
    NotEqual,
    /// `&&`
    And,
    /// `||`
    Or,
}

/// An assignment, simple or compound (JLS 15.26).
#[derive(Clone, Copy, Debug, PartialEq, Eq)]
pub enum AssignOperator {
    /// `=`
    Assign,
    /// `+=`
    Add,
    /// `-=`
    Subtract,
    /// `*=`
    Multiply,
    /// `/=`
    Divide,
    /// `%=`
    Remainder,
}

/// A type without brackets: a class, or one of the two primitive types of the subset (JLS 4).
#[derive(Clone, Copy, Debug, PartialEq, Eq)]
pub enum Base {
    Class(Identifier),
    Int(Span),
    Boolean(Span),
}

/// The type of a new array's elements, with the annotations before it (JLS 15.10.1, 9.7.4).
#[derive(Drop)]
pub struct ElementType {
    pub annotations: Vec<Annotation>,
    pub base: Base,
}

/// An expression (JLS 15). Each span goes from the expression's first token through its last. What the two forms of a new array have
/// beside other expressions stands in a box of its own, so that an expression takes 72 bytes, whichever it is.
#[derive(Drop)]
pub enum Expr {
    /// `1`, `"a"`, `true`, `null`
    Literal {
        literal: Literal,
        span: Span,
    },
    /// `x`
    Name {
        name: Identifier,
    },
    /// `this`
    This {
        span: Span,
    },
    /// `(e)`
    Paren {
        inner: Box<Expr>,
        span: Span,
    },
    /// `e.x`
    Field {
        target: Box<Expr>,
        name: Identifier,
        span: Span,
    },
    /// `e.m(..)`
    Call {
        target: Box<Expr>,
        name: Identifier,
        arguments: Vec<Expr>,
        span: Span,
    },
    /// `m(..)`
    OwnCall {
        name: Identifier,
        arguments: Vec<Expr>,
        span: Span,
    },
    /// `super.m(..)`
    SuperCall {
        name: Identifier,
        arguments: Vec<Expr>,
        span: Span,
    },
    /// `a[i]`
    Index {
        array: Box<Expr>,
        index: Box<Expr>,
        span: Span,
    },
    /// `new C(..)`
    New {
        class: Identifier,
        arguments: Vec<Expr>,
        span: Span,
    },
    /// `new B[n]`
    NewArray {
        element: Box<ElementType>,
        length: Box<Expr>,
        span: Span,
    },
    /// `new B[] {..}`
    ArrayOf {
        element: Box<ElementType>,
        elements: Vec<Expr>,
        span: Span,
    },
    /// `x++`
    Postfix {
        target: Box<Expr>,
        step: Step,
        span: Span,
    },
    /// `++x`
    Prefix {
        step: Step,
        target: Box<Expr>,
        span: Span,
    },
    /// `-e`
    Unary {
        operator: UnaryOperator,
        operand: Box<Expr>,
        span: Span,
    },
    /// `(C) e`
    Cast {
        class: Identifier,
        operand: Box<Expr>,
        span: Span,
    },
    /// `a + b`
    Binary {
        left: Box<Expr>,
        operator: BinaryOperator,
        right: Box<Expr>,
        span: Span,
    },
    /// `e instanceof C`
    InstanceOf {
        operand: Box<Expr>,
        class: Identifier,
        span: Span,
    },
    /// `c ? a : b`
    Conditional {
        condition: Box<Expr>,
        then: Box<Expr>,
        otherwise: Box<Expr>,
        span: Span,
    },
    /// `x = e`
    Assign {
        target: Box<Expr>,
        operator: AssignOperator,
        value: Box<Expr>,
        span: Span,
    },
}
