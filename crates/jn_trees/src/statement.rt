//! Trees of statements (JLS 14). What a statement holds beside other statements stands in boxes of its own, so that a statement
//! takes 48 bytes, whichever it is: a file can have a statement for each of its bytes.
use crate::declaration::Parameter;
use crate::expression::{Annotation, Base, Expr, Identifier};
use jn_base::Span;

/// What may stand before the type of a local or of a parameter.
#[derive(Clone, Copy, Debug, PartialEq, Eq)]
pub enum LocalModifier {
    Annotation(Annotation),
    Final(Span),
}

/// A use of a type: its base, and for an array the annotations that stand before the brackets (JLS 9.7.4, 10.1).
#[derive(Drop)]
pub struct TypeUse {
    pub base: Base,
    pub array: Option<Vec<Annotation>>,
    pub span: Span,
}

/// A name that is declared, with its initializer if it has one (JLS 8.3, 14.4).
#[derive(Drop)]
pub struct Declarator {
    pub name: Identifier,
    pub value: Option<Box<Expr>>,
}

/// A declaration of locals, without the semicolon (JLS 14.4).
#[derive(Drop)]
pub struct LocalDeclaration {
    pub modifiers: Vec<LocalModifier>,
    pub type_use: TypeUse,
    pub first: Declarator,
    pub more: Vec<Declarator>,
}

/// What a `for` begins with (JLS 14.14.1); no expressions where it begins with nothing.
#[derive(Drop)]
pub enum ForInit {
    Expressions(Vec<Expr>),
    Declaration(Box<LocalDeclaration>),
}

/// What stands in the parentheses of a basic `for` (JLS 14.14.1): what it begins with, its condition, if it has one, and its
/// updates.
#[derive(Drop)]
pub struct ForHead {
    pub init: ForInit,
    pub condition: Option<Box<Expr>>,
    pub update: Vec<Expr>,
}

/// A statement (JLS 14). Each span goes from the statement's first token through its last.
#[derive(Drop)]
pub enum Stmt {
    /// `{ .. }`
    Block {
        statements: Vec<Stmt>,
        span: Span,
    },
    /// `;`
    Empty {
        span: Span,
    },
    /// `e;`
    Expression {
        expression: Box<Expr>,
        span: Span,
    },
    /// `break;`
    Break {
        span: Span,
    },
    /// `continue;`
    Continue {
        span: Span,
    },
    /// `return e;`
    Return {
        value: Option<Box<Expr>>,
        span: Span,
    },
    /// `T x = e;`
    Local {
        declaration: Box<LocalDeclaration>,
        span: Span,
    },
    /// `if (c) s`
    If {
        condition: Box<Expr>,
        then: Box<Stmt>,
        span: Span,
    },
    /// `if (c) s else s`
    IfElse {
        condition: Box<Expr>,
        then: Box<Stmt>,
        otherwise: Box<Stmt>,
        span: Span,
    },
    /// `while (c) s`
    While {
        condition: Box<Expr>,
        body: Box<Stmt>,
        span: Span,
    },
    /// `do s while (c);`
    Do {
        body: Box<Stmt>,
        condition: Box<Expr>,
        span: Span,
    },
    /// `for (i; c; u) s`
    For {
        head: Box<ForHead>,
        body: Box<Stmt>,
        span: Span,
    },
    /// `for (T x : a) s`
    ForEach {
        variable: Box<Parameter>,
        array: Box<Expr>,
        body: Box<Stmt>,
        span: Span,
    },
    /// `this(..);`
    ThisCall {
        arguments: Vec<Expr>,
        span: Span,
    },
    /// `super(..);`
    SuperCall {
        arguments: Vec<Expr>,
        span: Span,
    },
}
