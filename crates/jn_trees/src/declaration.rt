//! Trees of members, types and files (JLS 7 to 9).
use crate::expression::{Annotation, Identifier};
use crate::statement::{Declarator, LocalModifier, Stmt, TypeUse};
use jn_base::Span;

/// What may stand before a type or a member (JLS 8.1.1, 8.3.1, 8.4.3).
#[derive(Clone, Copy, Debug, PartialEq, Eq)]
pub enum Modifier {
    Annotation(Annotation),
    Public(Span),
    Protected(Span),
    Private(Span),
    Static(Span),
    Final(Span),
    Abstract(Span),
}

/// What modifiers may stand before (JLS 8.1.1, 8.3.1, 8.4.3, 8.8.3, 9.1.1, 9.4).
#[derive(Clone, Copy, Debug, PartialEq, Eq)]
pub enum Bearer {
    Class,
    Interface,
    Field,
    Method,
    InterfaceMethod,
    Constructor,
}

/// A parameter (JLS 8.4.1), or the variable of an enhanced `for` (JLS 14.14.2).
#[derive(Drop)]
pub struct Parameter {
    pub modifiers: Vec<LocalModifier>,
    pub type_use: TypeUse,
    pub name: Identifier,
}

/// A receiver `@A C this` (JLS 8.4.1).
#[derive(Drop)]
pub struct Receiver {
    pub annotations: Vec<Annotation>,
    pub class: Identifier,
}

/// What a method gives.
#[derive(Drop)]
pub enum ResultUse {
    Void(Span),
    Value(TypeUse),
}

/// A member of a class or interface (JLS 8.2). Each span goes from the member's first token through its last.
#[derive(Drop)]
pub enum Member {
    Field {
        modifiers: Vec<Modifier>,
        type_use: TypeUse,
        first: Declarator,
        more: Vec<Declarator>,
        span: Span,
    },
    Method {
        modifiers: Vec<Modifier>,
        result: ResultUse,
        name: Identifier,
        receiver: Option<Receiver>,
        parameters: Vec<Parameter>,
        body: Option<Vec<Stmt>>,
        span: Span,
    },
    Constructor {
        modifiers: Vec<Modifier>,
        name: Identifier,
        parameters: Vec<Parameter>,
        body: Vec<Stmt>,
        span: Span,
    },
}

/// A class or an interface (JLS 8.1, 9.1).
#[derive(Drop)]
pub enum TypeTree {
    Class {
        modifiers: Vec<Modifier>,
        name: Identifier,
        parent: Option<Identifier>,
        interfaces: Vec<Identifier>,
        members: Vec<Member>,
        span: Span,
    },
    Interface {
        modifiers: Vec<Modifier>,
        name: Identifier,
        parents: Vec<Identifier>,
        members: Vec<Member>,
        span: Span,
    },
}

/// A name with dots (JLS 6.2).
#[derive(Drop)]
pub struct QualifiedName {
    pub first: Identifier,
    pub more: Vec<Identifier>,
}

/// A package line (JLS 7.4).
#[derive(Drop)]
pub struct PackageLine {
    pub name: QualifiedName,
    pub span: Span,
}

/// An import (JLS 7.5), of all that a package or type has where `all` holds.
#[derive(Drop)]
pub struct Import {
    pub name: QualifiedName,
    pub all: bool,
    pub span: Span,
}

/// A file (JLS 7.3).
#[derive(Drop)]
pub struct FileTree {
    pub package: Option<PackageLine>,
    pub imports: Vec<Import>,
    pub types: Vec<TypeTree>,
}
