//! Where an expression stands, and what its names mean there.
use crate::variables::Variables;
use jn_base::{ClassNo, FieldNo, MethodNo, NameNo, RegNo, Row};
use jn_index::indexed::IndexedProgram;
use jn_points::{BaseType, StrOperation};
use std::alloc::Global;

/// The qualifier that is written at a local: whether it may be null, committed, free.
#[derive(Clone, Copy)]
pub struct Bound {
    pub null: bool,
    pub committed: bool,
    pub free: bool,
}

/// Rows of a declared type, as places in the list of all such rows of the body: from the first one to the one after the last.
#[derive(Clone, Copy)]
pub struct Faults {
    pub from: usize,
    pub to: usize,
}

/// A parameter or local in scope: its name, register and type, the qualifier that is written at it, whether it is final, and
/// the rows of its declared type.
#[derive(Clone, Copy)]
pub struct Variable {
    pub name: NameNo,
    pub reg: RegNo,
    pub base: BaseType,
    pub bound: Option<Bound>,
    pub fixed: bool,
    pub faults: Faults,
}

/// Where an expression stands: the program, the locals in scope with the last declared one last, the rows of their declared
/// types, the class, and the register of the first temporary.
#[derive(Clone, Copy)]
pub struct Context<'a> {
    pub program: &'a IndexedProgram,
    pub scope: &'a Variables,
    pub faults: &'a [Row],
    pub class: ClassNo,
    pub first: u32,
    pub alloc: Global,
}

/// What an identifier means (JLS 6.5): a local, a field of the class, a class, the class System, or nothing.
#[derive(Clone, Copy)]
pub enum Meaning {
    Local(Variable),
    Field(FieldNo),
    Class(ClassNo),
    System,
    Nothing,
}

/// What a field access names (JLS 15.11): a field by its class, a field of an object, the length of an array, or nothing.
#[derive(Clone, Copy)]
pub enum Access {
    Class(FieldNo),
    Object(FieldNo),
    Length,
    Nothing,
}

/// What a call with a dot names (JLS 15.12): `System.out.println`, a String's method, a method by its class, a method of an
/// object, or nothing.
#[derive(Clone, Copy)]
pub enum Callee {
    Println,
    Text(StrOperation),
    Class(MethodNo),
    Object(MethodNo),
    Nothing,
}
