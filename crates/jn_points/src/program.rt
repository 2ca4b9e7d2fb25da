//! A program as lists.
use crate::point::{BaseType, Point};
use jn_base::{BodyNo, ClassNo, MethodNo, NameNo, Seq, SlotNo, Span};
use jn_quals::Qual;

#[derive(Drop)]
pub struct Class {
    pub name: NameNo,
    pub span: Span,
    pub interface: bool,
    pub is_abstract: bool,
    pub is_final: bool,
    pub parent: Option<ClassNo>,
    pub supers: Seq<ClassNo>,
}

#[derive(Drop)]
pub struct Field {
    pub name: NameNo,
    pub span: Span,
    pub owner: ClassNo,
    pub base: BaseType,
    pub is_static: bool,
    pub is_final: bool,
    pub is_private: bool,
    /// May start null, and takes no null: facts on it survive calls.
    pub is_monotonic: bool,
    pub first: i32,
    pub slot: Option<SlotNo>,
}

#[derive(Drop)]
pub struct Method {
    pub name: NameNo,
    pub span: Span,
    pub owner: ClassNo,
    pub params: Seq<BaseType>,
    /// Where the name of each parameter stands.
    pub param_spans: Seq<Span>,
    pub result: BaseType,
    pub ctor: bool,
    pub is_static: bool,
    pub is_private: bool,
    pub is_abstract: bool,
    pub is_final: bool,
    pub is_main: bool,
    pub body: Option<BodyNo>,
    pub receiver: Option<SlotNo>,
    pub param_slots: Seq<Option<SlotNo>>,
    pub result_slot: Option<SlotNo>,
}

#[derive(Drop)]
pub struct Body {
    pub method: MethodNo,
    pub regs: Seq<BaseType>,
    pub locals: u32,
    pub points: Seq<Point>,
}

#[derive(Drop)]
pub struct SlotInfo {
    pub start: Qual,
    pub inferred: bool,
}

#[derive(Drop)]
pub struct Program {
    pub classes: Seq<Class>,
    pub fields: Seq<Field>,
    pub methods: Seq<Method>,
    pub bodies: Seq<Body>,
    pub slots: Seq<SlotInfo>,
}
