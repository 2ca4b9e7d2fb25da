//! Names that are declared.
ghost use Rattle.std.specs.Prelude.{◌≡◌, map};
ghost use Rattle.jn_lsp_hover.specs.Declarations as spec;

use crate::sought::has_byte;
use jn_annotate::members::next_methods;
use jn_annotate::parts::items_behind;
use jn_base::{SlotNo, Span, least};
use jn_heads::{ClassHead, MethodHead, ParamHead};
use jn_points::{Field, Method, Program};

/// A name that declares a field, a method or a parameter, and the slot of its type, or of what the method gives.
#[derive(Clone, Copy, Debug, PartialEq, Eq)]
pub struct Declared {
    pub span: Span,
    pub slot: Option<SlotNo>,
}

fn declared_field(field: &Field) -> Declared
    ensures { result ≡ spec.declared_field field.now }
{
    Declared {
        span: field.span,
        slot: field.slot,
    }
}

fn declared_result(method: &Method) -> Declared
    ensures { result ≡ spec.declared_result method.now }
{
    Declared {
        span: method.span,
        slot: method.result_slot,
    }
}

fn declared_param(param: &ParamHead, slot: Option<SlotNo>) -> Declared
    ensures { result ≡ spec.declared_param param.now slot }
{
    Declared {
        span: param.name.span,
        slot,
    }
}

/// The field whose name has the byte of the file.
fn in_fields(file: usize, offset: usize, fields: &[Field]) -> Option<Declared>
    ensures { result ≡ spec.declared_at file offset (map spec.declared_field fields.now) }
{
    for field in fields {
        let one = declared_field(field);
        if has_byte(file, offset, one.span) {
            return Some(one);
        }
    }
    None
}

/// The parameter whose name has the byte of the file.
fn in_params(
    file: usize,
    offset: usize,
    params: &[ParamHead],
    slots: &[Option<SlotNo>],
) -> Option<Declared>
    ensures { result ≡ spec.declared_at file offset (spec.declared_params params.now slots.now) }
{
    for at in 0..least(params.len(), slots.len()) {
        let one = declared_param(&params[at], slots[at]);
        if has_byte(file, offset, one.span) {
            return Some(one);
        }
    }
    None
}

/// The method, or its parameter, whose name has the byte of the file.
fn in_method(file: usize, offset: usize, head: &MethodHead, method: &Method) -> Option<Declared>
    ensures { result ≡ spec.declared_at file offset (spec.declared_method head.now method.now) }
{
    let one = declared_result(method);
    if has_byte(file, offset, one.span) {
        Some(one)
    } else {
        in_params(
            file,
            offset,
            head.params.as_slice(),
            method.param_slots.as_slice(),
        )
    }
}

/// The same of methods, each with what the files say of it.
fn in_methods(
    file: usize,
    offset: usize,
    heads: &[MethodHead],
    methods: &[Method],
) -> Option<Declared>
    ensures { result ≡ spec.declared_at file offset (spec.declared_methods heads.now methods.now) }
{
    for at in 0..least(heads.len(), methods.len()) {
        let found = in_method(file, offset, &heads[at], &methods[at]);
        if found.is_some() {
            return found;
        }
    }
    None
}

/// The same of the methods of all classes.
fn in_classes(
    file: usize,
    offset: usize,
    heads: &[ClassHead],
    methods: &[Method],
) -> Option<Declared>
    ensures { result
        ≡ spec.declared_at file offset
        (spec.declared_methods (spec.methods_of heads.now) methods.now) }
{
    let mut rest = methods;
    for head in heads {
        let found = in_methods(file, offset, head.methods.as_slice(), rest);
        if found.is_some() {
            return found;
        }
        rest = items_behind(rest, head.methods.len());
    }
    None
}

/// The declaration whose name has the byte of the file, among those of a program whose classes are these.
#[tactic(auto, using(crate::proofs::Declaring::found_first, crate::proofs::Declaring::found_later))]
pub fn declared_at(
    file: usize,
    offset: usize,
    heads: &[ClassHead],
    program: &Program,
) -> Option<Declared>
    ensures { result ≡ spec.declared_at file offset (spec.declared_in heads.now program.now) }
{
    match in_fields(file, offset, program.fields.as_slice()) {
        Some(found) => Some(found),
        None => in_classes(
            file,
            offset,
            heads,
            next_methods(program.methods.as_slice()),
        ),
    }
}
