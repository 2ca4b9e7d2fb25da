//! The parts of a point as text.
use crate::points::known::{write_base, write_class, write_field, write_method, write_name};
use crate::points::line::Part;
use crate::points::page::Page;
use crate::points::places::write_span;
use jn_base::RegNo;
use jn_points::{Literal, Operand, Program};
use jn_trees::Names;

fn write_register(page: &mut Page, register: RegNo) {
    page.push("r");
    page.number(register.0)
}

fn write_value(page: &mut Page, text: &[u8], value: Operand) {
    write_register(page, value.reg);
    page.push("@");
    write_span(page, text, value.span)
}

fn truth_word(value: bool) -> &'static str {
    if value { "true" } else { "false" }
}

fn write_constant(page: &mut Page, names: &Names, value: Literal) {
    match value {
        Literal::Int(value) => page.integer(value),
        Literal::Truth(value) => page.push(truth_word(value)),
        Literal::Null => page.push("null"),
        Literal::Str(name) => {
            page.push("\"");
            write_name(page, names, name);
            page.push("\"")
        }
    }
}

/// A part that names something of the program.
fn write_named(page: &mut Page, names: &Names, program: &Program, part: Part) {
    match part {
        Part::Constant(value) => write_constant(page, names, value),
        Part::Field(field) => write_field(page, names, program, field),
        Part::Method(method) => write_method(page, names, program, method),
        Part::Class(class) => write_class(page, names, program, class),
        Part::Base(base) => write_base(page, names, program, base),
        Part::Origin(origin) => {
            write_register(page, origin.reg);
            page.push(".");
            write_field(page, names, program, origin.field)
        }
        _ => {}
    }
}

fn write_part(page: &mut Page, names: &Names, program: &Program, text: &[u8], part: Part) {
    match part {
        Part::Word(word) => page.push(word),
        Part::To(register) => write_register(page, register),
        Part::Value(value) => write_value(page, text, value),
        Part::Target(point) => {
            page.push("->");
            page.number(point.0)
        }
        _ => write_named(page, names, program, part),
    }
}

/// The parts, each with a blank before it.
pub fn write_parts(page: &mut Page, names: &Names, program: &Program, text: &[u8], parts: &[Part]) {
    for part in parts {
        page.push(" ");
        write_part(page, names, program, text, *part);
    }
}
