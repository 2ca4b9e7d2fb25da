//! A body as text.
use crate::points::known::{write_base, write_method};
use crate::points::line::{Line, Part};
use crate::points::page::Page;
use crate::points::parts::write_parts;
use crate::points::places::write_span;
use crate::points::point::put_kind;
use jn_base::OutOfMemory;
use jn_points::{BaseType, Body, Point, PointKind, Program};
use jn_trees::Names;
use std::alloc::Global;

/// What stands before the type of the register of this number.
fn before_register(number: u32, locals: u32) -> &'static str {
    if number == locals {
        " | "
    } else if number == 0 {
        " "
    } else {
        ", "
    }
}

/// The types of registers, with `|` after those of locals.
fn write_registers(
    page: &mut Page,
    names: &Names,
    program: &Program,
    registers: &[BaseType],
    locals: u32,
) {
    let mut number: u32 = 0;
    page.push(":");
    for base in registers {
        page.push(before_register(number, locals));
        write_base(page, names, program, *base);
        number = number.saturating_add(1);
    }
}

fn parts_of(alloc: Global, kind: &PointKind) -> Result<Vec<Part>, OutOfMemory> {
    let mut line = Line::new(alloc);
    put_kind(&mut line, kind);
    line.finish()
}

/// The point's kind and what it has.
fn write_kind(page: &mut Page, names: &Names, program: &Program, text: &[u8], kind: &PointKind) {
    match parts_of(page.alloc(), kind) {
        Ok(parts) => write_parts(page, names, program, text, &parts),
        Err(_) => page.fail(),
    }
}

fn write_points(page: &mut Page, names: &Names, program: &Program, text: &[u8], points: &[Point]) {
    let mut number: u32 = 0;
    for point in points {
        page.push("\n  ");
        page.number(number);
        write_kind(page, names, program, text, &point.kind);
        page.push(" @ ");
        write_span(page, text, point.span);
        number = number.saturating_add(1);
    }
}

fn write_body(page: &mut Page, names: &Names, program: &Program, text: &[u8], body: &Body) {
    page.push("\n");
    write_method(page, names, program, body.method);
    write_registers(page, names, program, body.regs.as_slice(), body.locals);
    write_points(page, names, program, text, body.points.as_slice())
}

/// All bodies of the program, each on lines of its own.
pub fn program_text(
    alloc: Global,
    names: &Names,
    program: &Program,
    text: &[u8],
) -> Result<String, OutOfMemory> {
    let mut page = Page::new(alloc);
    for body in program.bodies.as_slice() {
        write_body(&mut page, names, program, text, body);
    }
    page.finish()
}
