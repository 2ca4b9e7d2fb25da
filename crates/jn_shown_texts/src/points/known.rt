//! What numbers stand for: names of classes, fields and methods, and types.
use crate::points::page::Page;
use jn_base::{ClassNo, FieldNo, MethodNo, NameNo};
use jn_points::{BaseType, Class, Elem, Field, Method, Program};
use jn_trees::Names;

/// The most that is counted here.
pub const LIMIT: usize = 1000000;

pub fn write_name(page: &mut Page, names: &Names, name: NameNo) {
    if (name.0 as usize) < names.len() {
        page.push(names.text(name));
    }
}

/// The name of a class, or Object's.
fn class_name(classes: &[Class], class: ClassNo) -> NameNo {
    match classes.get(class.0 as usize) {
        Some(class) => class.name,
        None => NameNo(0),
    }
}

fn field_name(fields: &[Field], field: FieldNo) -> NameNo {
    match fields.get(field.0 as usize) {
        Some(field) => field.name,
        None => NameNo(0),
    }
}

/// What is shown of a method: its class, its name, and how many parameters it has.
#[derive(Clone, Copy)]
struct Head {
    owner: ClassNo,
    name: NameNo,
    arity: u32,
}

fn head_of(methods: &[Method], method: MethodNo) -> Head {
    match methods.get(method.0 as usize) {
        Some(method) => Head {
            owner: method.owner,
            name: method.name,
            arity: method.params.len().min(LIMIT) as u32,
        },
        None => Head {
            owner: ClassNo(0),
            name: NameNo(0),
            arity: 0,
        },
    }
}

pub fn write_class(page: &mut Page, names: &Names, program: &Program, class: ClassNo) {
    write_name(page, names, class_name(program.classes.as_slice(), class))
}

pub fn write_field(page: &mut Page, names: &Names, program: &Program, field: FieldNo) {
    write_name(page, names, field_name(program.fields.as_slice(), field))
}

/// Its class, its name and how many parameters it has, as in `A.f/2`.
pub fn write_method(page: &mut Page, names: &Names, program: &Program, method: MethodNo) {
    let head = head_of(program.methods.as_slice(), method);
    write_class(page, names, program, head.owner);
    page.push(".");
    write_name(page, names, head.name);
    page.push("/");
    page.number(head.arity)
}

fn write_element(page: &mut Page, names: &Names, program: &Program, element: Elem) {
    match element {
        Elem::Int => page.push("int"),
        Elem::Bool => page.push("boolean"),
        Elem::Ref(class) => write_class(page, names, program, class),
    }
}

fn nullness_word(nullable: bool) -> &'static str {
    if nullable { "@Nullable " } else { "" }
}

/// A type as it is written in Java.
pub fn write_base(page: &mut Page, names: &Names, program: &Program, base: BaseType) {
    match base {
        BaseType::Int => page.push("int"),
        BaseType::Bool => page.push("boolean"),
        BaseType::Void => page.push("void"),
        BaseType::Null => page.push("null"),
        BaseType::Ref(class) => write_class(page, names, program, class),
        BaseType::Array(element, nullable) => {
            page.push(nullness_word(nullable));
            write_element(page, names, program, element);
            page.push("[]")
        }
    }
}
