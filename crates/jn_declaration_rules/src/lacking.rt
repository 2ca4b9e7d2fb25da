//! T6 of classes by an index of the program: concrete classes with an abstract method (JLS 8.1.1.1).
ghost use Rattle.std.specs.Prelude.{◌≡◌, ◌<◌, ◌^◌, ◌++◌, ◌&&◌, length, IfSome, OnOk};
ghost use Rattle.jn_base.specs.declared.code.Code.TheVariants.{T6};
ghost use Rattle.jn_points.specs.declared.program.Class.{Class as ClassOf};
ghost use Rattle.jn_points.specs.Members as members;
ghost use Rattle.jn_points.specs.Lookup.{method_at};
ghost use Rattle.jn_member_tables.specs.Numbers.{places_of, passes};
ghost use Rattle.jn_index.specs.Index.{owners};
ghost use Rattle.jn_declaration_rules.specs.Rows as spec;

use crate::overrides::lacking_rows;
use crate::rows::push_if;
use jn_base::{ClassNo, Code, Row, Seq};
use jn_index::indexed::{Indexed, IndexedProgram};
use jn_index::lookup::method_of;
use jn_points::lookup::method_at;
use jn_points::{Class, Method};
use std::alloc::AllocError;

/// Whether the class has the method, which is abstract.
fn has_abstract(program: &Indexed, class: ClassNo, m: usize, method: &Method) -> bool
    ensures { result
        ≡ (method.now.is_abstract
        && members.is_number
        (members.method_of program.now class.0 method.now.name.0 (length method.now.params))
        m) }
{
    if !method.is_abstract {
        return false;
    }
    match method_of(program, class, method.name, method.params.len()) {
        None => false,
        Some(found) => found.0 as usize == m,
    }
}

fn is_lacking(program: &Indexed, class: ClassNo, k: u32) -> bool
    ensures { result
        ≡ passes
        (λ y. y.is_abstract
        && members.is_number
        (members.method_of program.now class.0 y.name.0 (length y.params)) k)
        (method_at program.now k) }
{
    match method_at(program.program(), k as usize) {
        None => false,
        Some(method) => has_abstract(program, class, k as usize, method),
    }
}

fn some_lacking(program: &Indexed, class: ClassNo, own: &[u32]) -> bool
    ensures { result
        ≡ members.some_of
        (λ k. passes
        (λ y. y.is_abstract
        && members.is_number
        (members.method_of program.now class.0 y.name.0 (length y.params)) k)
        (method_at program.now k))
        own.now }
{
    for k in own {
        if is_lacking(program, class, *k) {
            return true;
        }
    }
    false
}

fn some_lacking_along(program: &Indexed, class: ClassNo, walk: &[u32]) -> bool
    ensures { result
        ≡ members.some_of
        (λ d. members.some_of
        (λ k. passes
        (λ y. y.is_abstract
        && members.is_number
        (members.method_of program.now class.0 y.name.0 (length y.params)) k)
        (method_at program.now k))
        (places_of d 0 (owners program.now.methods)))
        walk.now }
{
    for owner in walk {
        if some_lacking(program, class, program.own(*owner)) {
            return true;
        }
    }
    false
}

/// Looks among the methods of the classes along the class's walk, where all that it has stand.
fn has_some_abstract(program: &Indexed, class: ClassNo) -> bool
    requires inside { class.0 < length program.now.classes }
    ensures { result
        ≡ spec.some_at
        (λ m y. y.is_abstract
        && members.is_number
        (members.method_of program.now class.0 y.name.0 (length y.params)) m)
        0 program.now.methods }
{
    some_lacking_along(program, class, program.index().walk(class.0))
}

fn lacks_body(program: &Indexed, place: usize, class: &Class) -> bool
    requires inside { place < length program.now.classes }
    ensures { result ≡ spec.lacks_body program.now place class.now }
{
    program.facts();
    !class.interface && !class.is_abstract && has_some_abstract(program, ClassNo(place as u32))
}

fn found_rows(program: &Indexed, rows: &mut Seq<Row>) -> Result<(), AllocError>
    ensures { OnOk result (rows.new
        ≡ rows.old
        ++ spec.rows_at T6 (λ (x : ClassOf). x.span) (spec.lacks_body program.now) 0
        program.now.classes) }
{
    let classes = program.program().classes.as_slice();
    for (place, class) in classes.iter().enumerate() {
        let lacks = lacks_body(program, place, class);
        push_if(rows, lacks, Code::T6, class.span)?;
    }
    Ok(())
}

/// T6: concrete classes with an abstract method.
pub fn abstract_class_rows(program: &IndexedProgram, rows: &mut Seq<Row>) -> Result<(), AllocError>
    ensures { OnOk result (rows.new
        ≡ rows.old
        ++ spec.rows_at T6 (λ (x : ClassOf). x.span) (spec.lacks_body program.now) 0
        program.now.classes) }
{
    match program.indexed() {
        None => lacking_rows(program, rows),
        Some(indexed) => found_rows(&indexed, rows),
    }
}
