//! T5 to T7 without an index: overriding, abstract methods of concrete classes, hidden fields.
ghost use Rattle.std.specs.Prelude.{◌≡◌, ◌<◌, ◌^◌, ◌++◌, ◌&&◌, ◌||◌, not, length, Some, OnOk};
ghost use Rattle.jn_base.specs.declared.code.Code.TheVariants.{T5, T6, T7};
ghost use Rattle.jn_points.specs.declared.program.Class.{Class as ClassOf};
ghost use Rattle.jn_points.specs.declared.program.Field.{Field as FieldOf};
ghost use Rattle.jn_points.specs.declared.program.Method.{Method as MethodOf};
ghost use Rattle.jn_points.specs.Lookup.{method_at};
ghost use Rattle.jn_points.specs.Members as members;
ghost use Rattle.jn_declaration_rules.specs.Rows as spec;

use crate::rows::push_if;
use jn_base::{ClassNo, Code, MethodNo, Row, Seq};
use jn_index::indexed::IndexedProgram;
use jn_points::members::{is_named, same_flag};
use jn_points::{
    BaseType, Class, Elem, Field, Method, Program, is_pair, is_sub, is_subclass, method_of,
};
use std::alloc::AllocError;

fn same_elem(left: Elem, right: Elem) -> bool
    ensures { result ≡ spec.same_elem left right }
{
    match (left, right) {
        (Elem::Int, Elem::Int) => true,
        (Elem::Bool, Elem::Bool) => true,
        (Elem::Ref(left), Elem::Ref(right)) => left.0 == right.0,
        _ => false,
    }
}

fn same_base(left: BaseType, right: BaseType) -> bool
    ensures { result ≡ spec.same_base left right }
{
    match (left, right) {
        (BaseType::Int, BaseType::Int) => true,
        (BaseType::Bool, BaseType::Bool) => true,
        (BaseType::Void, BaseType::Void) => true,
        (BaseType::Null, BaseType::Null) => true,
        (BaseType::Ref(left), BaseType::Ref(right)) => left.0 == right.0,
        (BaseType::Array(left, m), BaseType::Array(right, n)) => {
            same_elem(left, right) && same_flag(m, n)
        }
        _ => false,
    }
}

pub fn same_bases(left: &[BaseType], right: &[BaseType]) -> bool
    ensures { result ≡ spec.same_bases left.now right.now }
{
    if left.len() != right.len() {
        return false;
    }
    for place in 0..left.len() {
        if !same_base(left[place], right[place]) {
            return false;
        }
    }
    true
}

fn agrees(program: &Program, over: &Method, under: &Method) -> bool
    ensures { result ≡ spec.agrees program.now over.now under.now }
{
    same_bases(over.params.as_slice(), under.params.as_slice())
        && is_sub(program, over.result, under.result)
        && !under.is_final
        && !(over.is_static || under.is_static)
}

fn over_static(program: &Program, over: &Method, under: &Method) -> bool
    ensures { result ≡ spec.over_static program.now over.now under.now }
{
    !over.ctor
        && is_named(under, over.name, over.params.len())
        && under.is_static
        && !under.is_private
        && !(over.owner.0 == under.owner.0)
        && is_subclass(program, over.owner, under.owner)
}

fn hides_well(program: &Program, over: &Method, under: &Method) -> bool
    ensures { result ≡ spec.hides_well program.now over.now under.now }
{
    over.is_static
        && same_bases(over.params.as_slice(), under.params.as_slice())
        && is_sub(program, over.result, under.result)
        && !under.is_final
}

fn hides_badly(program: &Program, over: &Method) -> bool
    ensures { result ≡ spec.hides_badly program.now over.now }
{
    for under in program.methods.as_slice() {
        if over_static(program, over, under) && !hides_well(program, over, under) {
            return true;
        }
    }
    false
}

/// Whether the first method overrides the second without agreeing with it. Names are looked at first.
#[tactic(auto, using(crate::proofs::Named::pairs_are_named))]
fn clashes(program: &IndexedProgram, m: usize, over: &Method, k: usize, under: &Method) -> bool
    requires over_there { method_at program.now m ≡ Some over.now }
    requires under_there { method_at program.now k ≡ Some under.now }
    ensures { result
        ≡ (members.is_pair program.now m k && not (spec.agrees program.now over.now under.now)) }
{
    if !is_named(under, over.name, over.params.len()) {
        return false;
    }
    program.facts();
    if agrees(program.program(), over, under) {
        return false;
    }
    is_pair(program.program(), MethodNo(m as u32), MethodNo(k as u32))
}

fn is_hiding(program: &Program, field: &Field) -> bool
    ensures { result ≡ spec.is_hiding program.now field.now }
{
    for other in program.fields.as_slice() {
        if field.name.0 == other.name.0
            && !(field.owner.0 == other.owner.0)
            && is_subclass(program, field.owner, other.owner)
        {
            return true;
        }
    }
    false
}

/// T7: fields named as one of a supertype.
pub fn hiding_rows(program: &Program, rows: &mut Seq<Row>) -> Result<(), AllocError>
    ensures { OnOk result (rows.new
        ≡ rows.old
        ++ spec.rows_at T7 (λ (x : FieldOf). x.span) (λ f x. spec.is_hiding program.now x) 0
        program.now.fields) }
{
    for field in program.fields.as_slice() {
        push_if(rows, is_hiding(program, field), Code::T7, field.span)?;
    }
    Ok(())
}

fn overrides_badly(program: &IndexedProgram, m: usize, over: &Method) -> bool
    requires there { method_at program.now m ≡ Some over.now }
    ensures { result ≡ spec.overrides_badly program.now m over.now }
{
    let methods = program.program().methods.as_slice();
    for (k, under) in methods.iter().enumerate() {
        if clashes(program, m, over, k, under) {
            return true;
        }
    }
    false
}

fn is_bad_override(program: &IndexedProgram, m: usize, method: &Method) -> bool
    requires there { method_at program.now m ≡ Some method.now }
    ensures { result ≡ spec.is_bad_override program.now m method.now }
{
    overrides_badly(program, m, method) || hides_badly(program.program(), method)
}

/// T5: bad overrides, and statics that are hidden badly.
pub fn override_rows(program: &IndexedProgram, rows: &mut Seq<Row>) -> Result<(), AllocError>
    ensures { OnOk result (rows.new
        ≡ rows.old
        ++ spec.rows_at T5 (λ (x : MethodOf). x.span) (spec.is_bad_override program.now) 0
        program.now.methods) }
{
    let methods = program.program().methods.as_slice();
    for (m, method) in methods.iter().enumerate() {
        let bad = is_bad_override(program, m, method);
        push_if(rows, bad, Code::T5, method.span)?;
    }
    Ok(())
}

/// Whether the class has the method, which is abstract.
fn has_abstract(program: &IndexedProgram, class: ClassNo, m: usize, method: &Method) -> bool
    requires short { length method.now.params < 2 ^ 32 }
    ensures { result
        ≡ (method.now.is_abstract
        && members.is_number
        (members.method_of program.now class.0 method.now.name.0 (length method.now.params))
        m) }
{
    if !method.is_abstract {
        return false;
    }
    program.facts();
    match method_of(
        program.program(),
        class,
        method.name,
        method.params.len() as u32,
    ) {
        None => false,
        Some(found) => found.0 as usize == m,
    }
}

fn has_some_abstract(program: &IndexedProgram, class: ClassNo) -> bool
    ensures { result
        ≡ spec.some_at
        (λ m y. y.is_abstract
        && members.is_number
        (members.method_of program.now class.0 y.name.0 (length y.params)) m)
        0 program.now.methods }
{
    program.facts();
    let methods = program.program().methods.as_slice();
    for (m, method) in methods.iter().enumerate() {
        if has_abstract(program, class, m, method) {
            return true;
        }
    }
    false
}

fn lacks_body(program: &IndexedProgram, place: usize, class: &Class) -> bool
    requires few { place < 2 ^ 32 }
    ensures { result ≡ spec.lacks_body program.now place class.now }
{
    !class.interface && !class.is_abstract && has_some_abstract(program, ClassNo(place as u32))
}

/// T6: concrete classes with an abstract method.
pub fn lacking_rows(program: &IndexedProgram, rows: &mut Seq<Row>) -> Result<(), AllocError>
    ensures { OnOk result (rows.new
        ≡ rows.old
        ++ spec.rows_at T6 (λ (x : ClassOf). x.span) (spec.lacks_body program.now) 0
        program.now.classes) }
{
    program.facts();
    let classes = program.program().classes.as_slice();
    for (place, class) in classes.iter().enumerate() {
        let lacks = lacks_body(program, place, class);
        push_if(rows, lacks, Code::T6, class.span)?;
    }
    Ok(())
}
