//! T1 of fields and T4, by lists of members (JLS 8.3, 8.4.2).
ghost use Rattle.std.specs.Prelude.{◌≡◌, ◌<◌, ◌^◌, ◌++◌, ℕ, map, length, IfOk, OnOk};
ghost use Rattle.jn_base.specs.declared.code.Code.TheVariants.{T1, T4};
ghost use Rattle.jn_points.specs.Members.{some_of};
ghost use Rattle.jn_points.specs.declared.program.Field.{Field as FieldOf};
ghost use Rattle.jn_points.specs.declared.program.Method.{Method as MethodOf};
ghost use Rattle.jn_index.specs.Index.{names, owners};
ghost use Rattle.jn_member_tables.specs.Numbers.{places_of};
ghost use Rattle.jn_member_tables.specs.Numbers as numbers;
ghost use Rattle.jn_declaration_rules.specs.Listed.{is_earlier};
ghost use Rattle.jn_declaration_rules.specs.Rows as spec;

use crate::rows::push_if;
use jn_base::{Code, Row, Seq};
use jn_index::index::{list_at, owners};
use jn_member_tables::lists::lists_by;
use jn_points::{Field, Method, Program};
use std::alloc::{AllocError, Global};

fn same_method(x: &Method, y: &Method) -> bool
    ensures { result ≡ spec.same_method x.now y.now }
{
    x.owner.0 == y.owner.0 && x.name.0 == y.name.0 && x.params.len() == y.params.len()
}

fn is_earlier_method(methods: &[Method], place: usize, method: &Method, k: u32) -> bool
    ensures { result ≡ is_earlier spec.same_method methods.now place method.now k }
{
    match methods.get(k as usize) {
        None => false,
        Some(other) => (k as usize) < place && same_method(method, other),
    }
}

fn some_method(methods: &[Method], listed: &[u32], place: usize, method: &Method) -> bool
    ensures { result
        ≡ some_of (is_earlier spec.same_method methods.now place method.now) listed.now }
{
    for k in listed {
        if is_earlier_method(methods, place, method, *k) {
            return true;
        }
    }
    false
}

/// Looks among the methods of its class or among those of its name, whichever are fewer.
#[tactic(auto, using(crate::proofs::Listed::earlier_method, crate::proofs::Listed::earlier_named_method))]
fn is_second_method(
    methods: &[Method],
    own: &[Seq<u32>],
    named: &[Seq<u32>],
    place: usize,
    method: &Method,
) -> bool
    requires own { (d : ℕ) → numbers.list_at own.now d ≡ places_of d 0 (owners methods.now) }
    requires named { (n : ℕ) → numbers.list_at named.now n ≡ places_of n 0 (names methods.now) }
    ensures { result ≡ spec.earlier spec.same_method methods.now place method.now }
{
    let own = list_at(own, method.owner.0);
    let named = list_at(named, method.name.0);
    if named.len() < own.len() {
        some_method(methods, named, place, method)
    } else {
        some_method(methods, own, place, method)
    }
}

fn push_methods(
    methods: &[Method],
    own: &[Seq<u32>],
    named: &[Seq<u32>],
    rows: &mut Seq<Row>,
) -> Result<(), AllocError>
    requires own { (d : ℕ) → numbers.list_at own.now d ≡ places_of d 0 (owners methods.now) }
    requires named { (n : ℕ) → numbers.list_at named.now n ≡ places_of n 0 (names methods.now) }
    ensures { OnOk result (rows.new
        ≡ rows.old
        ++ spec.rows_at T4 (λ (x : MethodOf). x.span)
        (spec.earlier spec.same_method methods.now) 0 methods.now) }
{
    for (place, method) in methods.iter().enumerate() {
        let second = is_second_method(methods, own, named, place, method);
        push_if(rows, second, Code::T4, method.span)?;
    }
    Ok(())
}

fn method_names(alloc: Global, methods: &[Method]) -> Result<Vec<u32>, AllocError>
    ensures { IfOk result (λ keys. keys.items ≡ names methods.now) }
{
    methods.iter().map(|method| method.name.0).collect(alloc)
}

/// T4: second methods and constructors of one class, name and arity (JLS 8.4.2).
pub fn again_methods(
    alloc: Global,
    program: &Program,
    rows: &mut Seq<Row>,
) -> Result<(), AllocError>
    requires { length program.now.methods < 2 ^ 32 }
    ensures { OnOk result (rows.new
        ≡ rows.old
        ++ spec.rows_at T4 (λ (x : MethodOf). x.span)
        (spec.earlier spec.same_method program.now.methods) 0 program.now.methods) }
{
    let classes = owners(alloc, program)?;
    let own = lists_by(alloc, classes.as_slice())?;
    let names = method_names(alloc, program.methods.as_slice())?;
    let named = lists_by(alloc, names.as_slice())?;
    push_methods(
        program.methods.as_slice(),
        own.as_slice(),
        named.as_slice(),
        rows,
    )
}

fn same_field(x: &Field, y: &Field) -> bool
    ensures { result ≡ spec.same_field x.now y.now }
{
    x.owner.0 == y.owner.0 && x.name.0 == y.name.0
}

fn is_earlier_field(fields: &[Field], place: usize, field: &Field, k: u32) -> bool
    ensures { result ≡ is_earlier spec.same_field fields.now place field.now k }
{
    match fields.get(k as usize) {
        None => false,
        Some(other) => (k as usize) < place && same_field(field, other),
    }
}

fn some_field(fields: &[Field], listed: &[u32], place: usize, field: &Field) -> bool
    ensures { result ≡ some_of (is_earlier spec.same_field fields.now place field.now) listed.now }
{
    for k in listed {
        if is_earlier_field(fields, place, field, *k) {
            return true;
        }
    }
    false
}

/// Looks among the fields of its class or among those of its name, whichever are fewer.
#[tactic(auto, using(crate::proofs::Listed::earlier_field, crate::proofs::Listed::earlier_named_field))]
fn is_second_field(
    fields: &[Field],
    own: &[Seq<u32>],
    named: &[Seq<u32>],
    place: usize,
    field: &Field,
) -> bool
    requires own { (d : ℕ)
        → numbers.list_at own.now d ≡ places_of d 0 (map (λ (y : FieldOf). y.owner.0) fields.now) }
    requires named { (n : ℕ)
        → numbers.list_at named.now n ≡ places_of n 0 (map (λ (y : FieldOf). y.name.0) fields.now) }
    ensures { result ≡ spec.earlier spec.same_field fields.now place field.now }
{
    let own = list_at(own, field.owner.0);
    let named = list_at(named, field.name.0);
    if named.len() < own.len() {
        some_field(fields, named, place, field)
    } else {
        some_field(fields, own, place, field)
    }
}

fn push_fields(
    fields: &[Field],
    own: &[Seq<u32>],
    named: &[Seq<u32>],
    rows: &mut Seq<Row>,
) -> Result<(), AllocError>
    requires own { (d : ℕ)
        → numbers.list_at own.now d ≡ places_of d 0 (map (λ (y : FieldOf). y.owner.0) fields.now) }
    requires named { (n : ℕ)
        → numbers.list_at named.now n ≡ places_of n 0 (map (λ (y : FieldOf). y.name.0) fields.now) }
    ensures { OnOk result (rows.new
        ≡ rows.old
        ++ spec.rows_at T1 (λ (x : FieldOf). x.span) (spec.earlier spec.same_field fields.now) 0
        fields.now) }
{
    for (place, field) in fields.iter().enumerate() {
        let second = is_second_field(fields, own, named, place, field);
        push_if(rows, second, Code::T1, field.span)?;
    }
    Ok(())
}

fn field_owners(alloc: Global, fields: &[Field]) -> Result<Vec<u32>, AllocError>
    ensures { IfOk result (λ keys. keys.items ≡ map (λ (y : FieldOf). y.owner.0) fields.now) }
{
    fields.iter().map(|field| field.owner.0).collect(alloc)
}

/// The names of fields.
fn field_names(alloc: Global, fields: &[Field]) -> Result<Vec<u32>, AllocError>
    ensures { IfOk result (λ keys. keys.items ≡ map (λ (y : FieldOf). y.name.0) fields.now) }
{
    fields.iter().map(|field| field.name.0).collect(alloc)
}

/// T1: second fields of one class (JLS 8.3).
pub fn again_fields(alloc: Global, program: &Program, rows: &mut Seq<Row>) -> Result<(), AllocError>
    requires { length program.now.fields < 2 ^ 32 }
    ensures { OnOk result (rows.new
        ≡ rows.old
        ++ spec.rows_at T1 (λ (x : FieldOf). x.span)
        (spec.earlier spec.same_field program.now.fields) 0 program.now.fields) }
{
    let classes = field_owners(alloc, program.fields.as_slice())?;
    let own = lists_by(alloc, classes.as_slice())?;
    let names = field_names(alloc, program.fields.as_slice())?;
    let named = lists_by(alloc, names.as_slice())?;
    push_fields(
        program.fields.as_slice(),
        own.as_slice(),
        named.as_slice(),
        rows,
    )
}
