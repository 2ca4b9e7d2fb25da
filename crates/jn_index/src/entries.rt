//! What classes have of themselves, at keys: a class at its number, and open members at the first member of their name
//! and arity.
ghost use Rattle.std.specs.Prelude.{◌≡◌, ◌<◌, ◌^◌, ◌++◌, Some, None, true, length, IfOk, OnOk};
ghost use Rattle.jn_points.specs.Lookup.{field_info, method_at};
ghost use Rattle.jn_member_tables.specs.Numbers.{list_at, first_in};
ghost use Rattle.jn_index.specs.Busy as busy;
ghost use Rattle.jn_index.specs.Entries as spec;

use crate::busy::is_busy;
use crate::index::list_at;
use jn_base::{NameNo, Seq};
use jn_member_tables::tables::Entry;
use jn_points::lookup::{field_at, method_at};
use jn_points::members::is_named;
use jn_points::{Field, Method, Program};
use std::alloc::{AllocError, Global};

fn is_named_at(program: &Program, name: NameNo, arity: usize, k: u32) -> bool
    ensures { result ≡ spec.is_named_at program.now name.0 arity k }
{
    match method_at(program, k as usize) {
        None => false,
        Some(method) => is_named(method, name, arity),
    }
}

/// The first of some methods of a name and arity, which is their key.
pub fn method_key(program: &Program, named: &[u32], name: NameNo, arity: usize) -> Option<u32>
    ensures { result ≡ first_in (spec.is_named_at program.now name.0 arity) named.now }
{
    for k in named {
        if is_named_at(program, name, arity, *k) {
            return Some(*k);
        }
    }
    None
}

fn is_field_named(program: &Program, name: NameNo, k: u32) -> bool
    ensures { result ≡ spec.is_field_named program.now name.0 k }
{
    match field_at(program, k as usize) {
        None => false,
        Some(field) => field.name.0 == name.0,
    }
}

/// The first of some fields of a name, which is its key.
pub fn field_key(program: &Program, named: &[u32], name: NameNo) -> Option<u32>
    ensures { result ≡ first_in (spec.is_field_named program.now name.0) named.now }
{
    for k in named {
        if is_field_named(program, name, *k) {
            return Some(*k);
        }
    }
    None
}

fn push_if(entries: &mut Seq<Entry>, key: Option<u32>, value: u32) -> Result<(), AllocError>
    ensures { OnOk result (entries.new ≡ entries.old ++ spec.entry_if key value) }
{
    match key {
        None => Ok(()),
        Some(key) => entries.push(Entry { key, value }),
    }
}

fn is_open(method: &Method, class: u32) -> bool
    ensures { result ≡ spec.is_open method.now class }
{
    !method.ctor && method.owner.0 == class && !method.is_private
}

fn push_method(
    entries: &mut Seq<Entry>,
    program: &Program,
    named: &[Seq<u32>],
    class: u32,
    k: u32,
) -> Result<(), AllocError>
    ensures { OnOk result (entries.new
        ≡ entries.old
        ++ spec.method_entry program.now named.now class k (method_at program.now k)) }
{
    match method_at(program, k as usize) {
        None => Ok(()),
        Some(method) => {
            if !is_open(method, class) {
                return Ok(());
            }
            let listed = list_at(named, method.name.0);
            let key = method_key(program, listed, method.name, method.params.len());
            push_if(entries, key, k)
        }
    }
}

#[tactic(auto, using(crate::proofs::Offered::entries_more))]
fn method_entries(
    alloc: Global,
    program: &Program,
    named: &[Seq<u32>],
    class: u32,
    methods: &[u32],
) -> Result<Seq<Entry>, AllocError>
    ensures { IfOk result
        (λ entries. entries ≡ spec.method_entries program.now named.now class methods.now) }
{
    let mut entries = Seq::new(alloc);
    for k in methods {
        push_method(&mut entries, program, named, class, *k)?;
    }
    Ok(entries)
}

/// The entries of each class's open methods.
#[tactic(auto, using(crate::proofs::Offered::listed_more))]
pub fn all_methods(
    alloc: Global,
    program: &Program,
    named: &[Seq<u32>],
    own: &[Seq<u32>],
) -> Result<Vec<Seq<Entry>>, AllocError>
    requires { length program.now.classes < 2 ^ 32 }
    ensures { IfOk result (λ all. spec.IsListed (length program.now.classes)
        (λ d. spec.method_entries program.now named.now d (list_at own.now d)) all.items) }
{
    let mut all = Vec::new(alloc);
    for place in 0..program.classes.len() {
        let class = place as u32;
        all.push(method_entries(alloc, program, named, class, list_at(own, class))?)?;
    }
    Ok(all)
}

fn is_open_field(field: &Field, class: u32) -> bool
    ensures { result ≡ spec.is_open_field field.now class }
{
    field.owner.0 == class && !field.is_private
}

fn push_field(
    entries: &mut Seq<Entry>,
    program: &Program,
    named: &[Seq<u32>],
    class: u32,
    k: u32,
) -> Result<(), AllocError>
    ensures { OnOk result (entries.new
        ≡ entries.old
        ++ spec.field_entry program.now named.now class k (field_info program.now k)) }
{
    match field_at(program, k as usize) {
        None => Ok(()),
        Some(field) => {
            if !is_open_field(field, class) {
                return Ok(());
            }
            let listed = list_at(named, field.name.0);
            let key = field_key(program, listed, field.name);
            push_if(entries, key, k)
        }
    }
}

#[tactic(auto, using(crate::proofs::Offered::entries_more))]
fn field_entries(
    alloc: Global,
    program: &Program,
    named: &[Seq<u32>],
    class: u32,
    fields: &[u32],
) -> Result<Seq<Entry>, AllocError>
    ensures { IfOk result
        (λ entries. entries ≡ spec.field_entries program.now named.now class fields.now) }
{
    let mut entries = Seq::new(alloc);
    for k in fields {
        push_field(&mut entries, program, named, class, *k)?;
    }
    Ok(entries)
}

/// The entries of each class's open fields.
#[tactic(auto, using(crate::proofs::Offered::listed_more))]
pub fn all_fields(
    alloc: Global,
    program: &Program,
    named: &[Seq<u32>],
    own: &[Seq<u32>],
) -> Result<Vec<Seq<Entry>>, AllocError>
    requires { length program.now.classes < 2 ^ 32 }
    ensures { IfOk result (λ all. spec.IsListed (length program.now.classes)
        (λ d. spec.field_entries program.now named.now d (list_at own.now d)) all.items) }
{
    let mut all = Vec::new(alloc);
    for place in 0..program.classes.len() {
        let class = place as u32;
        all.push(field_entries(alloc, program, named, class, list_at(own, class))?)?;
    }
    Ok(all)
}

fn class_entries(alloc: Global, class: u32, listed: bool) -> Result<Seq<Entry>, AllocError>
    ensures { IfOk result (λ entries. entries ≡ spec.class_entries listed class) }
{
    let mut entries = Seq::new(alloc);
    if listed {
        entries.push(Entry {
            key: class,
            value: class,
        })?;
    }
    Ok(entries)
}

/// The entry of each class.
#[tactic(auto, using(crate::proofs::Offered::listed_more))]
pub fn all_classes(alloc: Global, program: &Program) -> Result<Vec<Seq<Entry>>, AllocError>
    requires { length program.now.classes < 2 ^ 32 }
    ensures { IfOk result
        (λ all. spec.IsListed (length program.now.classes) (spec.class_entries true) all.items) }
{
    let mut all = Vec::new(alloc);
    for place in 0..program.classes.len() {
        all.push(class_entries(alloc, place as u32, true)?)?;
    }
    Ok(all)
}

/// The entry of each busy class.
#[tactic(auto, using(crate::proofs::Offered::listed_more))]
pub fn all_busy(
    alloc: Global,
    program: &Program,
    own: &[Seq<u32>],
    named: &[Seq<u32>],
) -> Result<Vec<Seq<Entry>>, AllocError>
    requires { length program.now.classes < 2 ^ 32 }
    ensures { IfOk result (λ all. spec.IsListed (length program.now.classes)
        (λ d. spec.class_entries (busy.is_busy program.now own.now named.now d) d) all.items) }
{
    let mut all = Vec::new(alloc);
    for place in 0..program.classes.len() {
        let class = place as u32;
        let listed = is_busy(program, own, named, class);
        all.push(class_entries(alloc, class, listed)?)?;
    }
    Ok(all)
}
