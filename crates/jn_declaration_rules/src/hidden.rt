//! The classes that declare fields, found along the supertypes of each class (JLS 8.3): one table for all names, in which
//! unrelated classes with a field of one name don't meet.
ghost use Rattle.std.specs.Prelude.{◌≡◌, ◌<◌, ◌^◌, ◌++◌, length, MatchOption, None, Some, IfOk, IfSome, OnOk};
ghost use Rattle.jn_points.specs.Lookup.{class_info, field_info};
ghost use Rattle.jn_points.specs.Regular.{RegularClasses};
ghost use Rattle.jn_index.specs.Entries.{IsListed};
ghost use Rattle.jn_index.specs.Index.{field_owners};
ghost use Rattle.jn_member_tables.specs.Numbers.{places_of};
ghost use Rattle.jn_declaration_rules.specs.Hidden as spec;
ghost use Rattle.jn_declaration_rules.specs.Rows.{is_hiding};

use jn_base::{ClassNo, Seq};
use jn_index::indexed::Indexed;
use jn_index::order::find_order;
use jn_member_tables::tables::{Entry, Tables, find_tables};
use jn_points::lookup::field_at;
use jn_points::{Class, Field};
use std::alloc::{AllocError, Global};

/// For each class a table of the classes on its walk that declare fields, the nearest one at each field's name. Names are below
/// a number.
#[derive(Drop)]
pub struct Owners {
    tables: Tables,
    count: usize,
}

/// A number above all names of fields.
fn name_count(fields: &[Field]) -> usize
    ensures { result < 2 ^ 33 }
{
    let mut most: u32 = 0;
    for field in fields {
        if field.name.0 > most {
            most = field.name.0;
        }
    }
    most as usize + 1
}

/// Adds the entry of a field that the class declares.
fn push_entry(
    entries: &mut Seq<Entry>,
    program: &Indexed,
    count: usize,
    class: u32,
    k: u32,
) -> Result<(), AllocError>
    ensures { OnOk result
        (entries.new ≡ entries.old ++ spec.owner_entry count class (field_info program.now k)) }
{
    match field_at(program.program(), k as usize) {
        None => Ok(()),
        Some(field) => {
            if field.owner.0 == class && (field.name.0 as usize) < count {
                entries.push(Entry {
                    key: field.name.0,
                    value: class,
                })?;
            }
            Ok(())
        }
    }
}

#[tactic(auto, using(jn_index::proofs::Offered::entries_more))]
fn own_entries(
    alloc: Global,
    program: &Indexed,
    count: usize,
    class: u32,
    fields: &[u32],
) -> Result<Seq<Entry>, AllocError>
    ensures { IfOk result
        (λ entries. entries ≡ spec.owner_entries program.now count class fields.now) }
{
    let mut entries = Seq::new(alloc);
    for k in fields {
        push_entry(&mut entries, program, count, class, *k)?;
    }
    Ok(entries)
}

/// The entries of each class's fields.
#[tactic(auto, using(jn_index::proofs::Offered::listed_more))]
fn all_entries(
    alloc: Global,
    program: &Indexed,
    count: usize,
) -> Result<Vec<Seq<Entry>>, AllocError>
    ensures { IfOk result (λ all. IsListed (length program.now.classes)
        (λ d. spec.owner_entries program.now count d (places_of d 0 (field_owners program.now.fields)))
        all.items) }
{
    program.facts();
    let mut all = Vec::new(alloc);
    for place in 0..program.program().classes.len() {
        let class = place as u32;
        all.push(own_entries(alloc, program, count, class, program.own_fields(class))?)?;
    }
    Ok(all)
}

/// The tables of the classes that declare fields; none only where a class is its own supertype.
///
/// # Errors
/// No memory was found, or numbers of 32 bits aren't enough for the nodes.
#[tactic(auto, using(crate::proofs::FoundOwners::small_owners, crate::proofs::FoundOwners::owners_are))]
pub fn find_owners(alloc: Global, program: &Indexed) -> Result<Option<Owners>, AllocError>
    ensures is { IfOk result (λ o. IfSome o (λ w. spec.AreOwners program.now w.count w.tables)) }
    ensures none { IfOk result
        (λ o. MatchOption o (RegularClasses program.now → ⊥) (λ w. Unit {0})) }
{
    program.facts();
    let lists = program.program();
    let count = name_count(lists.fields.as_slice());
    let order = find_order(alloc, lists)?;
    let entries = all_entries(alloc, program, count)?;
    let tables = find_tables(alloc, lists, order.as_slice(), entries.as_slice(), count)?;
    match tables {
        None => Ok(None),
        Some(tables) => Ok(Some(Owners { tables, count })),
    }
}

/// The first class that the tables of some supertypes have.
fn found_above(tables: &Tables, name: u32, supers: &[ClassNo]) -> Option<u32>
    ensures { result ≡ spec.found_above tables.now name supers.now }
{
    for class in supers {
        match tables.find(class.0, name) {
            None => (),
            Some(owner) => return Some(owner),
        }
    }
    None
}

/// Whether a field of a class that is there hides one, where the tables tell: not where Object or a class above it declares a
/// field of the name, nor where the class stands above itself.
#[tactic(auto, using(crate::proofs::HiddenAbove::none_above, crate::proofs::HiddenAbove::some_above))]
pub fn hides_above(program: &Indexed, owners: &Owners, field: &Field, class: &Class) -> Option<bool>
    requires are { spec.AreOwners program.now owners.now.count owners.now.tables }
    requires at { class_info program.now field.now.owner.0 ≡ Some class.now }
    ensures is { IfSome result (λ hides. hides ≡ is_hiding program.now field.now) }
    ensures none { MatchOption result (spec.Untold program.now owners.now.count field.now class.now)
        (λ hides. Unit {0}) }
{
    let name = field.name.0;
    if name as usize >= owners.count {
        return None;
    }
    if owners.tables.find(0, name).is_some() {
        return None;
    }
    match found_above(&owners.tables, name, class.supers.as_slice()) {
        None => Some(false),
        Some(owner) => {
            if owner == field.owner.0 {
                None
            } else {
                Some(true)
            }
        }
    }
}
