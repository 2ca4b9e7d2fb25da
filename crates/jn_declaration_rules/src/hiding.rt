//! T7 by an index of the program (JLS 8.3): each field asks the tables of its class's supertypes, or looks at the fields of its
//! name, whichever are fewer.
ghost use Rattle.std.specs.Prelude.{◌≡◌, ◌++◌, ◌&&◌, not, eqb, slice_get, IfSome, OnOk};
ghost use Rattle.jn_base.specs.declared.code.Code.TheVariants.{T7};
ghost use Rattle.jn_points.specs.Members as members;
ghost use Rattle.jn_points.specs.declared.program.Field.{Field as FieldOf};
ghost use Rattle.jn_declaration_rules.specs.Hidden.{AreOwners};
ghost use Rattle.jn_declaration_rules.specs.Listed.{there};
ghost use Rattle.jn_declaration_rules.specs.Rows as spec;

use crate::hidden::{Owners, find_owners, hides_above};
use crate::overrides::hiding_rows;
use crate::rows::push_if;
use jn_base::{Code, Row, Seq};
use jn_index::indexed::{Indexed, IndexedProgram};
use jn_index::lookup::is_subclass;
use jn_points::Field;
use jn_points::lookup::class_at;
use std::alloc::{AllocError, Global};

fn hides(program: &Indexed, field: &Field, k: u32) -> bool
    ensures { result
        ≡ there
        (λ y. eqb field.now.name.0 y.name.0 && not (eqb field.now.owner.0 y.owner.0)
        && members.sub program.now field.now.owner.0 y.owner.0)
        (slice_get program.now.fields k) }
{
    match program.program().fields.as_slice().get(k as usize) {
        None => false,
        Some(other) => {
            field.name.0 == other.name.0
                && !(field.owner.0 == other.owner.0)
                && is_subclass(program, field.owner, other.owner)
        }
    }
}

fn hides_some(program: &Indexed, listed: &[u32], field: &Field) -> bool
    ensures { result
        ≡ members.some_of
        (λ k. there
        (λ y. eqb field.now.name.0 y.name.0 && not (eqb field.now.owner.0 y.owner.0)
        && members.sub program.now field.now.owner.0 y.owner.0)
        (slice_get program.now.fields k))
        listed.now }
{
    for k in listed {
        if hides(program, field, *k) {
            return true;
        }
    }
    false
}

/// Looks among the fields of its name.
#[tactic(auto, using(crate::proofs::HiddenFields::hiding_listed))]
fn hides_named(program: &Indexed, field: &Field) -> bool
    ensures { result ≡ spec.is_hiding program.now field.now }
{
    hides_some(program, program.index().named_fields(field.name.0), field)
}

/// Looks in the tables of the supertypes, where these are fewer than the fields of the name.
fn hides_by(program: &Indexed, owners: &Owners, field: &Field) -> Option<bool>
    requires { AreOwners program.now owners.now.count owners.now.tables }
    ensures { IfSome result (λ hides. hides ≡ spec.is_hiding program.now field.now) }
{
    let class = class_at(program.program(), field.owner.0 as usize)?;
    if program.index().named_fields(field.name.0).len() <= class.supers.len() {
        return None;
    }
    hides_above(program, owners, field, class)
}

fn is_hiding(program: &Indexed, owners: &Option<Owners>, field: &Field) -> bool
    requires are { IfSome owners.now (λ o. AreOwners program.now o.count o.tables) }
    ensures { result ≡ spec.is_hiding program.now field.now }
{
    let told = match owners {
        None => None,
        Some(owners) => hides_by(program, owners, field),
    };
    match told {
        None => hides_named(program, field),
        Some(hides) => hides,
    }
}

fn found_rows(
    program: &Indexed,
    owners: &Option<Owners>,
    rows: &mut Seq<Row>,
) -> Result<(), AllocError>
    requires are { IfSome owners.now (λ o. AreOwners program.now o.count o.tables) }
    ensures { OnOk result (rows.new
        ≡ rows.old
        ++ spec.rows_at T7 (λ (x : FieldOf). x.span) (λ f x. spec.is_hiding program.now x) 0
        program.now.fields) }
{
    for field in program.program().fields.as_slice() {
        push_if(
            rows,
            is_hiding(program, owners, field),
            Code::T7,
            field.span,
        )?;
    }
    Ok(())
}

/// T7: fields named as one of a supertype.
pub fn hidden_rows(
    alloc: Global,
    program: &IndexedProgram,
    rows: &mut Seq<Row>,
) -> Result<(), AllocError>
    ensures { OnOk result (rows.new
        ≡ rows.old
        ++ spec.rows_at T7 (λ (x : FieldOf). x.span) (λ f x. spec.is_hiding program.now x) 0
        program.now.fields) }
{
    match program.indexed() {
        None => hiding_rows(program.program(), rows),
        Some(indexed) => {
            let owners = find_owners(alloc, &indexed)?;
            found_rows(&indexed, &owners, rows)
        }
    }
}
