//! Bits along the keys of a body.
ghost use Rattle.std.specs.Prelude.{◌≡◌, ◌<◌, ◌≤◌, ◌+◌, ◌^◌, ◌++◌, ◌&&◌, length, take, drop, cond, eqb, false, slice_index_or, slice_set};
ghost use Rattle.jn_env.specs.Keys.{is_on, is_key};
ghost use Rattle.jn_env.specs.Code.{picks, is_field};
ghost use Rattle.jn_env.specs.Flat.{written};

use crate::env::Env;
use crate::keys::FieldKey;
use crate::lists::{FactKeys, FieldNumbers};
use crate::packed::BitList;
use jn_base::{FieldNo, RegNo};
use jn_points::Program;
use jn_points::lookup::is_monotonic;

/// Some keys of a body.
#[derive(Clone, Copy)]
pub enum Which<'a> {
    /// Those of a register.
    OfReg(RegNo),
    /// Those of a field.
    OfField(FieldNo),
    /// The one of the register and the field.
    Exactly(RegNo, FieldNo),
    /// Those of fields that aren't monotonic.
    Fleeting(&'a Program),
    /// All.
    Each,
}

/// Whether the key is among them.
fn picks(which: Which, key: FieldKey) -> bool
    ensures { result ≡ picks which.entry key }
{
    match which {
        Which::OfReg(reg) => key.reg() == reg.0,
        Which::OfField(field) => key.field() == field.0,
        Which::Exactly(reg, field) => key.is(reg, field),
        Which::Fleeting(program) => !is_monotonic(program, key.field()),
        Which::Each => true,
    }
}

/// Writes a bit at each of these keys. The bits of all keys stand one after another from the first on.
pub fn write_keys(keys: &FactKeys, bits: &mut BitList, first: usize, which: Which, wanted: bool)
    requires inside { first + length keys.now ≤ length bits.old }
    requires few { first + length keys.now < 2 ^ 64 }
    ensures { bits.new
        ≡ take first bits.old ++ written (picks which.entry) wanted keys.now (drop first bits.old) }
{
    let count = keys.len();
    let mut at = keys.first(which);
    while at < count {
        write_if(bits, first + at, picks(which, keys.at(at)), wanted);
        at = keys.next(at, which);
    }
}

/// Writes the bit at a place, where that is chosen.
fn write_if(bits: &mut BitList, at: usize, chosen: bool, wanted: bool)
    requires { at < length bits.old }
    ensures { bits.new ≡ cond chosen (slice_set bits.old at wanted) bits.old }
{
    if chosen {
        bits.set(at, wanted);
    }
}

/// Writes the bit of a field among a constructor's own, or all of their bits, which stand one after another from the
/// first on.
pub fn write_own(
    own: &FieldNumbers,
    bits: &mut BitList,
    first: usize,
    field: Option<FieldNo>,
    wanted: bool,
)
    requires inside { first + length own.now ≤ length bits.old }
    requires few { first + length own.now < 2 ^ 64 }
    ensures { bits.new
        ≡ take first bits.old ++ written (is_field field) wanted own.now (drop first bits.old) }
{
    let count = own.len();
    let mut at = own.first(field);
    while at < count {
        write_if(bits, first + at, is_field(field, own.at(at)), wanted);
        at = own.next(at, field);
    }
}

/// Whether the bit is set and meant.
pub fn is_set(bit: bool, meant: bool) -> bool
    ensures { result ≡ (bit && meant) }
{
    bit && meant
}

fn is_field(field: Option<FieldNo>, own: u32) -> bool
    ensures { result ≡ is_field field own }
{
    match field {
        None => true,
        Some(field) => own == field.0,
    }
}

/// Whether the register's field is known not to be null.
pub fn is_known(keys: &FactKeys, env: &Env, reg: RegNo, field: FieldNo) -> bool
    ensures { result ≡ is_on (is_key reg.0 field.0) keys.now env.now.facts }
{
    let count = keys.len();
    let mut at = keys.first(Which::Exactly(reg, field));
    while at < count {
        if is_known_as(env, at, keys.at(at), reg, field) {
            return true;
        }
        at = keys.next(at, Which::Exactly(reg, field));
    }
    false
}

fn is_known_as(env: &Env, at: usize, key: FieldKey, reg: RegNo, field: FieldNo) -> bool
    ensures { result ≡ (slice_index_or env.now.facts at false && is_key reg.0 field.0 key) }
{
    key.is(reg, field) && env.has_fact_at(at)
}

/// Whether the field of one of the places is this one, and assigned.
pub fn is_assigned_as(env: &Env, at: usize, own: u32, field: u32) -> bool
    ensures { result ≡ (slice_index_or env.now.assigned at false && eqb own field) }
{
    own == field && env.has_assigned_at(at)
}

/// Whether the field is among a constructor's own, and assigned.
pub fn is_assigned_by(own: &FieldNumbers, env: &Env, field: FieldNo) -> bool
    ensures { result ≡ is_on (λ k. eqb k field.0) own.now env.now.assigned }
{
    let count = own.len();
    let mut at = own.first(Some(field));
    while at < count {
        if is_assigned_as(env, at, own.at(at), field.0) {
            return true;
        }
        at = own.next(at, Some(field));
    }
    false
}
