//! The keys of a body, along which its facts and assigned fields run.
ghost use Rattle.std.specs.Prelude.{◌≡◌, ◌<◌, ◌++◌, ◌∷◌, ◌^◌, true, false, [], ◌&&◌, cond, IfOk, OnOk, MatchOption, length, drop, filter, flat_map, ltb, ◌+◌};
ghost use Rattle.jn_points.specs.Lookup.{ref_field, class_of, ctor_of, method_in};
ghost use Rattle.jn_env.specs.Keys.{kind_keys, origin_key, distinct, fact_keys, own_keys};
ghost use Rattle.jn_env.specs.Chained.{unmarked};
ghost use Rattle.jn_env.specs.Code.{AreKeys};
ghost use Rattle.jn_env.specs.ClassFields.{is_field_of, class_fields, AreOwnFields};

use crate::bits::{Which, write_keys};
use crate::lists::{FactKeys, FieldNumbers};
use crate::owned::OwnFields;
use crate::packed::BitList;
use jn_base::{BodyNo, FieldNo, OutOfMemory, RegNo};
use jn_points::lookup::owner;
use jn_points::{Origin, Point, PointKind, Program};
use std::alloc::{AllocError, Global};
use std::marker::Model;

/// A field of the object in a register.
#[derive(Clone, Copy)]
pub struct FieldKey {
    reg: u32,
    field: u32,
}

impl Model for FieldKey {
    ghost use Rattle.jn_env.specs.Keys.{Key};

    ghost Value = { Key };

    ghost view = { λ k. record { reg = k.reg; field = k.field } };

    ghost inverse = { λ k. record { reg = k.reg; field = k.field } };
}

impl FieldKey {
    ghost use Rattle.jn_env.specs.Keys.{has_reg, has_key_field, is_key};

    /// The key of a field of the object in a register.
    pub fn new(reg: RegNo, field: FieldNo) -> FieldKey
        ensures reg { result.reg ≡ reg.0 }
        ensures field { result.field ≡ field.0 }
    {
        FieldKey {
            reg: reg.0,
            field: field.0,
        }
    }

    /// The register.
    pub fn reg(self) -> u32
        ensures { result ≡ self.reg }
    {
        self.reg
    }

    /// The field's number.
    pub fn field(self) -> u32
        ensures { result ≡ self.field }
    {
        self.field
    }

    /// Whether this is the key of the register and the field.
    pub fn is(self, reg: RegNo, field: FieldNo) -> bool
        ensures { result ≡ is_key reg.0 field.0 self }
    {
        self.reg == reg.0 && self.field == field.0
    }
}

/// The keys of a body. They stand beside its environments, one list for all of them.
#[derive(Drop)]
pub struct Keys {
    /// Reference fields read, tested or written through a parameter or local; each once.
    pub facts: FactKeys,
    /// Numbers of the reference fields of a constructor's class; none in other bodies.
    pub own: FieldNumbers,
}

/// The keys of the body.
///
/// # Errors
/// No memory was found.
pub fn find_keys(alloc: Global, program: &Program, body: BodyNo) -> Result<Keys, OutOfMemory>
    requires inside { body.0 < length program.now.bodies }
    requires few { length program.now.fields < 2 ^ 32 }
    ensures { IfOk result (λ keys. AreKeys program.now body.0 keys) }
{
    Ok(Keys {
        facts: FactKeys::chained(alloc, fact_keys(alloc, program, body)?)?,
        own: FieldNumbers::chained(alloc, own_keys(alloc, program, body)?)?,
    })
}

/// The keys of the body, where the reference fields of all classes are at hand: they take no time that grows with the
/// number of the program's fields.
///
/// # Errors
/// No memory was found.
pub fn find_keys_by(
    alloc: Global,
    program: &Program,
    own: &OwnFields,
    body: BodyNo,
) -> Result<Keys, OutOfMemory>
    requires inside { body.0 < length program.now.bodies }
    requires few { length program.now.fields < 2 ^ 32 }
    requires own { AreOwnFields program.now own.now }
    ensures { IfOk result (λ keys. AreKeys program.now body.0 keys) }
{
    Ok(Keys {
        facts: FactKeys::chained(alloc, fact_keys(alloc, program, body)?)?,
        own: FieldNumbers::chained(alloc, own_keys_by(alloc, program, own, body)?)?,
    })
}

fn fact_keys(alloc: Global, program: &Program, body: BodyNo) -> Result<Vec<FieldKey>, OutOfMemory>
    requires inside { body.0 < length program.now.bodies }
    ensures { IfOk result (λ keys. keys.items ≡ fact_keys program.now body.0) }
{
    let info = &program.bodies.as_slice()[body.0 as usize];
    let points = info.points.as_slice();
    let all = facts_in(alloc, program, info.locals, points)?;
    Ok(distinct(alloc, all)?)
}

/// The keys that points read, write or test through so many registers, in the order of the points.
fn facts_in(
    alloc: Global,
    program: &Program,
    locals: u32,
    points: &[Point],
) -> Result<Vec<FieldKey>, AllocError>
    ensures { IfOk result (λ keys. keys.items
        ≡ filter
        (λ k. ltb k.reg locals && ref_field program.now k.field)
        (flat_map (λ pt. kind_keys pt.kind) points.now)) }
{
    let mut keys = Vec::new(alloc);
    for point in points {
        if let Some(key) = key_of(&point.kind)
            && is_fact(program, locals, key)
        {
            keys.push(key)?;
        }
    }
    Ok(keys)
}

/// The field that a point reads, writes or tests through a register.
fn key_of(kind: &PointKind) -> Option<FieldKey>
    ensures { MatchOption result (kind_keys kind.now ≡ []) (λ key. kind_keys kind.now ≡ key ∷ []) }
{
    match kind {
        PointKind::FieldRead { object, field, .. } => Some(FieldKey::new(object.reg, *field)),
        PointKind::FieldWrite { object, field, .. } => Some(FieldKey::new(object.reg, *field)),
        PointKind::TestInst { origin, .. } => key_of_origin(*origin),
        PointKind::TestNull { origin, .. } => key_of_origin(*origin),
        _ => None,
    }
}

fn key_of_origin(origin: Option<Origin>) -> Option<FieldKey>
    ensures { MatchOption result (origin_key origin ≡ []) (λ key. origin_key origin ≡ key ∷ []) }
{
    match origin {
        None => None,
        Some(origin) => Some(FieldKey::new(origin.reg, origin.field)),
    }
}

fn is_fact(program: &Program, locals: u32, key: FieldKey) -> bool
    ensures { result ≡ (ltb key.reg locals && ref_field program.now key.field) }
{
    key.reg() < locals && is_ref_field(program, key.field())
}

/// Whether the field is there and of reference type.
pub fn is_ref_field(program: &Program, field: u32) -> bool
    ensures { result ≡ ref_field program.now field }
{
    match program.fields.as_slice().get(field as usize) {
        None => false,
        Some(info) => info.slot.is_some(),
    }
}

fn push_key(keys: &mut Vec<FieldKey>, key: FieldKey) -> Result<(), AllocError>
    ensures { OnOk result (keys.new.items ≡ keys.old.items ++ key ∷ []) }
{
    keys.push(key)?;
    Ok(())
}

/// Each key once, where it stands first.
fn distinct(alloc: Global, all: Vec<FieldKey>) -> Result<Vec<FieldKey>, OutOfMemory>
    ensures { IfOk result (λ keys. keys.items ≡ distinct all.items) }
{
    let list = FactKeys::chained(alloc, all)?;
    let count = list.len();
    let mut seen = BitList::unset(alloc, count)?;
    let mut keys = Vec::new(alloc);
    for i in 0..count {
        take_first(&list, &mut seen, &mut keys, i)?;
    }
    Ok(keys)
}

/// Takes the key at a place, where it wasn't seen, and marks all places where it stands as seen.
fn take_first(
    list: &FactKeys,
    seen: &mut BitList,
    keys: &mut Vec<FieldKey>,
    i: usize,
) -> Result<(), AllocError>
    requires inside { i < length list.now }
    requires long { length seen.old ≡ length list.now }
    requires few { length list.now < 2 ^ 64 }
    ensures long { OnOk result (length seen.new ≡ length list.now) }
    ensures taken { OnOk result
        (keys.new.items ++ distinct (unmarked (drop (i + 1) list.now) (drop (i + 1) seen.new))
        ≡ keys.old.items ++ distinct (unmarked (drop i list.now) (drop i seen.old))) }
{
    if seen.get(i) {
        return Ok(());
    }
    let key = list.at(i);
    push_key(keys, key)?;
    let which = Which::Exactly(RegNo(key.reg()), FieldNo(key.field()));
    write_keys(list, seen, 0, which, true);
    Ok(())
}

/// The class whose constructor the body is.
fn constructed(program: &Program, body: BodyNo) -> Option<u32>
    requires { body.0 < length program.now.bodies }
    ensures { MatchOption result (ctor_of (method_in program.now body.0) ≡ false) (λ class. (ctor_of
        (method_in program.now body.0)
        ≡ true)
        × (class_of (method_in program.now body.0) ≡ class)) }
{
    let info = &program.bodies.as_slice()[body.0 as usize];
    match program.methods.as_slice().get(info.method.0 as usize) {
        None => None,
        Some(method) => {
            if method.ctor {
                Some(method.owner.0)
            } else {
                None
            }
        }
    }
}

#[tactic(auto, using(crate::proofs::OwnKeys::no_constructor, crate::proofs::OwnKeys::of_constructor))]
fn own_keys(alloc: Global, program: &Program, body: BodyNo) -> Result<Vec<u32>, AllocError>
    requires inside { body.0 < length program.now.bodies }
    requires few { length program.now.fields < 2 ^ 32 }
    ensures { IfOk result (λ keys. keys.items ≡ own_keys program.now body.0) }
{
    match constructed(program, body) {
        None => Ok(Vec::new(alloc)),
        Some(class) => fields_of(alloc, program, class),
    }
}

#[tactic(auto, using(crate::proofs::OwnKeys::no_constructor, crate::proofs::OwnKeys::of_listed))]
fn own_keys_by(
    alloc: Global,
    program: &Program,
    own: &OwnFields,
    body: BodyNo,
) -> Result<Vec<u32>, AllocError>
    requires inside { body.0 < length program.now.bodies }
    requires few { length program.now.fields < 2 ^ 32 }
    requires own { AreOwnFields program.now own.now }
    ensures { IfOk result (λ keys. keys.items ≡ own_keys program.now body.0) }
{
    match constructed(program, body) {
        None => Ok(Vec::new(alloc)),
        Some(class) => match own.of(class) {
            None => own_keys(alloc, program, body),
            Some(fields) => copy(alloc, fields),
        },
    }
}

fn copy(alloc: Global, fields: &[u32]) -> Result<Vec<u32>, AllocError>
    ensures { IfOk result (λ keys. keys.items ≡ fields.now) }
{
    let mut keys = Vec::new(alloc);
    keys.extend_from_slice(fields)?;
    Ok(keys)
}

/// The reference fields of a class, by rising numbers.
fn fields_of(alloc: Global, program: &Program, class: u32) -> Result<Vec<u32>, AllocError>
    requires { length program.now.fields < 2 ^ 32 }
    ensures { IfOk result (λ keys. keys.items ≡ class_fields program.now class) }
{
    let mut keys = Vec::new(alloc);
    for field in 0..program.fields.len() {
        let wanted = is_field_of(program, class, field as u32);
        push_if(&mut keys, wanted, field as u32)?;
    }
    Ok(keys)
}

fn push_if(keys: &mut Vec<u32>, wanted: bool, field: u32) -> Result<(), AllocError>
    ensures { OnOk result (keys.new.items ≡ keys.old.items ++ cond wanted (field ∷ []) []) }
{
    if wanted {
        keys.push(field)?;
    }
    Ok(())
}

/// Whether the field is a reference field of the class.
fn is_field_of(program: &Program, class: u32, field: u32) -> bool
    ensures { result ≡ is_field_of program.now class field }
{
    owner(program, field) == class && is_ref_field(program, field)
}
