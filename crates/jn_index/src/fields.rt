//! Fields by the index.
ghost use Rattle.std.specs.Prelude.{◌≡◌, ◌<◌, ◌≤◌, length, MatchOption, None, Some};
ghost use Rattle.jn_points.specs.Members as spec;
ghost use Rattle.jn_member_tables.specs.Numbers.{first_in};
ghost use Rattle.jn_index.specs.Index as index;

use crate::entries::field_key;
use crate::indexed::Indexed;
use crate::lookup::is_subclass;
use jn_base::{ClassNo, FieldNo, NameNo};
use jn_points::Field;
use jn_points::lookup::field_at;

fn declares(field: &Field, c: ClassNo, name: NameNo, d: u32) -> bool
    ensures { result ≡ index.declares_field c.0 name.0 d field.now }
{
    field.name.0 == name.0 && field.owner.0 == d && (!field.is_private || d == c.0)
}

fn declares_at(program: &Indexed, c: ClassNo, name: NameNo, d: u32, k: u32) -> bool
    ensures { result ≡ index.declares_field_at program.now c.0 name.0 d k }
{
    match field_at(program.program(), k as usize) {
        None => false,
        Some(field) => declares(field, c, name, d),
    }
}

/// The first of some fields that class `d` declares for class `c`.
fn first_declared(
    program: &Indexed,
    c: ClassNo,
    name: NameNo,
    d: u32,
    numbers: &[u32],
) -> Option<u32>
    ensures { result ≡ first_in (index.declares_field_at program.now c.0 name.0 d) numbers.now }
{
    for number in numbers {
        if declares_at(program, c, name, d, *number) {
            return Some(*number);
        }
    }
    None
}

/// The number of the field that class `d` declares for class `c`, where a private one counts at its
/// own class alone (JLS 8, 8.2). Looks at the fields of the class or at those of the name, whichever
/// are fewer.
#[tactic(auto, using(crate::proofs::Declared::own_field, crate::proofs::Declared::named_field))]
pub fn declared_field(program: &Indexed, c: ClassNo, name: NameNo, d: u32) -> Option<u32>
    ensures { result ≡ spec.declared_field program.now c.0 name.0 d }
{
    let index = program.index();
    let own = index.own_fields(d);
    let named = index.named_fields(name.0);
    if named.len() < own.len() {
        first_declared(program, c, name, d, named)
    } else {
        first_declared(program, c, name, d, own)
    }
}

/// What a class that isn't there has: what it declares.
#[tactic(auto, using(crate::proofs::Declared::walk_outside, crate::proofs::Declared::walk_nowhere))]
fn outside_field(program: &Indexed, class: ClassNo, name: NameNo) -> Option<u32>
    requires outside { length program.now.classes ≤ class.0 }
    ensures { result ≡ spec.field_of program.now class.0 name.0 }
{
    if program.program().classes.len() == 0 {
        return None;
    }
    declared_field(program, class, name, class.0)
}

/// The field that a class has from above, where it declares none itself.
#[tactic(auto, using(crate::proofs::Declared::inherited_field_found, crate::proofs::Declared::inherited_field_none))]
fn inherited_field(program: &Indexed, class: ClassNo, name: NameNo) -> Option<u32>
    requires inside { class.0 < length program.now.classes }
    requires none { spec.declared_field program.now class.0 name.0 class.0 ≡ None }
    ensures { result ≡ spec.field_of program.now class.0 name.0 }
{
    let index = program.index();
    match field_key(program.program(), index.named_fields(name.0), name) {
        None => None,
        Some(key) => index.field(class.0, key),
    }
}

#[tactic(auto, using(crate::proofs::Declared::own_field_first))]
fn field_number(program: &Indexed, class: ClassNo, name: NameNo) -> Option<u32>
    ensures { result ≡ spec.field_of program.now class.0 name.0 }
{
    if class.0 as usize >= program.program().classes.len() {
        return outside_field(program, class, name);
    }
    match declared_field(program, class, name, class.0) {
        None => inherited_field(program, class, name),
        Some(own) => Some(own),
    }
}

/// The field that a class has for a name (JLS 8, 8.2 and 8.3): its own, else the one that its parent
/// or an interface has, where a private one counts at its own class alone.
pub fn field_of(program: &Indexed, class: ClassNo, name: NameNo) -> Option<FieldNo>
    ensures { MatchOption result (spec.field_of program.now class.0 name.0 ≡ None)
        (λ f. spec.field_of program.now class.0 name.0 ≡ Some f.0) }
{
    match field_number(program, class, name) {
        None => None,
        Some(number) => Some(FieldNo(number)),
    }
}

/// Whether objects of the class have the field.
pub fn has_field(program: &Indexed, class: ClassNo, field: FieldNo) -> bool
    ensures { result ≡ spec.has_field program.now class.0 field.0 }
{
    match field_at(program.program(), field.0 as usize) {
        None => false,
        Some(info) => !info.is_static && is_subclass(program, class, info.owner),
    }
}
