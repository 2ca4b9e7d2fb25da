//! What stands where in a program's lists.
ghost use Rattle.std.specs.Prelude.{◌≡◌, MatchOption, None, Some};
ghost use Rattle.jn_points.specs.BaseRows as rules;
ghost use Rattle.jn_points.specs.Lookup as spec;

use crate::point::{BaseType, Elem};
use crate::program::{Body, Class, Field, Method, Program};
use jn_base::{ClassNo, FieldNo, MethodNo, RegNo};

/// Whether the type is one of references (JLS 4.3), the type of null among them.
pub fn is_reference(base: BaseType) -> bool
    ensures { result ≡ spec.is_ref_base base }
{
    match base {
        BaseType::Ref(_) => true,
        BaseType::Array(_, _) => true,
        BaseType::Null => true,
        _ => false,
    }
}

/// Whether the type is an array's (JLS 10.1).
pub fn is_array(base: BaseType) -> bool
    ensures { result ≡ spec.is_array base }
{
    match base {
        BaseType::Array(_, _) => true,
        _ => false,
    }
}

/// Whether the type is String (JLS 4.3.3).
pub fn is_string(base: BaseType) -> bool
    ensures { result ≡ rules.is_string base }
{
    match base {
        BaseType::Ref(class) => class.0 == 1,
        _ => false,
    }
}

/// Whether the type is that of what gives no value (JLS 8.4.5).
pub fn is_void(base: BaseType) -> bool
    ensures { result ≡ rules.is_void base }
{
    match base {
        BaseType::Void => true,
        _ => false,
    }
}

/// The type of an array's elements; int for what is no array type.
pub fn elem_base(base: BaseType) -> BaseType
    ensures { result ≡ spec.elem_base base }
{
    match base {
        BaseType::Array(Elem::Bool, _) => BaseType::Bool,
        BaseType::Array(Elem::Ref(class), _) => BaseType::Ref(class),
        _ => BaseType::Int,
    }
}

/// The class at a place, where there is one.
pub fn class_at(program: &Program, class: usize) -> Option<&Class>
    ensures { MatchOption result (spec.class_info program.now class ≡ None)
        (λ c. spec.class_info program.now class ≡ Some c.now) }
{
    program.classes.as_slice().get(class)
}

/// The class of a number, where there is one.
pub fn class_info(program: &Program, class: ClassNo) -> Option<&Class>
    ensures { MatchOption result (spec.class_info program.now class.0 ≡ None)
        (λ c. spec.class_info program.now class.0 ≡ Some c.now) }
{
    class_at(program, class.0 as usize)
}

/// Whether the class is an interface.
pub fn is_interface(program: &Program, class: ClassNo) -> bool
    ensures { result ≡ spec.interface_of (spec.class_info program.now class.0) }
{
    match class_info(program, class) {
        None => false,
        Some(info) => info.interface,
    }
}

/// The field at a place, where there is one.
pub fn field_at(program: &Program, field: usize) -> Option<&Field>
    ensures { MatchOption result (spec.field_info program.now field ≡ None)
        (λ f. spec.field_info program.now field ≡ Some f.now) }
{
    program.fields.as_slice().get(field)
}

/// The field of a number, where there is one.
pub fn field_info(program: &Program, field: FieldNo) -> Option<&Field>
    ensures { MatchOption result (spec.field_info program.now field.0 ≡ None)
        (λ f. spec.field_info program.now field.0 ≡ Some f.now) }
{
    field_at(program, field.0 as usize)
}

/// The class that declares the field; 0 where the field is not there.
pub fn owner(program: &Program, field: u32) -> u32
    ensures { result ≡ spec.owner program.now field }
{
    match program.fields.as_slice().get(field as usize) {
        None => 0,
        Some(info) => info.owner.0,
    }
}

/// Whether the field is there and monotonic.
pub fn is_monotonic(program: &Program, field: u32) -> bool
    ensures { result ≡ spec.monotonic program.now field }
{
    match program.fields.as_slice().get(field as usize) {
        None => false,
        Some(info) => info.is_monotonic,
    }
}

/// The base type of a field; Void for one that is not there.
pub fn field_base(program: &Program, field: FieldNo) -> BaseType
    ensures { result ≡ spec.field_base program.now field.0 }
{
    match field_info(program, field) {
        None => BaseType::Void,
        Some(info) => info.base,
    }
}

/// The method of a number, where there is one.
pub fn method_at(program: &Program, method: usize) -> Option<&Method>
    ensures { MatchOption result (spec.method_at program.now method ≡ None)
        (λ m. spec.method_at program.now method ≡ Some m.now) }
{
    program.methods.as_slice().get(method)
}

/// The class that declares a method or constructor; class 0 where the method is not there.
pub fn class_of(program: &Program, method: MethodNo) -> ClassNo
    ensures { result.0 ≡ spec.class_of (spec.method_at program.now method.0) }
{
    match method_at(program, method.0 as usize) {
        None => ClassNo(0),
        Some(info) => info.owner,
    }
}

/// The base types of a method's or constructor's parameters; none where the method is not there.
pub fn params_of(program: &Program, method: MethodNo) -> &[BaseType]
    ensures { result.now ≡ spec.params_of (spec.method_at program.now method.0) }
{
    match method_at(program, method.0 as usize) {
        None => &[],
        Some(info) => info.params.as_slice(),
    }
}

fn base_in(body: &Body, reg: usize) -> BaseType
    ensures { result ≡ spec.base_in (Some body.now) reg }
{
    match body.regs.as_slice().get(reg) {
        None => BaseType::Void,
        Some(base) => *base,
    }
}

/// The base type of a register of the body at a place; Void for one that is not there.
pub fn reg_base(program: &Program, body: usize, reg: RegNo) -> BaseType
    ensures { result ≡ spec.reg_base program.now body reg.0 }
{
    match program.bodies.as_slice().get(body) {
        None => BaseType::Void,
        Some(info) => base_in(info, reg.0 as usize),
    }
}

/// The method of the body at a place.
pub fn method_in(program: &Program, body: usize) -> Option<&Method>
    ensures { MatchOption result (spec.method_in program.now body ≡ None)
        (λ m. spec.method_in program.now body ≡ Some m.now) }
{
    match program.bodies.as_slice().get(body) {
        None => None,
        Some(info) => method_at(program, info.method.0 as usize),
    }
}
