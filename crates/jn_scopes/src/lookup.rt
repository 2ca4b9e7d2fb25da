//! What names mean (JLS 6.5, 15.11 and 15.12).
ghost use Rattle.std.specs.Prelude.{◌≡◌, ◌&&◌, eqb, MatchOption, None, Some};
ghost use Rattle.jn_lowering.specs.Scopes as spec;
ghost use Rattle.jn_places.specs.PlacedView.{placed_view};
ghost use Rattle.jn_known.specs.Known.{println_name};
ghost use Rattle.jn_scopes.specs.Views.{access_of, callee_of, local_of, meaning_of, scope_in};

use crate::context::{Access, Callee, Context, Meaning, Variable};
use crate::members::{class_named, field_of, method_of};
use jn_base::NameNo;
use jn_known::{EQUALS, IS_EMPTY, LENGTH, OUT, PRINTLN, SYSTEM};
use jn_points::{BaseType, StrOperation};
use jn_trees::Expr;

/// The local in scope of the name.
pub fn local_in(c: &Context, name: NameNo) -> Option<Variable>
    ensures { MatchOption result (spec.local_in (scope_in c.now) name.0 ≡ None)
        (λ v. spec.local_in (scope_in c.now) name.0 ≡ Some (local_of c.now.faults.now v)) }
{
    c.scope.find(name)
}

/// What an identifier means: the local in scope of that name, else the field that the class has, else the class of that name.
pub fn meaning(c: &Context, name: NameNo) -> Meaning
    ensures { meaning_of c.now.faults.now result
        ≡ spec.meaning c.now.program.now c.now.class.0 (scope_in c.now) name.0 }
{
    if let Some(variable) = local_in(c, name) {
        return Meaning::Local(variable);
    }
    if let Some(field) = field_of(c.program, c.class, name) {
        return Meaning::Field(field);
    }
    if let Some(class) = class_named(c.program, name) {
        return Meaning::Class(class);
    }
    if name.0 == SYSTEM.0 {
        Meaning::System
    } else {
        Meaning::Nothing
    }
}

/// What stands before a dot, where it is an identifier.
pub fn before_dot(c: &Context, target: &Expr) -> Meaning
    ensures { meaning_of c.now.faults.now result
        ≡ spec.before_dot c.now.program.now c.now.class.0 (scope_in c.now)
        (placed_view target.now) }
{
    match target {
        Expr::Name { name } => meaning(c, name.name),
        _ => Meaning::Nothing,
    }
}

fn object_access(c: &Context, base: BaseType, name: NameNo) -> Access
    ensures { access_of result ≡ spec.access_of c.now.program.now base name.0 }
{
    match base {
        BaseType::Ref(class) => match field_of(c.program, class, name) {
            Some(field) => Access::Object(field),
            None => Access::Nothing,
        },
        BaseType::Array(_, _) => {
            if name.0 == LENGTH.0 {
                Access::Length
            } else {
                Access::Nothing
            }
        }
        _ => Access::Nothing,
    }
}

/// What a field access names, where what stands before the dot means this and has the type.
pub fn access_by(c: &Context, before: Meaning, base: BaseType, name: NameNo) -> Access
    ensures { access_of result
        ≡ spec.access_by c.now.program.now (meaning_of c.now.faults.now before) base name.0 }
{
    match before {
        Meaning::Class(class) => match field_of(c.program, class, name) {
            Some(field) => Access::Class(field),
            None => Access::Nothing,
        },
        Meaning::System => Access::Nothing,
        _ => object_access(c, base, name),
    }
}

/// What a field access names, where what stands before the dot has the type.
pub fn access(c: &Context, target: &Expr, base: BaseType, name: NameNo) -> Access
    ensures { access_of result
        ≡ spec.access c.now.program.now c.now.class.0 (scope_in c.now) (placed_view target.now) base
        name.0 }
{
    access_by(c, before_dot(c, target), base, name)
}

fn is_system(c: &Context, tree: &Expr) -> bool
    ensures { result
        ≡ spec.is_system (spec.before_dot c.now.program.now c.now.class.0 (scope_in c.now)
        (placed_view tree.now)) }
{
    match before_dot(c, tree) {
        Meaning::System => true,
        _ => false,
    }
}

#[tactic(auto, using(crate::proofs::Seen::output_field))]
fn is_output(c: &Context, target: &Expr) -> bool
    ensures { result
        ≡ spec.is_output c.now.program.now c.now.class.0 (scope_in c.now) (placed_view target.now) }
{
    match target {
        Expr::Field {
            target: inner,
            name,
            ..
        } => is_system(c, inner) && name.name.0 == OUT.0,
        _ => false,
    }
}

/// Whether a call with a dot is `System.out.println` of one value, where nothing else is named System.
pub fn is_println(c: &Context, target: &Expr, name: NameNo, arity: usize) -> bool
    ensures { result
        ≡ (spec.is_output c.now.program.now c.now.class.0 (scope_in c.now) (placed_view target.now)
        && eqb name.0 println_name && eqb arity 1) }
{
    is_output(c, target) && name.0 == PRINTLN.0 && arity == 1
}

fn text_callee(name: NameNo, arity: usize) -> Callee
    ensures { callee_of result ≡ spec.text_callee name.0 arity }
{
    if arity == 0 {
        if name.0 == LENGTH.0 {
            Callee::Text(StrOperation::Length)
        } else if name.0 == IS_EMPTY.0 {
            Callee::Text(StrOperation::IsEmpty)
        } else {
            Callee::Nothing
        }
    } else if arity == 1 {
        if name.0 == EQUALS.0 {
            Callee::Text(StrOperation::Equals)
        } else {
            Callee::Nothing
        }
    } else {
        Callee::Nothing
    }
}

fn object_callee(c: &Context, base: BaseType, name: NameNo, arity: usize) -> Callee
    ensures { callee_of result ≡ spec.callee_of c.now.program.now base name.0 arity }
{
    match base {
        BaseType::Ref(class) => {
            if class.0 == 1 {
                return text_callee(name, arity);
            }
            match method_of(c.program, class, name, arity) {
                Some(method) => Callee::Object(method),
                None => Callee::Nothing,
            }
        }
        _ => Callee::Nothing,
    }
}

/// What a call with a dot names but `println`, where what stands before the dot means this and has the type.
pub fn callee_by(c: &Context, before: Meaning, base: BaseType, name: NameNo, arity: usize) -> Callee
    ensures { callee_of result
        ≡ spec.callee_by c.now.program.now (meaning_of c.now.faults.now before) base name.0 arity }
{
    match before {
        Meaning::Class(class) => match method_of(c.program, class, name, arity) {
            Some(method) => Callee::Class(method),
            None => Callee::Nothing,
        },
        Meaning::System => Callee::Nothing,
        _ => object_callee(c, base, name, arity),
    }
}

/// What a call with a dot names, where what stands before the dot has the type.
pub fn callee(c: &Context, target: &Expr, base: BaseType, name: NameNo, arity: usize) -> Callee
    ensures { callee_of result
        ≡ spec.callee c.now.program.now c.now.class.0 (scope_in c.now) (placed_view target.now) base
        name.0 arity }
{
    if is_println(c, target, name, arity) {
        return Callee::Println;
    }
    callee_by(c, before_dot(c, target), base, name, arity)
}
