//! Overriding pairs (JLS 8, 8.4.8 and 9.4.1).
ghost use Rattle.std.specs.Prelude.{◌≡◌, ◌<◌, ◌^◌, ◌&&◌, length};
ghost use Rattle.jn_points.specs.Members as spec;

use crate::lookup::{is_interface, method_at};
use crate::members::{is_named, is_subclass, method_for};
use crate::program::{Method, Program};
use jn_base::{ClassNo, MethodNo, either};

fn is_number(found: Option<usize>, number: usize) -> bool
    ensures { result ≡ spec.is_number found number }
{
    match found {
        None => false,
        Some(other) => other == number,
    }
}

/// Whether a class that is no interface has or inherits the one method where a supertype declares
/// the other.
fn class_pair(program: &Program, m: usize, over: &Method, under: &Method, class: ClassNo) -> bool
    ensures { result ≡ spec.class_pair program.now m over.now under.now class.0 }
{
    !is_interface(program, class)
        && is_number(method_for(program, class, over.name, over.params.len()), m)
        && is_subclass(program, class, under.owner)
}

#[tactic(auto, using(crate::proofs::Below::some_below_more))]
fn some_class_pairs(program: &Program, m: usize, over: &Method, under: &Method) -> bool
    requires few { length program.now.classes < 2 ^ 32 }
    ensures { result
        ≡ spec.some_of (spec.class_pair program.now m over.now under.now)
        (spec.below (length program.now.classes)) }
{
    let mut some = false;
    for class in 0..program.classes.len() {
        some = either(
            some,
            class_pair(program, m, over, under, ClassNo(class as u32)),
        );
    }
    some
}

fn class_pairs(program: &Program, m: usize, k: usize, over: &Method, under: &Method) -> bool
    requires few { length program.now.classes < 2 ^ 32 }
    ensures { result ≡ spec.class_pairs program.now m k over.now under.now }
{
    m != k && !under.is_private && !under.is_static && some_class_pairs(program, m, over, under)
}

fn interface_pairs(program: &Program, over: &Method, under: &Method) -> bool
    ensures { result ≡ spec.interface_pairs program.now over.now under.now }
{
    is_interface(program, over.owner)
        && is_interface(program, under.owner)
        && over.owner.0 != under.owner.0
        && is_subclass(program, over.owner, under.owner)
}

/// Whether the first method overrides the second, or must agree with it in some class.
pub fn is_pair(program: &Program, m: MethodNo, k: MethodNo) -> bool
    requires few { length program.now.classes < 2 ^ 32 }
    ensures { result ≡ spec.is_pair program.now m.0 k.0 }
{
    let Some(over) = method_at(program, m.0 as usize) else {
        return false;
    };
    let Some(under) = method_at(program, k.0 as usize) else {
        return false;
    };
    !over.ctor
        && is_named(under, over.name, over.params.len())
        && (class_pairs(program, m.0 as usize, k.0 as usize, over, under)
            || interface_pairs(program, over, under))
}
