//! The classes whose methods overriding and bodies ask for.
ghost use Rattle.std.specs.Prelude.{◌≡◌};
ghost use Rattle.jn_points.specs.Members as members;
ghost use Rattle.jn_index.specs.Busy as spec;

use crate::index::list_at;
use jn_base::Seq;
use jn_points::lookup::method_at;
use jn_points::members::is_named;
use jn_points::{Method, Program};

/// Whether this is another method of the method's name and arity.
pub fn is_other(program: &Program, m: u32, over: &Method, k: u32) -> bool
    ensures { result ≡ spec.is_other program.now m over.now k }
{
    if m == k {
        return false;
    }
    match method_at(program, k as usize) {
        None => false,
        Some(method) => is_named(method, over.name, over.params.len()),
    }
}

fn some_other(program: &Program, m: u32, over: &Method, numbers: &[u32]) -> bool
    ensures { result ≡ members.some_of (spec.is_other program.now m over.now) numbers.now }
{
    for number in numbers {
        if is_other(program, m, over, *number) {
            return true;
        }
    }
    false
}

/// Whether the method is no constructor, and another one has its name and arity.
pub fn has_other(program: &Program, named: &[Seq<u32>], m: u32, over: &Method) -> bool
    ensures { result ≡ spec.has_other program.now named.now m over.now }
{
    !over.ctor && some_other(program, m, over, list_at(named, over.name.0))
}

fn is_busy_method(program: &Program, named: &[Seq<u32>], k: u32) -> bool
    ensures { result ≡ spec.is_busy_method program.now named.now k }
{
    match method_at(program, k as usize) {
        None => false,
        Some(method) => method.is_abstract || has_other(program, named, k, method),
    }
}

fn some_busy(program: &Program, named: &[Seq<u32>], methods: &[u32]) -> bool
    ensures { result ≡ members.some_of (spec.is_busy_method program.now named.now) methods.now }
{
    for k in methods {
        if is_busy_method(program, named, *k) {
            return true;
        }
    }
    false
}

/// Whether the class declares an abstract method, or one of which another has the name and arity.
pub fn is_busy(program: &Program, own: &[Seq<u32>], named: &[Seq<u32>], class: u32) -> bool
    ensures { result ≡ spec.is_busy program.now own.now named.now class }
{
    some_busy(program, named, list_at(own, class))
}
