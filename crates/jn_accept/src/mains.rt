//! The one main of a program.
ghost use Rattle.std.specs.Prelude.{◌≡◌, ◌<◌, ◌^◌, length, ℕ, MatchOption, IfSome, slice_get};
ghost use Rattle.jn_accept.specs.Mains.{IsOnlyMain, has_form, is_committed, takes_committed, IsFirst, NoneFrom};

use jn_base::{MethodNo, SlotNo};
use jn_points::{Method, Program};
use jn_quals::Qual;

/// Whether the slot isn't inferred and starts as {C}.
fn is_committed(program: &Program, slot: SlotNo) -> bool
    ensures { result ≡ is_committed (slice_get program.now.slots slot.0) }
{
    match program.slots.as_slice().get(slot.0 as usize) {
        None => false,
        Some(info) => {
            !info.inferred
                && info.start.within(Qual::committed_only())
                && Qual::committed_only().within(info.start)
        }
    }
}

/// Whether there is one parameter, and its slot starts as {C}.
fn takes_committed(program: &Program, slots: &[Option<SlotNo>]) -> bool
    ensures { result ≡ takes_committed program.now slots.now }
{
    match slots {
        [Some(slot)] => is_committed(program, *slot),
        _ => false,
    }
}

/// Whether the method is of the form of a main.
fn has_form(program: &Program, method: &Method) -> bool
    ensures { result ≡ has_form program.now method.now }
{
    method.is_main
        && method.body.is_some()
        && takes_committed(program, method.param_slots.as_slice())
}

/// The first method of the form from a place on.
#[tactic(auto, using(crate::proofs::OneMain::none_more, crate::proofs::OneMain::first_there, crate::proofs::OneMain::none_from))]
fn first_from(program: &Program, place: usize) -> Option<usize>
    ensures first { MatchOption result (NoneFrom program.now place)
        (λ n. IsFirst program.now place n) }
    ensures inside { IfSome result (λ n. n < length program.now.methods) }
{
    let methods = program.methods.as_slice();
    for number in place..methods.len() {
        if has_form(program, &methods[number]) {
            return Some(number);
        }
    }
    None
}

/// The method of the form of a main (JLS 8, 12.1.4), where the program has exactly one: declared `public static void
/// main` with one array of non-null Strings, which itself is neither nullable nor under construction.
#[tactic(auto, using(crate::proofs::OneMain::none_only, crate::proofs::OneMain::one_only, crate::proofs::OneMain::two_mains))]
pub fn only_main(program: &Program) -> Option<MethodNo>
    requires few { length program.now.methods < 2 ^ 32 }
    ensures { MatchOption result ((m : ℕ) → IsOnlyMain program.now m → ⊥)
        (λ m. IsOnlyMain program.now m.0) }
{
    match first_from(program, 0) {
        None => None,
        Some(first) => match first_from(program, first + 1) {
            None => Some(MethodNo(first as u32)),
            Some(_) => None,
        },
    }
}
