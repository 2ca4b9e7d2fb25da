//! The methods that a method overrides, with an index or without one.
ghost use Rattle.std.specs.Prelude.{◌≡◌, ◌<◌, ◌^◌, ◌++◌, ◌∷◌, [], IfOk, OnOk, Some, cond, length};
ghost use Rattle.jn_points.specs.Lookup.{method_at};
ghost use Rattle.jn_transfer.specs.Pairs.{under};

use jn_base::MethodNo;
use jn_index::indexed::IndexedProgram;
use jn_index::overridden::overridden;
use jn_points::{Method, Program, is_pair};
use std::alloc::{AllocError, Global};

/// Adds the number, where it is wanted.
fn push_if(list: &mut Vec<u32>, wanted: bool, number: u32) -> Result<(), AllocError>
    ensures { OnOk result (list.new.items ≡ list.old.items ++ cond wanted (number ∷ []) []) }
{
    if wanted {
        list.push(number)?;
    }
    Ok(())
}

/// Those among all methods, where there is no index.
#[tactic(auto, using(crate::proofs::Gathering::filter_more))]
fn all_under(alloc: Global, program: &Program, m: u32) -> Result<Vec<u32>, AllocError>
    requires few { length program.now.classes < 2 ^ 32 }
    requires methods { length program.now.methods < 2 ^ 32 }
    ensures { IfOk result (λ ks. ks.items ≡ under program.now m) }
{
    let mut list = Vec::new(alloc);
    for k in 0..program.methods.len() {
        let pair = is_pair(program, MethodNo(m), MethodNo(k as u32));
        push_if(&mut list, pair, k as u32)?;
    }
    Ok(list)
}

/// The methods that the method overrides, or must agree with in some class, in rising order.
///
/// # Errors
/// No memory was found.
pub fn under_of(
    alloc: Global,
    program: &IndexedProgram,
    m: u32,
    over: &Method,
) -> Result<Vec<u32>, AllocError>
    requires there { method_at program.now m ≡ Some over.now }
    requires few { length program.now.classes < 2 ^ 32 }
    requires methods { length program.now.methods < 2 ^ 32 }
    ensures { IfOk result (λ ks. ks.items ≡ under program.now m) }
{
    match program.indexed() {
        None => all_under(alloc, program.program(), m),
        Some(indexed) => overridden(alloc, &indexed, m, over),
    }
}
