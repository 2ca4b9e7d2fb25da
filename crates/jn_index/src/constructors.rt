//! The constructors among the methods of each class.
ghost use Rattle.std.specs.Prelude.{◌≡◌, ℕ, filter, IfOk};
ghost use Rattle.jn_index.specs.Index as spec;
ghost use Rattle.jn_member_tables.specs.Numbers.{list_at};

use jn_base::Seq;
use jn_points::Program;
use jn_points::lookup::method_at;
use std::alloc::{AllocError, Global};

fn is_constructor(program: &Program, k: u32) -> bool
    ensures { result ≡ spec.is_constructor program.now k }
{
    match method_at(program, k as usize) {
        None => false,
        Some(method) => method.ctor,
    }
}

fn constructors_among(
    alloc: Global,
    program: &Program,
    methods: &[u32],
) -> Result<Seq<u32>, AllocError>
    ensures { IfOk result (λ found. found ≡ filter (spec.is_constructor program.now) methods.now) }
{
    let mut found = Seq::new(alloc);
    for method in methods {
        if is_constructor(program, *method) {
            found.push(*method)?;
        }
    }
    Ok(found)
}

/// The constructors of each list.
#[tactic(auto, using(crate::proofs::Constructed::list_mapped))]
pub fn constructors(
    alloc: Global,
    program: &Program,
    own: &[Seq<u32>],
) -> Result<Vec<Seq<u32>>, AllocError>
    ensures { IfOk result (λ lists. (d : ℕ)
        → list_at lists.items d ≡ filter (spec.is_constructor program.now) (list_at own.now d)) }
{
    let mut lists = Vec::new(alloc);
    for methods in own {
        lists.push(constructors_among(alloc, program, methods.as_slice())?)?;
    }
    Ok(lists)
}
