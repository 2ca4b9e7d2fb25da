//! The state in which a body begins (JLS 8.4.1 and 6.3).
ghost use Rattle.std.specs.Prelude.{◌≡◌, ◌+◌, [], None, IfOk};
ghost use Rattle.jn_lowering.specs.Bodies as spec;
ghost use Rattle.jn_lowering.specs.Locals as local;
ghost use Rattle.jn_lower_stmt.specs.Views.{declared_local};
ghost use Rattle.jn_places.specs.PlacedView.{placed_parameters};

use crate::given::given_bases;
use crate::names::{Declared, Names};
use crate::state::State;
use jn_base::{MethodNo, OutOfMemory, RegNo};
use jn_index::indexed::IndexedProgram;
use jn_points::BaseType;
use jn_scopes::heads::params_of;
use jn_scopes::members::is_static;
use jn_scopes::types::has_final;
use jn_trees::Parameter;
use std::alloc::Global;

fn register(first: usize, at: usize) -> Result<RegNo, OutOfMemory>
    ensures { IfOk result (λ reg. reg.0 ≡ first + at) }
{
    match first.checked_add(at) {
        Some(number) => {
            if number < 0xFFFF_FFFF {
                Ok(RegNo(number as u32))
            } else {
                Err(OutOfMemory)
            }
        }
        None => Err(OutOfMemory),
    }
}

fn parameter(tree: &Parameter, reg: RegNo, base: BaseType) -> Declared
    ensures { declared_local result
        ≡ record {
          name = tree.now.name.name.0;
          reg = reg.0;
          base = base;
          bound = None;
          fixed = local.has_final tree.now.modifiers.items;
          faults = [];
        } }
{
    Declared {
        name: tree.name.name,
        reg,
        base,
        bound: None,
        fixed: has_final(&tree.modifiers),
        fault: None,
    }
}

/// The parameters with registers from the first one on; of two of one name the first one counts.
///
/// # Errors
/// No memory was found, or a register's number doesn't fit.
pub fn parameters(
    alloc: Global,
    first: usize,
    trees: &[Parameter],
    bases: &[BaseType],
) -> Result<Names, OutOfMemory>
    ensures { IfOk result
        (λ names. names ≡ local.parameters_from first (placed_parameters trees.now) bases.now) }
{
    let mut names = Names::new(alloc);
    let mut at = trees.len().min(bases.len());
    while at > 0 {
        at -= 1;
        let reg = register(first, at)?;
        names.add(parameter(&trees[at], reg, bases[at]))?;
    }
    Ok(names)
}

/// The first parameter's register: `this` has the first one of a method that isn't static.
pub fn first_parameter(program: &IndexedProgram, method: MethodNo) -> usize
    ensures { result ≡ spec.first_parameter program.now method.0 }
{
    if is_static(program, method) { 0 } else { 1 }
}

/// The state in which the method's body begins.
pub fn at_entry(
    alloc: Global,
    program: &IndexedProgram,
    method: MethodNo,
    trees: &[Parameter],
) -> Result<State, OutOfMemory>
    ensures { IfOk result
        (λ s. s ≡ spec.at_entry program.now method.0 (placed_parameters trees.now)) }
{
    let first = first_parameter(program, method);
    let names = parameters(alloc, first, trees, params_of(program, method))?;
    let locals = given_bases(alloc, program, method)?;
    Ok(State::new(alloc, names, locals))
}
