//! What a body begins with: its parameters in scope (JLS 8.4.1).
ghost use Rattle.std.specs.Prelude.{◌≡◌, ◌≤◌, [], drop, length, IfOk};
ghost use Rattle.jn_points.specs.Lookup.{method_at, params_of};
ghost use Rattle.jn_places.specs.PlacedView.{placed_parameters};
ghost use Rattle.jn_lowering.specs.Bodies as bodies;
ghost use Rattle.jn_lowering.specs.Locals.{has_final, parameters_from};
ghost use Rattle.jn_scopes.specs.Views.{local_of, scope_of};
ghost use Rattle.jn_lower_rows.specs.Standing.{AllWithin, Stands, WellKept, plain};

use crate::standing::{Names, put};
use jn_base::{MethodNo, RegNo};
use jn_index::indexed::IndexedProgram;
use jn_points::BaseType;
use jn_scopes::heads::params_of;
use jn_scopes::types::has_final;
use jn_scopes::{Faults, Variable, Variables};
use jn_trees::Parameter;
use std::alloc::{AllocError, Global};

/// A body: its method in the program.
#[derive(Clone, Copy)]
pub struct Whole<'a> {
    pub program: &'a IndexedProgram,
    pub method: MethodNo,
    pub alloc: Global,
}

/// No names.
pub fn no_names(alloc: Global) -> Names
    ensures { (result.scope ≡ []) × (result.faults.items ≡ []) }
{
    Names {
        scope: Variables::new(alloc),
        faults: Vec::new(alloc),
    }
}

fn parameter_of(parameter: &Parameter, base: BaseType) -> Variable
    ensures local { local_of [] result
        ≡ record {
          name = parameter.now.name.name.0;
          reg = 0;
          base = base;
          bound = None;
          fixed = has_final parameter.now.modifiers.items;
          faults = [];
        } }
    ensures within { result.faults.to ≤ 0 }
{
    Variable {
        name: parameter.name.name,
        reg: RegNo(0),
        base,
        bound: None,
        fixed: has_final(&parameter.modifiers),
        faults: Faults { from: 0, to: 0 },
    }
}

/// How many parameters have a type.
fn typed(parameters: &[Parameter], bases: &[BaseType]) -> usize
    ensures parameters { result ≤ length parameters.now }
    ensures bases { result ≤ length bases.now }
    ensures all { parameters_from 0 (placed_parameters (drop result parameters.now))
        (drop result bases.now)
        ≡ [] }
{
    if parameters.len() < bases.len() {
        parameters.len()
    } else {
        bases.len()
    }
}

/// The first parameter stands last.
fn parameter_scope(
    alloc: Global,
    parameters: &[Parameter],
    bases: &[BaseType],
) -> Result<Variables, AllocError>
    ensures { IfOk result (λ vs. (scope_of [] vs
        ≡ plain (parameters_from 0 (placed_parameters parameters.now) bases.now))
        × AllWithin 0 vs) }
{
    let mut scope = Variables::new(alloc);
    let mut left = typed(parameters, bases);
    while left > 0 {
        left -= 1;
        put(&mut scope, parameter_of(&parameters[left], bases[left]))?;
    }
    Ok(scope)
}

fn entry_scope(whole: &Whole, parameters: &[Parameter]) -> Result<Variables, AllocError>
    ensures { IfOk result (λ vs. (scope_of [] vs
        ≡ plain (parameters_from 0 (placed_parameters parameters.now)
        (params_of (method_at whole.now.program.now whole.now.method.0))))
        × AllWithin 0 vs) }
{
    let bases = params_of(whole.program, whole.method);
    parameter_scope(whole.alloc, parameters, bases)
}

/// The names in scope where a body begins.
pub fn entry(whole: &Whole, parameters: &[Parameter]) -> Result<Names, AllocError>
    ensures { IfOk result (λ names. Stands
        (bodies.at_entry whole.now.program.now whole.now.method.0
        (placed_parameters parameters.now))
        names
        × WellKept names) }
{
    Ok(Names {
        scope: entry_scope(whole, parameters)?,
        faults: Vec::new(whole.alloc),
    })
}
