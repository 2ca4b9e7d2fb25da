//! With what a body begins: the names of its parameters, and so many locals (JLS 6.3 and 8.4.1).
ghost use Rattle.std.specs.Prelude.{◌≡◌, length};
ghost use Rattle.jn_lowering.specs.Bodies as source;
ghost use Rattle.jn_places.specs.PlacedView.{placed_parameters, placed_statements};
ghost use Rattle.jn_points.specs.BaseTyping.{given_bases};
ghost use Rattle.jn_tree_world.specs.Outcomes.{Found};
ghost use Rattle.jn_tree_simple.specs.Standings.{standing_of};
ghost use Rattle.jn_tree_run.specs.Beginning.{begins_in};

use jn_base::MethodNo;
use jn_index::indexed::IndexedProgram;
use jn_lower_stmt::entry::{first_parameter, parameters};
use jn_lower_stmt::registers::all_declared;
use jn_scopes::heads::params_of;
use jn_scopes::members::is_static;
use jn_tree_simple::Standing;
use jn_tree_simple::standing::sum;
use jn_tree_world::Halt;
use jn_trees::{Parameter, Stmt};
use std::alloc::Global;

/// How many locals `this` and the parameters are.
fn given(program: &IndexedProgram, method: MethodNo) -> Result<usize, Halt>
    ensures { Found (λ n. n ≡ length (given_bases program.now method.0)) result }
{
    let count = params_of(program, method).len();
    if is_static(program, method) {
        return Ok(count);
    }
    sum(count, 1)
}

/// Where the first statement of a method's body stands.
pub fn at_entry(
    alloc: Global,
    program: &IndexedProgram,
    method: MethodNo,
    trees: &[Parameter],
) -> Result<Standing, Halt>
    ensures { Found
        (λ st. standing_of st ≡ begins_in program.now method.0 (placed_parameters trees.now))
        result }
{
    let first = first_parameter(program, method);
    match parameters(alloc, first, trees, params_of(program, method)) {
        Err(_) => Err(Halt::OutOfMemory),
        Ok(scope) => {
            let count = given(program, method)?;
            Ok(Standing { scope, count })
        }
    }
}

/// How many locals a method's body has.
pub fn local_count(program: &IndexedProgram, method: MethodNo, body: &[Stmt]) -> Result<usize, Halt>
    ensures { Found
        (λ n. n ≡ source.local_count program.now method.0 (placed_statements body.now)) result }
{
    let count = given(program, method)?;
    match all_declared(body) {
        Err(_) => Err(Halt::OutOfMemory),
        Ok(declared) => sum(count, declared),
    }
}
