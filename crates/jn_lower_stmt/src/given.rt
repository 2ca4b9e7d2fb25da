//! The types of the registers with which a method's body begins.
ghost use Rattle.std.specs.Prelude.{◌≡◌, ◌∷◌, [], cond, IfOk};
ghost use Rattle.jn_points.specs.BaseTyping as typing;
ghost use Rattle.jn_points.specs.declared.point.BaseType.TheVariants.{Ref};
ghost use Rattle.jn_points.specs.Lookup.{method_at, static_of};
ghost use Rattle.jn_lowering.specs.Bodies as spec;

use jn_base::lists::put;
use jn_base::{MethodNo, OutOfMemory};
use jn_index::indexed::IndexedProgram;
use jn_points::BaseType;
use jn_scopes::heads::{class_of, params_of};
use jn_scopes::members::is_static;
use std::alloc::Global;

fn this_bases(
    alloc: Global,
    program: &IndexedProgram,
    method: MethodNo,
) -> Result<Vec<BaseType>, OutOfMemory>
    ensures { IfOk result (λ bases. bases.items
        ≡ cond (static_of (method_at program.now method.0)) []
        (Ref (record { 0 = spec.class program.now method.0 }) ∷ [])) }
{
    let mut bases = Vec::new(alloc);
    if is_static(program, method) {
        return Ok(bases);
    }
    put(&mut bases, BaseType::Ref(class_of(program, method)))?;
    Ok(bases)
}

/// The types of the registers of `this`, if there is one, and the parameters.
pub fn given_bases(
    alloc: Global,
    program: &IndexedProgram,
    method: MethodNo,
) -> Result<Vec<BaseType>, OutOfMemory>
    ensures { IfOk result (λ bases. bases.items ≡ typing.given_bases program.now method.0) }
{
    let mut bases = this_bases(alloc, program, method)?;
    let params = params_of(program, method);
    for base in params {
        put(&mut bases, *base)?;
    }
    Ok(bases)
}
