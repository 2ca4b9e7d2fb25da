//! A body of a program, from its trees.
ghost use Rattle.std.specs.Prelude.{◌≡◌, ◌+◌, IfOk};
ghost use Rattle.jn_lowering.specs.Bodies as spec;
ghost use Rattle.jn_lowering.specs.Locals.{all_declared};
ghost use Rattle.jn_places.specs.PlacedView.{placed_statements};
ghost use Rattle.jn_lower_stmt.specs.Sources.{source_of};

use crate::body::{Source, whole};
use crate::entry::at_entry;
use crate::registers::all_declared;
use crate::resolve::resolve;
use crate::state::BodyContext;
use jn_base::{OutOfMemory, Seq};
use jn_index::indexed::IndexedProgram;
use jn_lower_expr::emitter::Emitter;
use jn_points::Body;
use jn_scopes::heads::class_of;
use jn_trees::Stmt;
use std::alloc::Global;

/// How many registers `this`, parameters and locals take, where so many are given.
fn local_count(given: u32, body: &[Stmt]) -> Result<u32, OutOfMemory>
    ensures { IfOk result (λ n. n ≡ given + all_declared (placed_statements body.now)) }
{
    let declared = all_declared(body)?;
    match (given as usize).checked_add(declared) {
        Some(all) => {
            if all < 0xFFFF_FFFF {
                Ok(all as u32)
            } else {
                Err(OutOfMemory)
            }
        }
        None => Err(OutOfMemory),
    }
}

/// The body of a method or constructor of the program, from its trees: its points, and the types of its registers, those of
/// `this`, parameters and locals first (JLS 8.4.7, 8.8.7, 12.5 and 14).
///
/// The only error is want of memory; more than 2^32 - 2 points, labels or registers in one body count as that.
pub fn lower_body(
    alloc: Global,
    program: &IndexedProgram,
    source: &Source,
) -> Result<Body, OutOfMemory>
    ensures { IfOk result (λ body. body ≡ spec.body_of_source program.now (source_of source.now)) }
{
    let mut s = at_entry(alloc, program, source.method, source.parameters)?;
    let given = s.next()?;
    let first = local_count(given.0, source.body)?;
    let c = BodyContext {
        program,
        class: class_of(program, source.method),
        first,
        alloc,
    };
    let mut e = Emitter {
        points: Vec::new(alloc),
        labels: Vec::new(alloc),
    };
    whole(source, &c, &mut e, &mut s)?;
    let regs = s.into_registers()?;
    let Emitter { points, labels } = e;
    let points = resolve(alloc, points, &labels)?;
    Ok(Body {
        method: source.method,
        regs: Seq::of_vec(regs),
        locals: first,
        points: Seq::of_vec(points),
    })
}
