//! Operands whose types don't fit.
ghost use Rattle.std.specs.Prelude.{◌≡◌, ◌++◌, OnOk};
ghost use Rattle.jn_type_notes.specs.Mismatched as spec;

use jn_base::{Seq, Span};
use jn_basecheck::types::{Want, suits, suits_otherwise};
use jn_index::indexed::IndexedProgram;
use jn_points::lookup::reg_base;
use jn_points::{BaseType, Operand};
use std::alloc::AllocError;

/// An operand whose type doesn't fit: where it stands, its type, and what is wanted there.
#[derive(Clone, Copy)]
pub struct Mismatch {
    pub span: Span,
    pub found: BaseType,
    pub want: Want,
}

/// Whether the type fits, or all of it but element nullity does.
fn fits_or_otherwise(program: &IndexedProgram, want: Want, base: BaseType) -> bool
    ensures { result ≡ spec.fits_or_otherwise program.now want base }
{
    suits(program, want, base) || suits_otherwise(program, want, base)
}

/// Puts an operand of the body of this number, where its type doesn't fit.
pub(crate) fn operand(
    found: &mut Seq<Mismatch>,
    program: &IndexedProgram,
    body: usize,
    want: Want,
    given: Operand,
) -> Result<(), AllocError>
    ensures { OnOk result
        (found.new ≡ found.old ++ spec.operand_found program.now body want given) }
{
    let base = reg_base(program.program(), body, given.reg);
    if fits_or_otherwise(program, want, base) {
        Ok(())
    } else {
        found.push(Mismatch {
            span: given.span,
            found: base,
            want,
        })
    }
}

/// Puts those of operands that are all wanted to be the same.
pub(crate) fn all(
    found: &mut Seq<Mismatch>,
    program: &IndexedProgram,
    body: usize,
    want: Want,
    operands: &[Operand],
) -> Result<(), AllocError>
    ensures { OnOk result
        (found.new ≡ found.old ++ spec.all_found program.now body want operands.now) }
{
    for given in operands {
        operand(found, program, body, want, *given)?;
    }
    Ok(())
}

/// Puts arguments that aren't within their parameters.
pub(crate) fn arguments(
    found: &mut Seq<Mismatch>,
    program: &IndexedProgram,
    body: usize,
    params: &[BaseType],
    arguments: &[Operand],
) -> Result<(), AllocError>
    ensures { OnOk result
        (found.new ≡ found.old ++ spec.arguments_found program.now body params.now arguments.now) }
{
    for (param, argument) in params.iter().zip(arguments) {
        operand(found, program, body, Want::Within(*param), *argument)?;
    }
    Ok(())
}

/// Puts an operand that may be missing.
pub(crate) fn optional(
    found: &mut Seq<Mismatch>,
    program: &IndexedProgram,
    body: usize,
    want: Want,
    given: Option<Operand>,
) -> Result<(), AllocError>
    ensures { OnOk result
        (found.new ≡ found.old ++ spec.optional_found program.now body want given) }
{
    match given {
        None => Ok(()),
        Some(one) => operand(found, program, body, want, one),
    }
}
