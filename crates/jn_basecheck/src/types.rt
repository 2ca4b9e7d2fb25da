//! What a point wants of an operand, and the rows J7 and J10 at it (JLS 8, 5.1 to 5.3 and 15).
ghost use Rattle.std.specs.Prelude.{◌≡◌, ◌++◌, cond, OnOk};
ghost use Rattle.jn_points.specs.BaseRows as rules;
ghost use Rattle.jn_basecheck.specs.Wanted.{meant};

use jn_base::{Code, Row};
use jn_index::indexed::IndexedProgram;
use jn_points::lookup::{is_array, is_reference, is_string, is_void, reg_base};
use jn_points::{BaseType, Operand};
use std::alloc::AllocError;

/// What a point wants of an operand.
#[derive(Clone, Copy)]
pub enum Want {
    /// A type within the given one.
    Within(BaseType),
    /// An int or a boolean.
    Primitive,
    /// An int where the given type is int, a boolean where it is boolean; else nothing fits.
    Same(BaseType),
    /// Any reference.
    Reference,
    /// An array.
    Elements,
    /// What can be joined to a text: a primitive, a String or null.
    Joinable,
    /// What can be printed: a primitive or a String.
    Printable,
    /// Any value.
    Valued,
}

fn is_primitive(base: BaseType) -> bool
    ensures { result ≡ rules.is_primitive base }
{
    match base {
        BaseType::Int => true,
        BaseType::Bool => true,
        _ => false,
    }
}

fn is_same_primitive(left: BaseType, right: BaseType) -> bool
    ensures { result ≡ rules.same_primitive left right }
{
    match (left, right) {
        (BaseType::Int, BaseType::Int) => true,
        (BaseType::Bool, BaseType::Bool) => true,
        _ => false,
    }
}

fn is_printable(base: BaseType) -> bool
    ensures { result ≡ rules.is_printable base }
{
    is_primitive(base) || is_string(base)
}

fn is_joinable(base: BaseType) -> bool
    ensures { result ≡ rules.is_joinable base }
{
    match base {
        BaseType::Null => true,
        _ => is_printable(base),
    }
}

/// The array type of the other element nullity; another type as it is.
fn other_nullity(base: BaseType) -> BaseType
    ensures { result ≡ rules.other_nullity base }
{
    match base {
        BaseType::Array(elem, nullable) => BaseType::Array(elem, !nullable),
        _ => base,
    }
}

fn is_value_within(program: &IndexedProgram, base: BaseType, wanted: BaseType) -> bool
    ensures { result ≡ rules.suits program.now (rules.Within wanted) base }
{
    !is_void(base) && program.is_sub(base, wanted)
}

/// Whether a type is what is wanted; no value of type void is.
pub fn suits(program: &IndexedProgram, want: Want, base: BaseType) -> bool
    ensures { result ≡ rules.suits program.now (meant want) base }
{
    match want {
        Want::Within(wanted) => is_value_within(program, base, wanted),
        Want::Primitive => is_primitive(base),
        Want::Same(other) => is_same_primitive(other, base),
        Want::Reference => is_reference(base),
        Want::Elements => is_array(base),
        Want::Joinable => is_joinable(base),
        Want::Printable => is_printable(base),
        Want::Valued => !is_void(base),
    }
}

/// Whether a type isn't what is wanted, and the one that differs in element nullity alone is.
pub fn suits_otherwise(program: &IndexedProgram, want: Want, base: BaseType) -> bool
    ensures { result ≡ rules.suits_otherwise program.now (meant want) base }
{
    !suits(program, want, base) && suits(program, want, other_nullity(base))
}

fn code_of(program: &IndexedProgram, want: Want, base: BaseType) -> Code
    ensures { result ≡ cond (rules.suits_otherwise program.now (meant want) base) Code.J10 Code.J7 }
{
    if suits_otherwise(program, want, base) {
        Code::J10
    } else {
        Code::J7
    }
}

/// The row of an operand of the body at a place, where its type does not fit.
///
/// # Errors
/// No memory was found.
pub fn push_operand(
    rows: &mut Vec<Row>,
    program: &IndexedProgram,
    body: usize,
    want: Want,
    operand: Operand,
) -> Result<(), AllocError>
    ensures { OnOk result (rows.new.items
        ≡ rows.old.items ++ rules.operand_rows program.now body (meant want) operand) }
{
    let base = reg_base(program.program(), body, operand.reg);
    if !suits(program, want, base) {
        rows.push(Row {
            span: operand.span,
            code: code_of(program, want, base),
        })?;
    }
    Ok(())
}

/// The rows of operands that are all to be of one kind of type, as those of an array's list.
///
/// # Errors
/// No memory was found.
pub fn push_all(
    rows: &mut Vec<Row>,
    program: &IndexedProgram,
    body: usize,
    want: Want,
    operands: &[Operand],
) -> Result<(), AllocError>
    ensures { OnOk result (rows.new.items
        ≡ rows.old.items ++ rules.all_rows program.now body (meant want) operands.now) }
{
    for operand in operands {
        push_operand(rows, program, body, want, *operand)?;
    }
    Ok(())
}

/// The rows of arguments that are not within their parameters.
///
/// # Errors
/// No memory was found.
pub fn push_arguments(
    rows: &mut Vec<Row>,
    program: &IndexedProgram,
    body: usize,
    params: &[BaseType],
    arguments: &[Operand],
) -> Result<(), AllocError>
    ensures { OnOk result (rows.new.items
        ≡ rows.old.items ++ rules.argument_rows program.now body params.now arguments.now) }
{
    for (param, argument) in params.iter().zip(arguments) {
        push_operand(rows, program, body, Want::Within(*param), *argument)?;
    }
    Ok(())
}

/// The row of an operand that may be missing.
///
/// # Errors
/// No memory was found.
pub fn push_optional(
    rows: &mut Vec<Row>,
    program: &IndexedProgram,
    body: usize,
    want: Want,
    operand: Option<Operand>,
) -> Result<(), AllocError>
    ensures { OnOk result (rows.new.items
        ≡ rows.old.items ++ rules.optional_rows program.now body (meant want) operand) }
{
    match operand {
        None => Ok(()),
        Some(operand) => push_operand(rows, program, body, want, operand),
    }
}
