//! Rows of the class table that look at one item at a time.
ghost use Rattle.std.specs.Prelude.{◌≡◌, ◌<◌, ◌+◌, ◌++◌, ◌∷◌, ◌||◌, [], cond, OnOk, None, Some};
ghost use Rattle.jn_points.specs.declared.program.Class.{Class as ClassOf};
ghost use Rattle.jn_points.specs.declared.program.Method.{Method as MethodOf};
ghost use Rattle.jn_base.specs.declared.code.Code.TheVariants.{T6, T9};
ghost use Rattle.jn_declaration_rules.specs.Rows as spec;

use jn_base::{ClassNo, Code, Row, Seq, Span};
use jn_points::lookup::class_at;
use jn_points::{Method, Program};
use std::alloc::AllocError;

/// Adds a row where it is wanted.
pub fn push_if(rows: &mut Seq<Row>, wanted: bool, code: Code, span: Span) -> Result<(), AllocError>
    ensures { OnOk result
        (rows.new ≡ rows.old ++ cond wanted (record { span = span; code = code } ∷ []) []) }
{
    if wanted {
        rows.push(Row { span, code })?;
    }
    Ok(())
}

fn final_parent(program: &Program, parent: Option<ClassNo>) -> bool
    ensures { result ≡ spec.final_parent program.now parent }
{
    match parent {
        None => false,
        Some(class) => match class_at(program, class.0 as usize) {
            None => false,
            Some(info) => info.is_final,
        },
    }
}

/// T9: a class under String or a final class.
pub fn final_rows(program: &Program, rows: &mut Seq<Row>) -> Result<(), AllocError>
    ensures { OnOk result (rows.new
        ≡ rows.old
        ++ spec.rows_at T9 (λ (x : ClassOf). x.span)
        (λ c x. spec.final_parent program.now x.parent) 0 program.now.classes) }
{
    for class in program.classes.as_slice() {
        push_if(
            rows,
            final_parent(program, class.parent),
            Code::T9,
            class.span,
        )?;
    }
    Ok(())
}

fn is_bad_abstract(method: &Method) -> bool
    ensures { result ≡ spec.is_bad_abstract method.now }
{
    let has_body = method.body.is_some();
    if method.is_abstract {
        has_body || method.is_private || method.is_static || method.is_final
    } else {
        !has_body
    }
}

/// T6: a method that is wrongly abstract, or wrongly not.
pub fn abstract_rows(program: &Program, rows: &mut Seq<Row>) -> Result<(), AllocError>
    ensures { OnOk result (rows.new
        ≡ rows.old
        ++ spec.rows_at T6 (λ (x : MethodOf). x.span) (λ m x. spec.is_bad_abstract x) 0
        program.now.methods) }
{
    for method in program.methods.as_slice() {
        push_if(rows, is_bad_abstract(method), Code::T6, method.span)?;
    }
    Ok(())
}
