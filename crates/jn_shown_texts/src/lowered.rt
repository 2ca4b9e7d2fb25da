//! The points of an expression that stands in a program without members, or its rows.
use crate::outcome::LIMIT;
use jn_base::{ClassNo, OutOfMemory, Row, Seq};
use jn_index::indexed::IndexedProgram;
use jn_lower_expr::emitter::{Emitter, fresh};
use jn_lower_expr::temporaries::Temporaries;
use jn_lower_rows::setting::Setting;
use jn_parse_expr::parse_expr;
use jn_points::{Operand, Program};
use jn_program::expressions::{lower_cond, lower_expr};
use jn_scopes::{Context, Variables};
use jn_trees::{DEEPEST, Expr, Token};
use std::alloc::Global;

/// In a method's body.
const BODY: Setting = Setting {
    this_stands: true,
    own_fields: false,
};

/// A program in which nothing is declared.
fn nothing(alloc: Global) -> Result<IndexedProgram, OutOfMemory> {
    let program = Program {
        classes: Seq::new(alloc),
        fields: Seq::new(alloc),
        methods: Seq::new(alloc),
        bodies: Seq::new(alloc),
        slots: Seq::new(alloc),
    };
    match IndexedProgram::new(alloc, program)? {
        Some(program) => Ok(program),
        None => Err(OutOfMemory),
    }
}

fn no_points(alloc: Global) -> Emitter {
    Emitter {
        points: Vec::new(alloc),
        labels: Vec::new(alloc),
    }
}

/// The codes of the rows.
fn codes_text(alloc: Global, rows: &[Row]) -> Result<String, OutOfMemory> {
    let mut text = String::new(alloc);
    for row in rows {
        text.push_str(row.code.name())?;
        text.push_str(" ")?;
    }
    Ok(text)
}

/// How many points there are, and the register of the operand; or the rows.
fn value_text(
    alloc: Global,
    found: Option<Operand>,
    emitter: &Emitter,
    rows: &[Row],
) -> Result<String, OutOfMemory> {
    match found {
        None => codes_text(alloc, rows),
        Some(operand) => {
            let points = emitter.points.len();
            let register = operand.reg.0;
            Ok(format!(in alloc; "{points} points, register {register}")?)
        }
    }
}

fn tree_value(alloc: Global, program: &IndexedProgram, tree: &Expr) -> Result<String, OutOfMemory> {
    let scope = Variables::new(alloc);
    let context = Context {
        program,
        scope: &scope,
        faults: &[],
        class: ClassNo(0),
        first: 0,
        alloc,
    };
    let mut emitter = no_points(alloc);
    let mut temporaries = Temporaries::new(alloc);
    let mut rows = Seq::new(alloc);
    let found = lower_expr(
        tree,
        &context,
        BODY,
        &mut emitter,
        &mut temporaries,
        &mut rows,
    )?;
    value_text(alloc, found, &emitter, rows.as_slice())
}

fn tree_condition(
    alloc: Global,
    program: &IndexedProgram,
    tree: &Expr,
) -> Result<String, OutOfMemory> {
    let scope = Variables::new(alloc);
    let context = Context {
        program,
        scope: &scope,
        faults: &[],
        class: ClassNo(0),
        first: 0,
        alloc,
    };
    let mut emitter = no_points(alloc);
    let mut temporaries = Temporaries::new(alloc);
    let mut rows = Seq::new(alloc);
    let yes = fresh(&mut emitter)?;
    let no = fresh(&mut emitter)?;
    let (e, t) = (&mut emitter, &mut temporaries);
    if lower_cond(tree, &context, BODY, e, t, yes, no, &mut rows)? {
        let points = emitter.points.len();
        return Ok(format!(in alloc; "{points} points")?);
    }
    codes_text(alloc, rows.as_slice())
}

/// The points of the longest expression as a value or, where it is one, as a condition; or its rows.
pub fn lowered_text(
    alloc: Global,
    tokens: &[Token],
    is_condition: bool,
) -> Result<String, OutOfMemory> {
    if tokens.len() > LIMIT {
        return Ok(String::from_str(alloc, "too long")?);
    }
    let program = nothing(alloc)?;
    match parse_expr(alloc, tokens, 0, DEEPEST)? {
        None => Ok(String::from_str(alloc, "none")?),
        Some((tree, _)) => {
            if is_condition {
                tree_condition(alloc, &program, &tree)
            } else {
                tree_value(alloc, &program, &tree)
            }
        }
    }
}
