//! Statements to points: a function for each form (JLS 14).
ghost use Rattle.std.specs.Prelude.{OnOk};
ghost use Rattle.jn_base.specs.declared.place.Span.{Span};
ghost use Rattle.jn_places.specs.Placed.{PlacedBlock, PlacedDo, PlacedFor, PlacedForEach, PlacedIf, PlacedWhile};
ghost use Rattle.jn_places.specs.PlacedView.{placed_init, placed_optional, placed_statement, placed_statements, placed_type_use, placed_view, placed_views};
ghost use Rattle.jn_lower_stmt.specs.Stating.{Steps, all_stated, stated};

use crate::each;
use crate::pieces::{
    breaks, continues, effects, evaluated, init, label, local, optional_test, returns,
};
use crate::state::{BodyContext, State, Ways, decide, type_in};
use crate::types::kind_of;
use jn_base::{OutOfMemory, Span};
use jn_lower_expr::emitter::{Emitter, place};
use jn_lower_expr::values::jump;
use jn_scopes::types::has_final;
use jn_trees::{Expr, ForHead, Parameter, Stmt};

/// Statements one after the other (JLS 14.2).
#[cycle(statements)]
pub fn statements(
    trees: &[Stmt],
    c: &BodyContext,
    e: &mut Emitter,
    s: &mut State,
    ways: Ways,
) -> Result<(), OutOfMemory>
    ensures { OnOk result (Steps (all_stated c.now s.old (placed_statements trees.now)) ways.out.0
        ways.again.0 e.old e.new s.new) }
{
    for tree in trees {
        statement(tree, c, e, s, ways)?;
    }
    Ok(())
}

/// A block, after which its names are out of scope (JLS 14.2).
#[cycle(statements)]
fn block(
    trees: &[Stmt],
    span: Span,
    c: &BodyContext,
    e: &mut Emitter,
    s: &mut State,
    ways: Ways,
) -> Result<(), OutOfMemory>
    ensures { OnOk result (Steps
        (stated c.now s.old (PlacedBlock (placed_statements trees.now) span)) ways.out.0
        ways.again.0 e.old e.new s.new) }
{
    let names = s.names();
    statements(trees, c, e, s, ways)?;
    s.leave(names);
    Ok(())
}

/// `if` without `else` (JLS 14.9.1).
#[cycle(statements)]
fn if_then(
    then: &Stmt,
    condition: &Expr,
    span: Span,
    c: &BodyContext,
    e: &mut Emitter,
    s: &mut State,
    ways: Ways,
) -> Result<(), OutOfMemory>
    ensures { OnOk result (Steps
        (stated c.now s.old (PlacedIf (placed_view condition.now) (placed_statement then.now) span))
        ways.out.0 ways.again.0 e.old e.new s.new) }
{
    let outer = s.begin(c.alloc);
    let inside = label(e)?;
    let end = label(e)?;
    decide(condition, c, e, s, inside, end)?;
    place(e, inside)?;
    statement(then, c, e, s, ways)?;
    place(e, end)?;
    s.end(outer);
    Ok(())
}

/// `while`: the condition, the body, and back to the condition (JLS 14.12).
#[cycle(statements)]
fn while_loop(
    body: &Stmt,
    condition: &Expr,
    span: Span,
    c: &BodyContext,
    e: &mut Emitter,
    s: &mut State,
    ways: Ways,
) -> Result<(), OutOfMemory>
    ensures { OnOk result (Steps
        (stated c.now s.old
        (PlacedWhile (placed_view condition.now) (placed_statement body.now) span))
        ways.out.0 ways.again.0 e.old e.new s.new) }
{
    let outer = s.begin(c.alloc);
    let start = label(e)?;
    let inside = label(e)?;
    let end = label(e)?;
    place(e, start)?;
    decide(condition, c, e, s, inside, end)?;
    place(e, inside)?;
    let inner = Ways {
        out: end,
        again: start,
    };
    statement(body, c, e, s, inner)?;
    jump(e, start, span)?;
    place(e, end)?;
    s.end(outer);
    Ok(())
}

/// `do`: the body, and the condition, to which a `continue` goes (JLS 14.13).
#[cycle(statements)]
fn do_loop(
    body: &Stmt,
    condition: &Expr,
    span: Span,
    c: &BodyContext,
    e: &mut Emitter,
    s: &mut State,
    ways: Ways,
) -> Result<(), OutOfMemory>
    ensures { OnOk result (Steps
        (stated c.now s.old (PlacedDo (placed_statement body.now) (placed_view condition.now) span))
        ways.out.0 ways.again.0 e.old e.new s.new) }
{
    let outer = s.begin(c.alloc);
    let start = label(e)?;
    let test = label(e)?;
    let end = label(e)?;
    place(e, start)?;
    let inner = Ways {
        out: end,
        again: test,
    };
    statement(body, c, e, s, inner)?;
    place(e, test)?;
    decide(condition, c, e, s, start, end)?;
    place(e, end)?;
    s.end(outer);
    Ok(())
}

/// `for`: what it begins with, the condition, the body, and the update, to which a `continue` goes (JLS 14.14.1).
#[cycle(statements)]
fn for_loop(
    body: &Stmt,
    head: &ForHead,
    span: Span,
    c: &BodyContext,
    e: &mut Emitter,
    s: &mut State,
    ways: Ways,
) -> Result<(), OutOfMemory>
    ensures { OnOk result (Steps
        (stated c.now s.old (PlacedFor (placed_init head.now.init) (placed_optional head.now.condition)
        (placed_views head.now.update.items) (placed_statement body.now) span))
        ways.out.0 ways.again.0 e.old e.new s.new) }
{
    let outer = s.begin(c.alloc);
    let test = label(e)?;
    let inside = label(e)?;
    let next = label(e)?;
    let end = label(e)?;
    init(&head.init, c, e, s)?;
    place(e, test)?;
    optional_test(&head.condition, c, e, s, inside, end)?;
    place(e, inside)?;
    let inner = Ways {
        out: end,
        again: next,
    };
    statement(body, c, e, s, inner)?;
    place(e, next)?;
    effects(&head.update, c, e, s)?;
    jump(e, test, span)?;
    place(e, end)?;
    s.end(outer);
    Ok(())
}

/// `for` over an array: the array and the index, the test, the element, the body, and the next index, to which a `continue`
/// goes (JLS 14.14.2).
#[cycle(statements)]
fn each_loop(
    body: &Stmt,
    variable: &Parameter,
    array: &Expr,
    c: &BodyContext,
    e: &mut Emitter,
    s: &mut State,
    ways: Ways,
) -> Result<(), OutOfMemory>
    ensures { OnOk result ((span : Span)
        → Steps
        (stated c.now s.old (PlacedForEach variable.now.modifiers.items
        (placed_type_use variable.now.type_use) variable.now.name (placed_view array.now) (placed_statement body.now) span))
        ways.out.0 ways.again.0 e.old e.new s.new) }
{
    let outer = s.begin(c.alloc);
    let test = label(e)?;
    let inside = label(e)?;
    let again = label(e)?;
    let end = label(e)?;
    let reg = s.next()?;
    let base = type_in(array, c, s);
    let at = each::start_with(array, reg, c, e, s)?;
    place(e, test)?;
    each::goes_on(reg, at, c, e, s, inside, end)?;
    place(e, inside)?;
    let kind = kind_of(c.program, &variable.type_use, &variable.modifiers);
    let fixed = has_final(&variable.modifiers);
    each::item(reg, at, base, kind.bound, c, e, s)?;
    s.declare_each(c, base, variable.name.name, kind, fixed)?;
    let inner = Ways { out: end, again };
    statement(body, c, e, s, inner)?;
    place(e, again)?;
    each::moves_on(reg, at, c, e, s)?;
    jump(e, test, at)?;
    place(e, end)?;
    s.end(outer);
    Ok(())
}

/// A statement.
#[cycle(statements)]
pub fn statement(
    tree: &Stmt,
    c: &BodyContext,
    e: &mut Emitter,
    s: &mut State,
    ways: Ways,
) -> Result<(), OutOfMemory>
    ensures { OnOk result (Steps (stated c.now s.old (placed_statement tree.now)) ways.out.0
        ways.again.0 e.old e.new s.new) }
{
    match tree {
        Stmt::Block { statements, span } => {
            block(statements, *span, c, e, s, ways)?;
            Ok(())
        }
        Stmt::Empty { .. } => Ok(()),
        Stmt::Expression { expression, span } => {
            evaluated(expression, *span, c, e, s)?;
            Ok(())
        }
        Stmt::Break { span } => {
            breaks(c, s, *span, e, ways)?;
            Ok(())
        }
        Stmt::Continue { span } => {
            continues(c, s, *span, e, ways)?;
            Ok(())
        }
        Stmt::Return { value, span } => {
            returns(value, *span, c, e, s)?;
            Ok(())
        }
        Stmt::Local { declaration, span } => {
            local(declaration, *span, c, e, s)?;
            Ok(())
        }
        Stmt::If {
            condition,
            then,
            span,
        } => {
            if_then(then, condition, *span, c, e, s, ways)?;
            Ok(())
        }
        Stmt::IfElse {
            condition,
            then,
            otherwise,
            span,
        } => {
            let outer = s.begin(c.alloc);
            let first = label(e)?;
            let second = label(e)?;
            let end = label(e)?;
            decide(condition, c, e, s, first, second)?;
            place(e, first)?;
            statement(then, c, e, s, ways)?;
            jump(e, end, *span)?;
            place(e, second)?;
            statement(otherwise, c, e, s, ways)?;
            place(e, end)?;
            s.end(outer);
            Ok(())
        }
        Stmt::While {
            condition,
            body,
            span,
        } => {
            while_loop(body, condition, *span, c, e, s, ways)?;
            Ok(())
        }
        Stmt::Do {
            body,
            condition,
            span,
        } => {
            do_loop(body, condition, *span, c, e, s, ways)?;
            Ok(())
        }
        Stmt::For { head, body, span } => {
            for_loop(body, head, *span, c, e, s, ways)?;
            Ok(())
        }
        Stmt::ThisCall { .. } => Ok(()),
        Stmt::SuperCall { .. } => Ok(()),
        Stmt::ForEach {
            variable,
            array,
            body,
            ..
        } => {
            each_loop(body, variable, array, c, e, s, ways)?;
            Ok(())
        }
    }
}
