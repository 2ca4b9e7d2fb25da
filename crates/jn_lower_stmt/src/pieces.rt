//! Statements without others in them (JLS 14.4, 14.8 and 14.17).
ghost use Rattle.std.specs.Prelude.{◌≡◌, IfOk, OnOk};
ghost use Rattle.jn_lowering.specs.Locals as local;
ghost use Rattle.jn_lowering.specs.Statements as spec;
ghost use Rattle.jn_scopes.specs.Views.{bound_of};
ghost use Rattle.jn_places.specs.PlacedView.{placed_declarator, placed_declarators, placed_init, placed_local, placed_optional, placed_view, placed_views};
ghost use Rattle.jn_places.specs.Placed.{PlacedBreak, PlacedContinue, PlacedExpression, PlacedLocalStatement, PlacedReturn};
ghost use Rattle.jn_lower_stmt.specs.Views.{rows_of};
ghost use Rattle.jn_lower_stmt.specs.Stating.{Made, Steps, StepsOn, TestsIn, stated};

use crate::state::{BodyContext, LocalKind, State, Ways, decide, evaluate};
use crate::types::kind_of;
use jn_base::{OutOfMemory, PointNo, RegNo, Span};
use jn_lower_expr::emitter::{Emitter, fresh};
use jn_lower_expr::places::qualifier;
use jn_lower_expr::values::{jump, step};
use jn_points::PointKind;
use jn_scopes::forms::span_of;
use jn_scopes::types::has_final;
use jn_trees::{Declarator, Expr, ForInit, LocalDeclaration};

/// A new label.
#[tactic(auto, using(crate::proofs::Labelling::made))]
pub fn label(e: &mut Emitter) -> Result<PointNo, OutOfMemory>
    ensures { IfOk result (λ l. Made l.0 e.old e.new) }
{
    let label = fresh(e)?;
    Ok(label)
}

/// From the first place through the end of the second.
pub fn through(first: Span, last: Span) -> Span
    ensures { result ≡ spec.through first last }
{
    Span {
        file: first.file,
        from: first.from,
        to: last.to,
    }
}

/// Expressions for their effects, one after the other (JLS 14.8 and 14.14.1).
pub fn effects(
    trees: &[Expr],
    c: &BodyContext,
    e: &mut Emitter,
    s: &mut State,
) -> Result<(), OutOfMemory>
    ensures { OnOk result (StepsOn
        (spec.effects c.now.program.now c.now.class.0 c.now.first s.old (placed_views trees.now))
        e.old e.new s.new) }
{
    for tree in trees {
        evaluate(tree, c, e, s)?;
    }
    Ok(())
}

/// A return (JLS 14.17).
pub fn returned(
    value: &Option<Box<Expr>>,
    span: Span,
    c: &BodyContext,
    e: &mut Emitter,
    s: &mut State,
) -> Result<(), OutOfMemory>
    ensures { OnOk result (StepsOn
        (spec.returned c.now.program.now c.now.class.0 c.now.first span s.old
        (placed_optional value.now))
        e.old e.new s.new) }
{
    match value {
        None => {
            step(e, PointKind::Return { value: None }, span)?;
            Ok(())
        }
        Some(tree) => {
            let given = evaluate(tree, c, e, s)?;
            step(e, PointKind::Return { value: Some(given) }, span)?;
            Ok(())
        }
    }
}

/// The local in the register gets its first value (JLS 14.4.2).
fn initialize(
    name: Span,
    reg: RegNo,
    kind: LocalKind,
    value: &Option<Box<Expr>>,
    c: &BodyContext,
    e: &mut Emitter,
    s: &mut State,
) -> Result<(), OutOfMemory>
    ensures { OnOk result (StepsOn
        (spec.initialized c.now.program.now c.now.class.0 c.now.first name reg.0
        (bound_of kind.bound) s.old (placed_optional value.now))
        e.old e.new s.new) }
{
    match value {
        None => Ok(()),
        Some(tree) => {
            let given = evaluate(tree, c, e, s)?;
            let kind = PointKind::Move {
                dst: reg,
                from: given,
                bound: qualifier(kind.bound),
            };
            step(e, kind, through(name, span_of(tree)))?;
            Ok(())
        }
    }
}

fn has_value(declarator: &Declarator) -> bool
    ensures { result ≡ local.has_value (placed_declarator declarator.now) }
{
    declarator.value.is_some()
}

/// One declared local.
fn declarator(
    kind: LocalKind,
    is_final: bool,
    tree: &Declarator,
    c: &BodyContext,
    e: &mut Emitter,
    s: &mut State,
) -> Result<(), OutOfMemory>
    ensures { OnOk result (StepsOn
        (spec.declarator c.now.program.now c.now.class.0 c.now.first kind.base (bound_of kind.bound)
        is_final (rows_of kind.fault) s.old (placed_declarator tree.now))
        e.old e.new s.new) }
{
    let reg = s.next()?;
    s.declare(c, tree.name.name, kind, is_final && has_value(tree))?;
    initialize(tree.name.span, reg, kind, &tree.value, c, e, s)?;
    Ok(())
}

fn declarators(
    kind: LocalKind,
    is_final: bool,
    trees: &[Declarator],
    c: &BodyContext,
    e: &mut Emitter,
    s: &mut State,
) -> Result<(), OutOfMemory>
    ensures { OnOk result (StepsOn
        (spec.declarators c.now.program.now c.now.class.0 c.now.first kind.base
        (bound_of kind.bound) is_final (rows_of kind.fault) s.old
        (placed_declarators trees.now))
        e.old e.new s.new) }
{
    for tree in trees {
        declarator(kind, is_final, tree, c, e, s)?;
    }
    Ok(())
}

/// A declaration of locals (JLS 14.4).
pub fn declaration(
    tree: &LocalDeclaration,
    c: &BodyContext,
    e: &mut Emitter,
    s: &mut State,
) -> Result<(), OutOfMemory>
    ensures { OnOk result (StepsOn
        (spec.declaration c.now.program.now c.now.class.0 c.now.first s.old (placed_local tree.now))
        e.old e.new s.new) }
{
    let kind = kind_of(c.program, &tree.type_use, &tree.modifiers);
    let is_final = has_final(&tree.modifiers);
    declarator(kind, is_final, &tree.first, c, e, s)?;
    declarators(kind, is_final, &tree.more, c, e, s)?;
    Ok(())
}

/// What a `for` begins with (JLS 14.14.1).
pub fn init(
    tree: &ForInit,
    c: &BodyContext,
    e: &mut Emitter,
    s: &mut State,
) -> Result<(), OutOfMemory>
    ensures { OnOk result (StepsOn
        (spec.init c.now.program.now c.now.class.0 c.now.first s.old (placed_init tree.now)) e.old
        e.new s.new) }
{
    match tree {
        ForInit::Expressions(trees) => {
            effects(trees, c, e, s)?;
            Ok(())
        }
        ForInit::Declaration(local) => {
            declaration(local, c, e, s)?;
            Ok(())
        }
    }
}

/// A condition that need not be written; where it isn't, the loop goes on (JLS 14.14.1).
pub fn optional_test(
    tree: &Option<Box<Expr>>,
    c: &BodyContext,
    e: &mut Emitter,
    s: &mut State,
    yes: PointNo,
    no: PointNo,
) -> Result<(), OutOfMemory>
    ensures { OnOk result (TestsIn
        (spec.optional_test c.now.program.now c.now.class.0 c.now.first s.old
        (placed_optional tree.now))
        s.old yes.0 no.0 e.old e.new s.new) }
{
    match tree {
        None => Ok(()),
        Some(tree) => {
            decide(tree, c, e, s, yes, no)?;
            Ok(())
        }
    }
}

/// An expression as a statement (JLS 14.8).
pub fn evaluated(
    tree: &Expr,
    span: Span,
    c: &BodyContext,
    e: &mut Emitter,
    s: &mut State,
) -> Result<(), OutOfMemory>
    ensures { OnOk result (StepsOn
        (stated c.now s.old (PlacedExpression (placed_view tree.now) span)) e.old e.new s.new) }
{
    let outer = s.begin(c.alloc);
    evaluate(tree, c, e, s)?;
    s.end(outer);
    Ok(())
}

/// `break` (JLS 14.15).
pub fn breaks(
    c: &BodyContext,
    s: &State,
    span: Span,
    e: &mut Emitter,
    ways: Ways,
) -> Result<(), OutOfMemory>
    ensures { OnOk result
        (Steps (stated c.now s.now (PlacedBreak span)) ways.out.0 ways.again.0 e.old e.new s.now) }
{
    jump(e, ways.out, span)?;
    Ok(())
}

/// `continue` (JLS 14.16).
pub fn continues(
    c: &BodyContext,
    s: &State,
    span: Span,
    e: &mut Emitter,
    ways: Ways,
) -> Result<(), OutOfMemory>
    ensures { OnOk result (Steps (stated c.now s.now (PlacedContinue span)) ways.out.0 ways.again.0
        e.old e.new s.now) }
{
    jump(e, ways.again, span)?;
    Ok(())
}

/// `return` as a statement (JLS 14.17).
pub fn returns(
    value: &Option<Box<Expr>>,
    span: Span,
    c: &BodyContext,
    e: &mut Emitter,
    s: &mut State,
) -> Result<(), OutOfMemory>
    ensures { OnOk result (StepsOn
        (stated c.now s.old (PlacedReturn (placed_optional value.now) span)) e.old e.new s.new) }
{
    let outer = s.begin(c.alloc);
    returned(value, span, c, e, s)?;
    s.end(outer);
    Ok(())
}

/// A declaration of locals as a statement (JLS 14.4).
pub fn local(
    tree: &LocalDeclaration,
    span: Span,
    c: &BodyContext,
    e: &mut Emitter,
    s: &mut State,
) -> Result<(), OutOfMemory>
    ensures { OnOk result (StepsOn
        (stated c.now s.old (PlacedLocalStatement (placed_local tree.now) span)) e.old e.new
        s.new) }
{
    let outer = s.begin(c.alloc);
    declaration(tree, c, e, s)?;
    s.keep(outer);
    Ok(())
}
