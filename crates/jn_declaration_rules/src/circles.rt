//! T3: classes that are their own supertypes (JLS 8.1.4, 9.1.3).
ghost use Rattle.std.specs.Prelude.{◌≡◌, ◌<◌, ◌+◌, ◌++◌, ◌||◌, ℕ, eqb, false, length, IfOk, IfSome, OnOk, Some};
ghost use Rattle.jn_base.specs.declared.code.Code.TheVariants.{T3};
ghost use Rattle.jn_points.specs.declared.program.Class.{Class as ClassOf};
ghost use Rattle.jn_points.specs.Lookup.{class_info, supers_of};
ghost use Rattle.jn_points.specs.Members.{some_of};
ghost use Rattle.jn_declaration_rules.specs.Rows as spec;
ghost use Rattle.jn_declaration_rules.specs.Ranks as ranks_of;

use crate::components::{labels_above, labels_below, number_at, shared_ranks};
use crate::rows::push_if;
use jn_base::{ClassNo, Code, Row, Seq};
use jn_index::order::find_order;
use jn_points::{Class, Program};
use std::alloc::{AllocError, Global};

fn rises(ranks: &[usize], class: usize, supers: &[ClassNo]) -> bool
    ensures { result ≡ ranks_of.rises ranks.now class supers.now }
{
    let own = number_at(ranks, class);
    for parent in supers {
        if !(number_at(ranks, parent.0 as usize) < own) {
            return true;
        }
    }
    false
}

/// Whether some supertype's rank isn't below its subtype's.
fn some_rises(ranks: &[usize], program: &Program) -> bool
    ensures { result ≡ ranks_of.some_rises ranks.now program.now }
{
    let classes = program.classes.as_slice();
    for (place, class) in classes.iter().enumerate() {
        if rises(ranks, place, class.supers.as_slice()) {
            return true;
        }
    }
    false
}

/// Whether some supertype isn't there, or stands above the class.
fn climbs(ranks: &[usize], count: usize, class: usize, supers: &[ClassNo]) -> bool
    ensures { result ≡ ranks_of.climbs ranks.now count class supers.now }
{
    let own = number_at(ranks, class);
    for parent in supers {
        let place = parent.0 as usize;
        if !(place < count) || own < number_at(ranks, place) {
            return true;
        }
    }
    false
}

/// Whether some supertype isn't there, or stands above its subtype.
fn some_climbs(ranks: &[usize], program: &Program) -> bool
    ensures { result ≡ ranks_of.some_climbs ranks.now program.now }
{
    let classes = program.classes.as_slice();
    for (place, class) in classes.iter().enumerate() {
        if climbs(ranks, classes.len(), place, class.supers.as_slice()) {
            return true;
        }
    }
    false
}

/// The places of classes in an order; what they give is tested before it is relied on.
fn places(alloc: Global, program: &Program, order: &[u32]) -> Result<Vec<usize>, AllocError> {
    let mut ranks = vec![in alloc; 0usize; program.classes.len()]?;
    for place in 0..order.len() {
        let class = order[place] as usize;
        if class < ranks.len() {
            ranks[class] = place;
        }
    }
    Ok(ranks)
}

fn mark_at(marks: &[bool], class: usize) -> bool
    ensures { result ≡ ranks_of.mark_at marks.now class }
{
    if class < marks.len() {
        marks[class]
    } else {
        false
    }
}

fn some_marked(marks: &[bool], supers: &[ClassNo]) -> bool
    ensures { result ≡ some_of (λ s. ranks_of.mark_at marks.now s.0) supers.now }
{
    for parent in supers {
        if mark_at(marks, parent.0 as usize) {
            return true;
        }
    }
    false
}

/// What reaches the target in one step more than what is marked.
fn next_marks(
    alloc: Global,
    program: &Program,
    target: usize,
    marks: &[bool],
) -> Result<Vec<bool>, AllocError>
    requires { target < length program.now.classes }
    ensures { IfOk result (λ next. (v : ℕ)
        → ranks_of.mark_at next.items v
        ≡ (eqb v target
        || some_of (λ s. ranks_of.mark_at marks.now s.0)
        (supers_of (class_info program.now v)))) }
{
    let mut next = Vec::new(alloc);
    let classes = program.classes.as_slice();
    for (place, class) in classes.iter().enumerate() {
        let marked = reaches_next(marks, place, target, class);
        next.push(marked)?;
    }
    Ok(next)
}

fn reaches_next(marks: &[bool], place: usize, target: usize, class: &Class) -> bool
    ensures { result
        ≡ (eqb place target || some_of (λ s. ranks_of.mark_at marks.now s.0) class.now.supers) }
{
    place == target || some_marked(marks, class.supers.as_slice())
}

/// The classes from which the target is reached.
fn reaching(alloc: Global, program: &Program, target: usize) -> Result<Vec<bool>, AllocError>
    requires { target < length program.now.classes }
    ensures { IfOk result (λ marks.
        ranks_of.MarksReaching program.now (length program.now.classes) target marks.items) }
{
    let none = Vec::new(alloc);
    let mut marks = next_marks(alloc, program, target, &none)?;
    for _step in 0..program.classes.len() {
        let next = next_marks(alloc, program, target, &marks)?;
        if marks.as_slice() == next.as_slice() {
            return Ok(marks);
        }
        marks = next;
    }
    Ok(marks)
}

/// Whether the class is its own supertype, by all that reaches it.
fn reaches_itself(
    alloc: Global,
    program: &Program,
    place: usize,
    class: &Class,
) -> Result<bool, AllocError>
    requires { place < length program.now.classes }
    ensures { IfOk result (λ b. b ≡ spec.is_circle program.now place class.now) }
{
    let marks = reaching(alloc, program, place)?;
    Ok(some_marked(&marks, class.supers.as_slice()))
}

fn some_labelled(labels: &[usize], label: usize, supers: &[ClassNo]) -> bool
    ensures { result ≡ ranks_of.some_labelled labels.now label supers.now }
{
    for parent in supers {
        if number_at(labels, parent.0 as usize) == label {
            return true;
        }
    }
    false
}

/// Whether the class is its own supertype, where ranks and labels tell it.
#[tactic(auto, using(crate::proofs::Strong::falling_is_none, crate::proofs::Strong::labelled_is_circle))]
fn told(
    program: &Program,
    ranks: &[usize],
    below: &[usize],
    above: &[usize],
    place: usize,
    class: &Class,
) -> Option<bool>
    requires there { class_info program.now place ≡ Some class.now }
    requires steady { ranks_of.some_climbs ranks.now program.now ≡ false }
    requires below { ranks_of.AreBelow program.now below.now }
    requires above { ranks_of.AreAbove program.now above.now }
    ensures { IfSome result (λ b. b ≡ spec.is_circle program.now place class.now) }
{
    let supers = class.supers.as_slice();
    if !rises(ranks, place, supers) {
        return Some(false);
    }
    let label = number_at(above, place);
    if label > 0 {
        if some_labelled(below, label, supers) {
            return Some(true);
        }
    }
    None
}

/// Whether the class is its own supertype: by ranks and labels, or else by all that reaches it.
fn is_circle(
    alloc: Global,
    program: &Program,
    ranks: &[usize],
    below: &[usize],
    above: &[usize],
    place: usize,
    class: &Class,
) -> Result<bool, AllocError>
    requires inside { place < length program.now.classes }
    requires there { class_info program.now place ≡ Some class.now }
    requires steady { ranks_of.some_climbs ranks.now program.now ≡ false }
    requires below { ranks_of.AreBelow program.now below.now }
    requires above { ranks_of.AreAbove program.now above.now }
    ensures { IfOk result (λ b. b ≡ spec.is_circle program.now place class.now) }
{
    match told(program, ranks, below, above, place, class) {
        Some(circle) => Ok(circle),
        None => reaches_itself(alloc, program, place, class),
    }
}

fn push_circles(
    alloc: Global,
    program: &Program,
    ranks: &[usize],
    below: &[usize],
    above: &[usize],
    rows: &mut Seq<Row>,
) -> Result<(), AllocError>
    requires steady { ranks_of.some_climbs ranks.now program.now ≡ false }
    requires below { ranks_of.AreBelow program.now below.now }
    requires above { ranks_of.AreAbove program.now above.now }
    ensures { OnOk result (rows.new
        ≡ rows.old
        ++ spec.rows_at T3 (λ (x : ClassOf). x.span) (spec.is_circle program.now) 0
        program.now.classes) }
{
    let classes = program.classes.as_slice();
    for (place, class) in classes.iter().enumerate() {
        let circle = is_circle(alloc, program, ranks, below, above, place, class)?;
        push_if(rows, circle, Code::T3, class.span)?;
    }
    Ok(())
}

/// All circles, by a search for each class.
fn push_searched(alloc: Global, program: &Program, rows: &mut Seq<Row>) -> Result<(), AllocError>
    ensures { OnOk result (rows.new
        ≡ rows.old
        ++ spec.rows_at T3 (λ (x : ClassOf). x.span) (spec.is_circle program.now) 0
        program.now.classes) }
{
    let classes = program.classes.as_slice();
    for (place, class) in classes.iter().enumerate() {
        let circle = reaches_itself(alloc, program, place, class)?;
        push_if(rows, circle, Code::T3, class.span)?;
    }
    Ok(())
}

/// The circles of a program that has some, or in which a supertype isn't there.
fn push_found(
    alloc: Global,
    program: &Program,
    order: &[u32],
    places: &[usize],
    rows: &mut Seq<Row>,
) -> Result<(), AllocError>
    ensures { OnOk result (rows.new
        ≡ rows.old
        ++ spec.rows_at T3 (λ (x : ClassOf). x.span) (spec.is_circle program.now) 0
        program.now.classes) }
{
    let below = labels_below(alloc, program, order)?;
    let above = labels_above(alloc, program, &below)?;
    let ranks = shared_ranks(alloc, places, &below)?;
    if some_climbs(&ranks, program) {
        return push_searched(alloc, program, rows);
    }
    push_circles(alloc, program, &ranks, &below, &above, rows)
}

/// Whether places in an order don't fall along supertypes, as where some class is its own supertype. No clause says so.
pub fn seems_circular(alloc: Global, program: &Program) -> Result<bool, AllocError> {
    let order = find_order(alloc, program)?;
    let ranks = places(alloc, program, order.as_slice())?;
    Ok(some_rises(&ranks, program))
}

/// T3: classes that are their own supertypes. Where places in an order fall along supertypes there is none.
#[tactic(auto, using(crate::proofs::Falling::no_circle_rows))]
pub fn circle_rows(alloc: Global, program: &Program, rows: &mut Seq<Row>) -> Result<(), AllocError>
    ensures { OnOk result (rows.new
        ≡ rows.old
        ++ spec.rows_at T3 (λ (x : ClassOf). x.span) (spec.is_circle program.now) 0
        program.now.classes) }
{
    let order = find_order(alloc, program)?;
    let ranks = places(alloc, program, order.as_slice())?;
    if !some_rises(&ranks, program) {
        return Ok(());
    }
    push_found(alloc, program, order.as_slice(), &ranks, rows)
}
