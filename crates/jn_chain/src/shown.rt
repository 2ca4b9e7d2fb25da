//! What is told of a chain: how many steps, and those of them that are shown.
ghost use Rattle.std.specs.Prelude.{◌≡◌, ◌-◌, ◌+◌, ◌++◌, ◌∷◌, [], ℕ, List, IfOk, cond, length, take};
ghost use Rattle.jn_reasons_law.specs.declared.item.Step.{Step};
ghost use Rattle.jn_reasons_law.specs.Choice as choice;
ghost use Rattle.jn_chain.specs.Told.{is_slot, shown, told_of};

use jn_base::{OutOfMemory, Seq};
use jn_reasons_law::{Item, Step};
use std::alloc::{AllocError, Global};

/// How many steps of a chain are told: where slots have their bits from, and the end; and those of them that are shown, the first ones and the last.
#[derive(Drop)]
pub struct Told {
    pub count: usize,
    pub shown: Seq<Step>,
}

fn is_slot(item: Item) -> bool
    ensures { result ≡ is_slot item }
{
    match item {
        Item::AtSlot(_, _) => true,
        Item::AtRegister(_, _, _, _) => false,
    }
}

/// Whether a step is told before others of which so many are: it is the last one, or a slot's.
fn is_told(step: Step, behind: usize) -> bool
    ensures { (steps : List Step) → behind ≡ length (choice.told steps)
        → choice.told (step ∷ steps) ≡ cond result (step ∷ []) [] ++ choice.told steps }
{
    if behind == 0 {
        return true;
    }
    is_slot(step.item)
}

/// One less, where there is one.
fn less(number: usize) -> usize
    ensures { result ≡ number - 1 }
{
    if number == 0 { 0 } else { number - 1 }
}

/// So many of the steps at most.
fn first_steps(most: usize, steps: &[Step]) -> &[Step]
    ensures { result.now ≡ take most steps.now }
{
    if steps.len() <= most {
        steps
    } else {
        &steps[..most]
    }
}

/// Those of the steps that are shown, where so many are at most.
fn shown_of(alloc: Global, most: usize, steps: &[Step]) -> Result<Vec<Step>, AllocError>
    ensures { IfOk result (λ list. list.items ≡ shown most steps.now) }
{
    let last = less(steps.len());
    let mut list = Vec::from_slice(alloc, first_steps(less(most), &steps[..last]))?;
    list.extend_from_slice(&steps[last..])?;
    Ok(list)
}

/// The same with a step before them.
fn shown_with(
    alloc: Global,
    most: usize,
    step: Step,
    behind: &[Step],
) -> Result<Vec<Step>, AllocError>
    ensures { IfOk result (λ list. list.items ≡ shown most (step ∷ behind.now)) }
{
    let mut steps = Vec::from_slice(alloc, &[step])?;
    steps.extend_from_slice(behind)?;
    shown_of(alloc, most, &steps)
}

/// What is told of no steps.
pub fn nothing_told(alloc: Global) -> Told
    ensures { (most : ℕ) → result ≡ told_of most [] }
{
    Told {
        count: 0,
        shown: Seq::new(alloc),
    }
}

/// The step is told, before what is told behind it.
fn told_before(alloc: Global, most: usize, step: Step, behind: &Told) -> Result<Told, OutOfMemory>
    ensures count { IfOk result (λ told. told.count ≡ behind.now.count + 1) }
    ensures shown { IfOk result (λ told. told.shown ≡ shown most (step ∷ behind.now.shown)) }
{
    if behind.count == usize::MAX {
        return Err(OutOfMemory);
    }
    let list = shown_with(alloc, most, step, behind.shown.as_slice())?;
    Ok(Told {
        count: behind.count + 1,
        shown: Seq::of_vec(list),
    })
}

/// The step isn't told, what is told behind it is.
fn told_behind(alloc: Global, behind: &Told) -> Result<Told, AllocError>
    ensures { IfOk result (λ told. told ≡ behind.now) }
{
    let list = Vec::from_slice(alloc, behind.shown.as_slice())?;
    Ok(Told {
        count: behind.count,
        shown: Seq::of_vec(list),
    })
}

/// What is told of a chain by one step more before others of which it is known what is told, where so many steps are shown at most.
///
/// # Errors
/// No memory was found.
pub fn told_with(alloc: Global, most: usize, step: Step, behind: &Told) -> Result<Told, OutOfMemory>
    ensures { IfOk result (λ told. (steps : List Step)
        → behind.now ≡ told_of most steps → told ≡ told_of most (step ∷ steps)) }
{
    if is_told(step, behind.count) {
        let told = told_before(alloc, most, step, behind)?;
        return Ok(told);
    }
    let same = told_behind(alloc, behind)?;
    Ok(same)
}
