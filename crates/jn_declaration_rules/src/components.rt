//! Classes that reach each other along supertypes (JLS 8.1.4, 9.1.3), by two searches (the strongly connected components of
//! Kosaraju). What the searches say is relied on only where each label was given along a supertype; what they leave out is
//! searched for by who asks.
ghost use Rattle.std.specs.Prelude.{◌≡◌, ◌<◌, length, slice_index, Some, IfOk};
ghost use Rattle.jn_points.specs.Lookup.{class_info};
ghost use Rattle.jn_declaration_rules.specs.Ranks as spec;

use jn_base::lists::{empty_lists, push_at};
use jn_base::{ClassNo, Seq};
use jn_points::lookup::class_at;
use jn_points::{Class, Program};
use std::alloc::{AllocError, Global};

/// What a list says of a class; 0 past its end.
pub fn number_at(numbers: &[usize], class: usize) -> usize
    ensures { result ≡ slice_index numbers.now class }
{
    if class < numbers.len() {
        numbers[class]
    } else {
        0
    }
}

fn names_one(supers: &[ClassNo], parent: usize) -> bool
    ensures { result ≡ spec.names_one parent supers.now }
{
    for class in supers {
        if class.0 as usize == parent {
            return true;
        }
    }
    false
}

fn names_super(program: &Program, class: usize, parent: usize) -> bool
    ensures { result ≡ spec.names_super program.now class parent }
{
    match class_at(program, class) {
        None => false,
        Some(info) => names_one(info.supers.as_slice(), parent),
    }
}

/// The classes that name each class as a supertype.
fn subtypes(alloc: Global, program: &Program) -> Result<Vec<Seq<u32>>, AllocError> {
    let mut lists = empty_lists(alloc, program.classes.len())?;
    let classes = program.classes.as_slice();
    for (place, class) in classes.iter().enumerate() {
        push_subtype(&mut lists, place, class.supers.as_slice())?;
    }
    Ok(lists)
}

fn push_subtype(
    lists: &mut Vec<Seq<u32>>,
    class: usize,
    supers: &[ClassNo],
) -> Result<(), AllocError> {
    for parent in supers {
        let at = parent.0 as usize;
        if at < lists.len() && class < 4_294_967_296 {
            push_at(lists, at, class as u32)?;
        }
    }
    Ok(())
}

fn subtypes_at(lists: &[Seq<u32>], class: usize) -> &[u32] {
    if class < lists.len() {
        lists[class].as_slice()
    } else {
        &[]
    }
}

fn queued(queue: &[usize], next: usize) -> Option<usize> {
    queue.get(next).copied()
}

/// Labels a class with itself, where it has no label.
#[tactic(auto, using(crate::proofs::Strong::below_start))]
fn start_below(program: &Program, labels: &mut [usize], class: usize) -> bool
    requires { spec.AreBelow program.now labels.old }
    ensures { spec.AreBelow program.now labels.new }
{
    if class < labels.len() {
        if labels[class] == 0 {
            labels[class] = class + 1;
            return true;
        }
    }
    false
}

/// Labels a class like a supertype of its own, where it has no label.
#[tactic(auto, using(crate::proofs::Strong::below_more))]
fn label_below(program: &Program, labels: &mut [usize], class: usize, parent: usize) -> bool
    requires { spec.AreBelow program.now labels.old }
    ensures { spec.AreBelow program.now labels.new }
{
    if class < labels.len() {
        if labels[class] == 0 {
            if names_super(program, class, parent) {
                labels[class] = number_at(labels, parent);
                return true;
            }
        }
    }
    false
}

/// Labels the subtypes of a class like it.
fn meet_subtypes(
    program: &Program,
    found: &[u32],
    labels: &mut [usize],
    queue: &mut Vec<usize>,
    class: usize,
) -> Result<(), AllocError>
    requires { spec.AreBelow program.now labels.old }
    ensures { spec.AreBelow program.now labels.new }
{
    for at in found {
        if label_below(program, labels, *at as usize, class) {
            queue.push(*at as usize)?;
        }
    }
    Ok(())
}

/// Labels like a class all that reach it and have no label.
fn spread_below(
    alloc: Global,
    program: &Program,
    lists: &[Seq<u32>],
    labels: &mut [usize],
    class: usize,
) -> Result<(), AllocError>
    requires { spec.AreBelow program.now labels.old }
    ensures { spec.AreBelow program.now labels.new }
{
    let mut queue = Vec::new(alloc);
    queue.push(class)?;
    for next in 0..labels.len() {
        match queued(&queue, next) {
            None => break,
            Some(at) => {
                meet_subtypes(program, subtypes_at(lists, at), labels, &mut queue, at)?;
            }
        }
    }
    Ok(())
}

/// Labels each class, from the last of an order on.
fn label_all_below(
    alloc: Global,
    program: &Program,
    lists: &[Seq<u32>],
    labels: &mut [usize],
    order: &[u32],
) -> Result<(), AllocError>
    requires { spec.AreBelow program.now labels.old }
    ensures { spec.AreBelow program.now labels.new }
{
    for place in 0..order.len() {
        let class = order[order.len() - 1 - place] as usize;
        if start_below(program, labels, class) {
            spread_below(alloc, program, lists, labels, class)?;
        }
    }
    Ok(())
}

#[tactic(auto, using(crate::proofs::Strong::none_below, crate::proofs::Strong::none_above))]
fn no_labels(alloc: Global, program: &Program) -> Result<Vec<usize>, AllocError>
    ensures below { IfOk result (λ labels. spec.AreBelow program.now labels.items) }
    ensures above { IfOk result (λ labels. spec.AreAbove program.now labels.items) }
{
    vec![in alloc; 0usize; program.classes.len()]
}

/// For each class one more than the number of a class that it reaches: one class for all that reach each other, where
/// the order has supertypes first.
pub fn labels_below(
    alloc: Global,
    program: &Program,
    order: &[u32],
) -> Result<Vec<usize>, AllocError>
    ensures { IfOk result (λ labels. spec.AreBelow program.now labels.items) }
{
    let lists = subtypes(alloc, program)?;
    let mut labels = no_labels(alloc, program)?;
    label_all_below(alloc, program, &lists, &mut labels, order)?;
    Ok(labels)
}

/// Labels a class with itself, where it has no label.
#[tactic(auto, using(crate::proofs::Strong::above_start))]
fn start_above(program: &Program, labels: &mut [usize], class: usize) -> bool
    requires { spec.AreAbove program.now labels.old }
    ensures { spec.AreAbove program.now labels.new }
{
    if class < labels.len() {
        if labels[class] == 0 {
            labels[class] = class + 1;
            return true;
        }
    }
    false
}

/// Labels a supertype like its class, where it has no label.
#[tactic(auto, using(crate::proofs::Strong::above_more))]
fn label_above(
    program: &Program,
    labels: &mut [usize],
    class: usize,
    info: &Class,
    place: usize,
) -> bool
    requires place { place < length info.now.supers }
    requires there { class_info program.now class ≡ Some info.now }
    requires above { spec.AreAbove program.now labels.old }
    ensures { spec.AreAbove program.now labels.new }
{
    let parent = info.supers.as_slice()[place].0 as usize;
    if parent < labels.len() {
        if labels[parent] == 0 {
            labels[parent] = number_at(labels, class);
            return true;
        }
    }
    false
}

/// Labels like a class those of its supertypes that reach it.
fn meet_supers(
    program: &Program,
    below: &[usize],
    labels: &mut [usize],
    queue: &mut Vec<usize>,
    class: usize,
    info: &Class,
) -> Result<(), AllocError>
    requires there { class_info program.now class ≡ Some info.now }
    requires above { spec.AreAbove program.now labels.old }
    ensures { spec.AreAbove program.now labels.new }
{
    let supers = info.supers.as_slice();
    for place in 0..supers.len() {
        let parent = supers[place].0 as usize;
        if number_at(below, parent) == number_at(below, class)
            && label_above(program, labels, class, info, place)
        {
            queue.push(parent)?;
        }
    }
    Ok(())
}

fn meet_above(
    program: &Program,
    below: &[usize],
    labels: &mut [usize],
    queue: &mut Vec<usize>,
    class: usize,
) -> Result<(), AllocError>
    requires { spec.AreAbove program.now labels.old }
    ensures { spec.AreAbove program.now labels.new }
{
    match class_at(program, class) {
        None => Ok(()),
        Some(info) => meet_supers(program, below, labels, queue, class, info),
    }
}

/// Labels like a class all that it reaches and that reach it.
fn spread_above(
    alloc: Global,
    program: &Program,
    below: &[usize],
    labels: &mut [usize],
    class: usize,
) -> Result<(), AllocError>
    requires { spec.AreAbove program.now labels.old }
    ensures { spec.AreAbove program.now labels.new }
{
    let mut queue = Vec::new(alloc);
    queue.push(class)?;
    for next in 0..labels.len() {
        match queued(&queue, next) {
            None => break,
            Some(at) => meet_above(program, below, labels, &mut queue, at)?,
        }
    }
    Ok(())
}

fn label_all_above(
    alloc: Global,
    program: &Program,
    below: &[usize],
    labels: &mut [usize],
) -> Result<(), AllocError>
    requires { spec.AreAbove program.now labels.old }
    ensures { spec.AreAbove program.now labels.new }
{
    for class in 0..below.len() {
        if below[class] == class + 1 && start_above(program, labels, class) {
            spread_above(alloc, program, below, labels, class)?;
        }
    }
    Ok(())
}

/// For each class one more than the number of a class that reaches it: the one that it reaches by the other labels.
pub fn labels_above(
    alloc: Global,
    program: &Program,
    below: &[usize],
) -> Result<Vec<usize>, AllocError>
    ensures { IfOk result (λ labels. spec.AreAbove program.now labels.items) }
{
    let mut labels = no_labels(alloc, program)?;
    label_all_above(alloc, program, below, &mut labels)?;
    Ok(labels)
}

fn rank_of_label(ranks: &[usize], label: usize) -> usize {
    if label == 0 {
        0
    } else {
        number_at(ranks, label - 1)
    }
}

/// Each class with the rank of the class of its label; what they give is tested before it is relied on.
pub fn shared_ranks(
    alloc: Global,
    ranks: &[usize],
    labels: &[usize],
) -> Result<Vec<usize>, AllocError> {
    let mut shared = Vec::new(alloc);
    for label in labels {
        shared.push(rank_of_label(ranks, *label))?;
    }
    Ok(shared)
}
