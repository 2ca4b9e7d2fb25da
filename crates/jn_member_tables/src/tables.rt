//! For each class a table of what is found along its walk (JLS 8, 8.2): its own entries, then those of its parent, then
//! those of its interfaces. A table keeps its parent's by reference, so that a chain of classes costs no more than its entries.
ghost use Rattle.std.specs.Prelude.{◌≡◌, ◌<◌, ◌≤◌, ◌^◌, ◌∷◌, [], ℕ, length, Option, Some, None, true, false, MatchOption, IfOk, OnOk, IfSome};
ghost use Rattle.jn_points.specs.Members as members;
ghost use Rattle.jn_points.specs.Regular.{RegularClasses};
ghost use Rattle.jn_member_tables.specs.Numbers.{contains};
ghost use Rattle.jn_member_tables.specs.Nodes as nodes_spec;
ghost use Rattle.jn_member_tables.specs.Nodes.{Closed, keys};
ghost use Rattle.jn_member_tables.specs.Along as along;
ghost use Rattle.jn_member_tables.specs.Tables as spec;

use crate::nodes::{self, Node, collect, merge, put};
use jn_base::{ClassNo, Seq};
use jn_points::lookup::class_at;
use jn_points::members::is_class;
use jn_points::{Class, Program};
use std::alloc::{AllocError, Global};
use std::marker::Model;

/// A value at a key.
#[derive(Clone, Copy)]
pub struct Entry {
    pub key: u32,
    pub value: u32,
}

/// For each class a table. Contracts see the trees.
#[derive(Drop)]
pub struct Tables {
    height: usize,
    nodes: Vec<Node>,
    roots: Vec<Option<u32>>,
}

impl Model for Tables {
    ghost use Rattle.jn_member_tables.specs.Nodes.{Closed};
    ghost use Rattle.jn_member_tables.specs.Tables.{Trees};

    ghost Value = { Trees };

    ghost view = { λ t. record { height = t.height; nodes = t.nodes.items; roots = t.roots.items } };

    ghost invariant = { λ t. Closed t.nodes.items };
}

/// The height of a tree with at least so many keys.
fn height_of(count: usize) -> usize
    requires { count < 2 ^ 33 }
    ensures many { count ≤ keys result }
    ensures low { result ≤ count }
{
    if count <= 1 {
        return 0;
    }
    height_of((count + 1) / 2) + 1
}

fn root_at(roots: &[Option<u32>], class: u32) -> Option<u32>
    ensures { result ≡ along.root_at roots.now class }
{
    let place = class as usize;
    if place < roots.len() {
        roots[place]
    } else {
        None
    }
}

fn root_or(root: Option<u32>) -> u32
    ensures { result ≡ spec.root_or root }
{
    match root {
        None => 0,
        Some(root) => root,
    }
}

fn entries_at(own: &[Seq<Entry>], class: u32) -> &[Entry]
    ensures { result.now ≡ spec.entries_at own.now class }
{
    let place = class as usize;
    if place < own.len() {
        own[place].as_slice()
    } else {
        &[]
    }
}

/// Puts entries into the tree of a node, the first ones last.
fn put_all(
    nodes: &mut Vec<Node>,
    height: usize,
    number: u32,
    entries: &[Entry],
) -> Result<u32, AllocError>
    requires closed { Closed nodes.old.items }
    requires there { number < length nodes.old.items }
    requires small { spec.SmallKeys (keys height) entries.now }
    ensures { IfOk result
        (λ r. spec.IsOver nodes.old.items nodes.new.items height number entries.now r) }
{
    let mut root = number;
    for step in 0..entries.len() {
        let entry = entries[entries.len() - 1 - step];
        root = put(nodes, height, root, entry.key, entry.value)?;
    }
    Ok(root)
}

/// Adds what the classes that aren't the parent have.
fn merge_others(
    nodes: &mut Vec<Node>,
    height: usize,
    number: u32,
    roots: &[Option<u32>],
    parent: Option<ClassNo>,
    supers: &[ClassNo],
) -> Result<u32, AllocError>
    requires closed { Closed nodes.old.items }
    requires there { number < length nodes.old.items }
    requires inside { (c r : ℕ) → along.root_at roots.now c ≡ Some r → r < length nodes.old.items }
    ensures { IfOk result (λ r.
        spec.IsBeside nodes.old.items nodes.new.items height number roots.now parent supers.now r) }
{
    let mut root = number;
    for class in supers {
        if is_class(parent, *class) {
            continue;
        }
        let other = root_or(root_at(roots, class.0));
        root = merge(nodes, height, root, other)?;
    }
    Ok(root)
}

fn parent_root(roots: &[Option<u32>], parent: Option<ClassNo>) -> u32
    ensures { result ≡ spec.parent_root roots.now parent }
{
    match parent {
        None => 0,
        Some(class) => root_or(root_at(roots, class.0)),
    }
}

/// The tree of a class whose supertypes have theirs.
fn join(
    nodes: &mut Vec<Node>,
    height: usize,
    roots: &[Option<u32>],
    info: &Class,
    entries: &[Entry],
) -> Result<u32, AllocError>
    requires closed { Closed nodes.old.items }
    requires inside { (c r : ℕ) → along.root_at roots.now c ≡ Some r → r < length nodes.old.items }
    requires small { spec.SmallKeys (keys height) entries.now }
    ensures { IfOk result (λ r.
        spec.IsJoined nodes.old.items nodes.new.items height roots.now info.now entries.now r) }
{
    let first = parent_root(roots, info.parent);
    let above = merge_others(
        nodes,
        height,
        first,
        roots,
        info.parent,
        info.supers.as_slice(),
    )?;
    let root = put_all(nodes, height, above, entries)?;
    Ok(root)
}

fn has_root(roots: &[Option<u32>], class: u32) -> bool
    ensures { result ≡ along.has_root roots.now class }
{
    match root_at(roots, class) {
        None => false,
        Some(_) => true,
    }
}

fn all_rooted(roots: &[Option<u32>], supers: &[ClassNo]) -> bool
    ensures { result ≡ along.all_rooted roots.now supers.now }
{
    for class in supers {
        if !has_root(roots, class.0) {
            return false;
        }
    }
    true
}

fn names(parent: ClassNo, supers: &[ClassNo]) -> bool
    ensures { result ≡ members.some_of (λ s. members.is_class (Some parent) s) supers.now }
{
    for class in supers {
        if parent.0 == class.0 {
            return true;
        }
    }
    false
}

fn names_parent(parent: Option<ClassNo>, supers: &[ClassNo]) -> bool
    ensures { result ≡ along.names_parent parent supers.now }
{
    match parent {
        None => true,
        Some(class) => names(class, supers),
    }
}

/// Whether all supertypes have their trees, and the parent is one of them.
fn is_ready(roots: &[Option<u32>], info: &Class) -> bool
    ensures { result ≡ along.is_ready roots.now info.now }
{
    let supers = info.supers.as_slice();
    all_rooted(roots, supers) && names_parent(info.parent, supers)
}

/// Gives a class its tree, where it has none and its supertypes have theirs.
#[tactic(auto, using(crate::proofs::Filled::roots_inside))]
fn add_tree(
    program: &Program,
    own: &[Seq<Entry>],
    height: usize,
    nodes: &mut Vec<Node>,
    roots: &mut Vec<Option<u32>>,
    class: u32,
) -> Result<(), AllocError>
    requires { spec.AreTrees program.now own.now height nodes.old.items roots.old.items }
    ensures are { OnOk result
        (spec.AreTrees program.now own.now height nodes.new.items roots.new.items) }
    ensures kept { OnOk result (along.Keeps roots.old.items roots.new.items) }
    ensures ready { OnOk result (along.GetsRoot program.now roots.old.items roots.new.items class) }
{
    let place = class as usize;
    if place >= roots.len() || has_root(roots.as_slice(), class) {
        return Ok(());
    }
    let Some(info) = class_at(program, place) else {
        return Ok(());
    };
    if !is_ready(roots.as_slice(), info) {
        return Ok(());
    }
    let root = join(
        nodes,
        height,
        roots.as_slice(),
        info,
        entries_at(own, class),
    )?;
    roots[place] = Some(root);
    Ok(())
}

/// Gives trees to the classes in an order.
fn add_in_order(
    program: &Program,
    own: &[Seq<Entry>],
    height: usize,
    nodes: &mut Vec<Node>,
    roots: &mut Vec<Option<u32>>,
    order: &[u32],
) -> Result<(), AllocError>
    requires { spec.AreTrees program.now own.now height nodes.old.items roots.old.items }
    ensures { OnOk result
        (spec.AreTrees program.now own.now height nodes.new.items roots.new.items) }
{
    for class in order {
        add_tree(program, own, height, nodes, roots, *class)?;
    }
    Ok(())
}

/// Gives trees to all classes whose supertypes have theirs.
fn add_round(
    program: &Program,
    own: &[Seq<Entry>],
    height: usize,
    nodes: &mut Vec<Node>,
    roots: &mut Vec<Option<u32>>,
) -> Result<(), AllocError>
    requires few { length program.now.classes < 2 ^ 32 }
    requires are { spec.AreTrees program.now own.now height nodes.old.items roots.old.items }
    ensures are { OnOk result
        (spec.AreTrees program.now own.now height nodes.new.items roots.new.items) }
    ensures ready { OnOk result ((c : ℕ) → c < length roots.old.items
        → along.GetsRoot program.now roots.old.items roots.new.items c) }
{
    for place in 0..program.classes.len() {
        add_tree(program, own, height, nodes, roots, place as u32)?;
    }
    Ok(())
}

/// Gives trees in rounds until each class has one. Where the order had supertypes first there is
/// nothing left to do.
#[tactic(auto, using(crate::proofs::Rounds::lower_rooted, crate::proofs::Rounds::all_rooted_end))]
fn add_others(
    program: &Program,
    own: &[Seq<Entry>],
    height: usize,
    nodes: &mut Vec<Node>,
    roots: &mut Vec<Option<u32>>,
) -> Result<(), AllocError>
    requires few { length program.now.classes < 2 ^ 32 }
    requires are { spec.AreTrees program.now own.now height nodes.old.items roots.old.items }
    ensures are { OnOk result
        (spec.AreTrees program.now own.now height nodes.new.items roots.new.items) }
    ensures all { OnOk result
        (RegularClasses program.now → along.AllRooted program.now roots.new.items) }
{
    for _round in 0..program.classes.len() {
        if all_there(roots.as_slice()) {
            return Ok(());
        }
        add_round(program, own, height, nodes, roots)?;
    }
    Ok(())
}

/// Whether each class has its tree.
fn all_there(roots: &[Option<u32>]) -> bool
    ensures all { result ≡ true → (c : ℕ) → c < length roots.now
        → along.has_root roots.now c ≡ true }
    ensures missing { result ≡ false
        → (c : ℕ) × (c < length roots.now) × (along.has_root roots.now c ≡ false) }
{
    for root in roots {
        if root.is_none() {
            return false;
        }
    }
    true
}

fn one_node(alloc: Global) -> Result<Vec<Node>, AllocError>
    ensures { IfOk result (λ nodes. nodes.items ≡ nodes_spec.no_node ∷ []) }
{
    let mut nodes = Vec::new(alloc);
    nodes.push(nodes::no_node())?;
    Ok(nodes)
}

fn no_roots(alloc: Global, count: usize) -> Result<Vec<Option<u32>>, AllocError>
    ensures long { IfOk result (λ roots. length roots.items ≡ count) }
    ensures none { IfOk result (λ roots. (c : ℕ) → along.root_at roots.items c ≡ None) }
{
    let mut roots = Vec::new(alloc);
    for _class in 0..count {
        roots.push(None)?;
    }
    Ok(roots)
}

/// The tables of the classes by their own entries, best in an order that has supertypes first; none only where a class
/// is its own supertype, or names one that isn't there.
///
/// # Errors
/// No memory was found, or numbers of 32 bits aren't enough for the nodes.
#[tactic(auto, using(crate::proofs::Rounds::no_trees, crate::proofs::Rounds::are_table, crate::proofs::Rounds::not_all))]
pub fn find_tables(
    alloc: Global,
    program: &Program,
    order: &[u32],
    own: &[Seq<Entry>],
    count: usize,
) -> Result<Option<Tables>, AllocError>
    requires few { length program.now.classes < 2 ^ 32 }
    requires keys { count < 2 ^ 33 }
    requires small { (c : ℕ) → spec.SmallKeys count (spec.entries_at own.now c) }
    ensures is { IfOk result (λ o. IfSome o (λ t. spec.IsTable program.now own.now count t)) }
    ensures none { IfOk result
        (λ o. MatchOption o (RegularClasses program.now → ⊥) (λ t. Unit {0})) }
{
    let height = height_of(count);
    let mut nodes = one_node(alloc)?;
    let mut roots = no_roots(alloc, program.classes.len())?;
    add_in_order(program, own, height, &mut nodes, &mut roots, order)?;
    add_others(program, own, height, &mut nodes, &mut roots)?;
    if !all_there(roots.as_slice()) {
        return Ok(None);
    }
    Ok(Some(Tables {
        height,
        nodes,
        roots,
    }))
}

impl Tables {
    /// What the table of a class has for a key.
    pub fn find(&self, class: u32, key: u32) -> Option<u32>
        ensures { result ≡ spec.find_in self.now class key }
    {
        let root = root_or(root_at(self.roots.as_slice(), class));
        nodes::find(self.nodes.as_slice(), self.height, root, key)
    }

    /// All values of the table of a class.
    ///
    /// # Errors
    /// No memory was found.
    pub fn values(&self, alloc: Global, class: u32) -> Result<Vec<u32>, AllocError>
        ensures { IfOk result (λ values.
            (k v : ℕ) → spec.find_in self.now class k ≡ Some v → contains values.items v ≡ true) }
    {
        let mut values = Vec::new(alloc);
        let root = root_or(root_at(self.roots.as_slice(), class));
        collect(&mut values, self.nodes.as_slice(), self.height, root)?;
        Ok(values)
    }
}
