//! Persistent tables in one list of nodes that only grows.
ghost use Rattle.std.specs.Prelude.{◌≡◌, ◌<◌, ◌++◌, ◌∷◌, [], ℕ, true, Some, length, IfOk, OnOk};
ghost use Rattle.jn_member_tables.specs.Numbers.{contains};
ghost use Rattle.jn_member_tables.specs.Nodes as spec;

use std::alloc::AllocError;

/// A node of a tree: at height 0 a value, above it two sides.
#[derive(Clone, Copy)]
pub struct Node {
    pub left: u32,
    pub right: u32,
    pub value: Option<u32>,
}

/// The empty tree.
pub fn no_node() -> Node
    ensures { result ≡ spec.no_node }
{
    Node {
        left: 0,
        right: 0,
        value: None,
    }
}

fn node_at(nodes: &[Node], number: u32) -> Node
    ensures { result ≡ spec.node_at nodes.now number }
{
    let place = number as usize;
    if place < nodes.len() {
        nodes[place]
    } else {
        no_node()
    }
}

fn side(right: bool, node: Node) -> u32
    ensures { result ≡ spec.side right node }
{
    if right { node.right } else { node.left }
}

/// What the tree of a height below a node has for a key.
pub fn find(nodes: &[Node], height: usize, number: u32, key: u32) -> Option<u32>
    ensures { result ≡ spec.find nodes.now height number key }
{
    if height == 0 {
        return node_at(nodes, number).value;
    }
    let child = side(key % 2 == 1, node_at(nodes, number));
    find(nodes, height - 1, child, key / 2)
}

/// Adds a node, and returns its number.
fn add(nodes: &mut Vec<Node>, node: Node) -> Result<u32, AllocError>
    ensures number { IfOk result (λ n. n ≡ length nodes.old.items) }
    ensures added { OnOk result (nodes.new.items ≡ nodes.old.items ++ node ∷ []) }
{
    let number = nodes.len();
    if number > u32::MAX as usize {
        return Err(AllocError);
    }
    nodes.push(node)?;
    Ok(number as u32)
}

fn leaf(value: u32) -> Node
    ensures { result ≡ record { left = 0; right = 0; value = Some value } }
{
    Node {
        left: 0,
        right: 0,
        value: Some(value),
    }
}

fn with_side(right: bool, node: Node, child: u32) -> Node
    ensures { result ≡ spec.with_side right node child }
{
    if right {
        Node {
            left: node.left,
            right: child,
            value: None,
        }
    } else {
        Node {
            left: child,
            right: node.right,
            value: None,
        }
    }
}

/// The tree of a height below a node, with a value put at a key; the trees that were there are kept.
///
/// # Errors
/// No memory was found, or numbers of 32 bits aren't enough for the nodes.
#[tactic(auto, using(crate::proofs::Puts::put_leaf, crate::proofs::Puts::put_side, crate::proofs::Puts::side_there))]
pub fn put(
    nodes: &mut Vec<Node>,
    height: usize,
    number: u32,
    key: u32,
    value: u32,
) -> Result<u32, AllocError>
    requires closed { spec.Closed nodes.old.items }
    requires there { number < length nodes.old.items }
    ensures { IfOk result
        (λ r. spec.IsPut nodes.old.items nodes.new.items height number key value r) }
{
    if height == 0 {
        let added = add(nodes, leaf(value))?;
        return Ok(added);
    }
    let right = key % 2 == 1;
    let node = node_at(nodes.as_slice(), number);
    let child = put(nodes, height - 1, side(right, node), key / 2, value)?;
    let added = add(nodes, with_side(right, node, child))?;
    Ok(added)
}

fn with_value(node: Node, first: u32, second: u32) -> u32
    ensures { result ≡ spec.with_value node.value first second }
{
    match node.value {
        None => second,
        Some(_) => first,
    }
}

/// The tree of the first node with what that of the second one has for other keys.
///
/// # Errors
/// No memory was found, or numbers of 32 bits aren't enough for the nodes.
#[tactic(auto, using(crate::proofs::Puts::merge_second, crate::proofs::Puts::merge_first, crate::proofs::Puts::merge_leaf, crate::proofs::Puts::merge_sides))]
pub fn merge(
    nodes: &mut Vec<Node>,
    height: usize,
    first: u32,
    second: u32,
) -> Result<u32, AllocError>
    requires closed { spec.Closed nodes.old.items }
    requires first { first < length nodes.old.items }
    requires second { second < length nodes.old.items }
    ensures { IfOk result
        (λ r. spec.IsMerged nodes.old.items nodes.new.items height first second r) }
{
    if second == 0 {
        return Ok(first);
    }
    if first == 0 {
        return Ok(second);
    }
    let one = node_at(nodes.as_slice(), first);
    let other = node_at(nodes.as_slice(), second);
    if height == 0 {
        return Ok(with_value(one, first, second));
    }
    let left = merge(nodes, height - 1, one.left, other.left)?;
    let right = merge(nodes, height - 1, one.right, other.right)?;
    let added = add(
        nodes,
        Node {
            left,
            right,
            value: None,
        },
    )?;
    Ok(added)
}

fn push_value(values: &mut Vec<u32>, node: Node) -> Result<(), AllocError>
    ensures kept { OnOk result
        ((v : ℕ) → contains values.old.items v ≡ true → contains values.new.items v ≡ true) }
    ensures pushed { OnOk result
        ((v : ℕ) → node.value ≡ Some v → contains values.new.items v ≡ true) }
{
    match node.value {
        None => Ok(()),
        Some(value) => {
            values.push(value)?;
            Ok(())
        }
    }
}

/// Puts all values of the tree of a height below a node after others.
///
/// # Errors
/// No memory was found.
#[tactic(auto, using(crate::proofs::Puts::none_all))]
pub fn collect(
    values: &mut Vec<u32>,
    nodes: &[Node],
    height: usize,
    number: u32,
) -> Result<(), AllocError>
    requires { spec.Closed nodes.now }
    ensures kept { OnOk result
        ((v : ℕ) → contains values.old.items v ≡ true → contains values.new.items v ≡ true) }
    ensures all { OnOk result ((k v : ℕ) → spec.find nodes.now height number k ≡ Some v
        → contains values.new.items v ≡ true) }
{
    if number == 0 {
        return Ok(());
    }
    let node = node_at(nodes, number);
    if height == 0 {
        push_value(values, node)?;
        return Ok(());
    }
    collect(values, nodes, height - 1, node.left)?;
    collect(values, nodes, height - 1, node.right)?;
    Ok(())
}
