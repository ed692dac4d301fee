//! Positions among the scopes of a function: a node for each object whose scope began, with a link
//! to the one round it, so that no list of objects is copied (`specs/Trees.antt`, proofs/Trees).

ghost use Rattle.std.specs.Prelude.{◌≡◌, ◌⊎◌, ℕ, ◌+◌, ◌<◌, ◌≤◌, List, [], ◌∷◌, ◌++◌, length, take};
ghost use Rattle.std.specs.Prelude.{not, IfOk, OnOk, OnErr};
ghost use Rattle.std.specs.List.{AllByRecursion};
ghost use Rattle.c_types_jumps.specs.Trees.{way_at, node_at, HaveNodes, IsTree, enters_way};

use std::alloc::{AllocError, Global};

/// A position, by what begins there.
#[derive(Drop)]
pub(crate) struct Node {
    /// The number of the object whose scope begins; none at the beginning of the function.
    pub(crate) own: Option<u32>,
    /// The position in the scope round it.
    pub(crate) parent: usize,
    /// A position further up (Myers 1983, so that few steps lead to any).
    pub(crate) jump: usize,
    /// How many objects are in scope.
    pub(crate) depth: usize,
}

/// The positions of a function so far, and the present one.
#[derive(Drop)]
pub(crate) struct Tree {
    pub(crate) nodes: Vec<Node>,
    pub(crate) here: usize,
    pub(crate) first: u32,
    /// The least number of the object that comes next.
    pub(crate) next: u64,
}

/// No object is in scope.
pub(crate) fn new(alloc: Global, first: u32) -> Result<Tree, AllocError>
    ensures tree { IfOk result IsTree }
    ensures current { IfOk result (λ tree. way_at tree.nodes.items tree.here ≡ []) }
    ensures first { IfOk result (λ tree. tree.first ≡ first) }
    ensures next { IfOk result (λ tree. tree.next ≡ first) }
{
    let mut nodes = Vec::new(alloc);
    nodes.push(Node {
        own: None,
        parent: 0,
        jump: 0,
        depth: 0,
    })?;
    Ok(Tree {
        nodes,
        here: 0,
        first,
        next: u64::from(first),
    })
}

/// How many objects are in scope.
pub(crate) fn depth(tree: &Tree) -> usize
    requires { IsTree tree.now }
    ensures { result ≡ length (way_at tree.now.nodes.items tree.now.here) }
{
    tree.nodes[tree.here].depth
}

/// Where the node below a position jumps to: two jumps on, where they are equally long, else to the
/// position.
fn jump_below(nodes: &[Node], here: usize) -> usize
    requires here { here < length nodes.now }
    requires near { (node_at nodes.now here).jump < length nodes.now }
    requires far { (node_at nodes.now (node_at nodes.now here).jump).jump < length nodes.now }
    ensures { (result ≡ here) ⊎ (result ≡ (node_at nodes.now (node_at nodes.now here).jump).jump) }
{
    let near = nodes[here].jump;
    let far = nodes[near].jump;
    let first = nodes[here].depth.saturating_sub(nodes[near].depth);
    let second = nodes[near].depth.saturating_sub(nodes[far].depth);
    if first == second { far } else { here }
}

/// The scope of an object begins.
pub(crate) fn enter(tree: &mut Tree, number: u32) -> Result<(), AllocError>
    requires tree { IsTree tree.old }
    requires next { tree.old.next ≤ number }
    ensures tree { IsTree tree.new }
    ensures current { OnOk result (way_at tree.new.nodes.items tree.new.here
        ≡ way_at tree.old.nodes.items tree.old.here ++ number ∷ []) }
    ensures next { OnOk result (tree.new.next ≡ number + 1) }
    ensures first { tree.new.first ≡ tree.old.first }
    ensures more { length tree.old.nodes.items ≤ length tree.new.nodes.items }
    ensures ways { (position : ℕ) → position < length tree.old.nodes.items
        → way_at tree.new.nodes.items position ≡ way_at tree.old.nodes.items position }
    ensures same_here { OnErr result (tree.new.here ≡ tree.old.here) }
    ensures same_next { OnErr result (tree.new.next ≡ tree.old.next) }
{
    let node = Node {
        own: Some(number),
        parent: tree.here,
        jump: jump_below(&tree.nodes, tree.here),
        depth: tree.nodes[tree.here].depth + 1,
    };
    let position = tree.nodes.len();
    tree.nodes.push(node)?;
    tree.here = position;
    tree.next = u64::from(number) + 1;
    Ok(())
}

/// The position round one in which `count` objects are in scope, or that one if there are fewer.
fn upper(nodes: &[Node], here: usize, count: usize) -> usize
    requires nodes { HaveNodes nodes.now }
    requires here { here < length nodes.now }
    ensures here { result < length nodes.now }
    ensures current { way_at nodes.now result ≡ take count (way_at nodes.now here) }
{
    let mut here = here;
    while nodes[here].depth > count {
        here = nodes[here].parent;
    }
    here
}

/// All scopes end but those of the first `count` objects.
pub(crate) fn leave(tree: &mut Tree, count: usize)
    requires { IsTree tree.old }
    ensures tree { IsTree tree.new }
    ensures nodes { tree.new.nodes.items ≡ tree.old.nodes.items }
    ensures current { way_at tree.new.nodes.items tree.new.here
        ≡ take count (way_at tree.old.nodes.items tree.old.here) }
    ensures first { tree.new.first ≡ tree.old.first }
    ensures next { tree.new.next ≡ tree.old.next }
{
    let here = upper(&tree.nodes, tree.here, count);
    tree.here = here;
}

/// A position further up, which is not passed by what is sought.
fn step(tree: &Tree, outer: usize, inner: usize) -> usize
    requires tree { IsTree tree.now }
    requires inner { inner < length tree.now.nodes.items }
    requires outer { outer < inner }
    ensures less { result < inner }
    ensures same { (base : List ℕ) → enters_way base (way_at tree.now.nodes.items result)
        (way_at tree.now.nodes.items outer) ≡ enters_way base (way_at tree.now.nodes.items inner)
        (way_at tree.now.nodes.items outer) }
{
    let jump = tree.nodes[inner].jump;
    if outer <= jump {
        return jump;
    }
    tree.nodes[inner].parent
}

/// Whether each object in scope at a position is in scope at another one.
pub(crate) fn contains(tree: &Tree, outer: usize, inner: usize) -> bool
    requires tree { IsTree tree.now }
    requires outer { outer < length tree.now.nodes.items }
    requires inner { inner < length tree.now.nodes.items }
    ensures { (base : List ℕ) → AllByRecursion (λ number. number < tree.now.first) base
        → not result ≡ enters_way base (way_at tree.now.nodes.items inner)
        (way_at tree.now.nodes.items outer) }
{
    let mut inner = inner;
    while inner > outer {
        inner = step(tree, outer, inner);
    }
    inner == outer
}
