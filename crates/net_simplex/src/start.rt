//! How a run begins: no arc of the digraph carries anything, and each node hangs on the root by its
//! added arc.

ghost use Rattle.std.specs.Prelude.{◌≡◌, ℕ, ◌+◌, ◌<◌, ◌≤◌, ◌^◌, ◌≤ℤ◌, ◌<ℤ◌, neg_ℤ, pos};
ghost use Rattle.std.specs.Prelude.{length, IfOk};
ghost use Rattle.plain_certificates.specs.Tables.{at};
ghost use Rattle.static_digraph.specs.Fixed.{graph_of};
ghost use Rattle.net_simplex.specs.Start.{AreEnds, AreFirstPrices, AreLoads, IsEnd, IsFirstFlow};
ghost use Rattle.net_simplex.specs.Start.{IsFirstPrice, IsFirstTree, IsLoad};

use pivot_flow::Ends;
use static_digraph::Fixed;
use std::alloc::{AllocError, Global};

/// What an added arc costs, which is more than any path in the digraph: 2^57.
pub const RIM_COST: i64 = 144_115_188_075_855_872;

/// The ends of all arcs, those of the digraph first and then an added one for each node; what each
/// carries; and the potentials of the nodes and of the root, which is the last.
#[derive(Drop)]
pub struct Flow {
    pub ends: Vec<Ends>,
    pub sent: Vec<u64>,
    pub price: Vec<i64>,
}

/// A tree over the nodes and the root: of each node its parent, the arc that it hangs by and its
/// depth, its first child and its neighbours among the children of its parent.
#[derive(Drop)]
pub struct Tree {
    pub parent: Vec<u32>,
    pub arc: Vec<u32>,
    pub depth: Vec<u32>,
    pub first: Vec<u32>,
    pub next: Vec<u32>,
    pub prev: Vec<u32>,
}

/// The ends of an arc of the network.
fn end_at(g: &Fixed, excess: &[i64], k: u32) -> Ends
    requires nodes { length excess.now ≡ (graph_of g.now).nodes }
    requires arc { k < (graph_of g.now).arcs + (graph_of g.now).nodes }
    ensures { IsEnd (graph_of g.now) (at (pos 0) excess.now) k result }
{
    let m = g.arc_count();
    let root = g.node_count();
    if k < m {
        let (from, to) = g.ends(k);
        return Ends { from, to };
    }
    let v = k - m;
    if excess[v as usize] > 0 {
        Ends { from: v, to: root }
    } else {
        Ends { from: root, to: v }
    }
}

/// The ends of all arcs of the network.
fn ends_of(alloc: Global, g: &Fixed, excess: &[i64]) -> Result<Vec<Ends>, AllocError>
    requires { length excess.now ≡ (graph_of g.now).nodes }
    ensures { IfOk result (λ ends. AreEnds (graph_of g.now) (at (pos 0) excess.now) ends.items) }
{
    let all = g.arc_count() + g.node_count();
    let mut ends = vec![in alloc; Ends { from: 0, to: 0 }; all as usize]?;
    for k in 0..all {
        ends[k as usize] = end_at(g, excess, k);
    }
    Ok(ends)
}

/// What an arc of the network carries at first: an added one what its node has to send, or to take.
fn load_at(excess: &[i64], m: usize, k: usize) -> u64
    requires arc { k < m + length excess.now }
    requires small { (v : ℕ) → v < length excess.now
        → (neg_ℤ (pos (2 ^ 60)) ≤ℤ at (pos 0) excess.now v)
        × (at (pos 0) excess.now v ≤ℤ pos (2 ^ 60)) }
    ensures { IsLoad m (at (pos 0) excess.now) k result }
{
    if k < m {
        return 0;
    }
    size_of(excess[k - m])
}

/// The size of a number.
fn size_of(number: i64) -> u64
    requires { (neg_ℤ (pos (2 ^ 60)) ≤ℤ number) × (number ≤ℤ pos (2 ^ 60)) }
    ensures more { pos 0 <ℤ number → pos result ≡ number }
    ensures less { number ≤ℤ pos 0 → pos result ≡ neg_ℤ number }
{
    if number > 0 {
        number as u64
    } else {
        (-number) as u64
    }
}

/// What all arcs of the network carry at first.
fn loads_of(alloc: Global, excess: &[i64], m: usize) -> Result<Vec<u64>, AllocError>
    requires few { (length excess.now ≤ 2 ^ 20) × (m ≤ 2 ^ 22) }
    requires small { (v : ℕ) → v < length excess.now
        → (neg_ℤ (pos (2 ^ 60)) ≤ℤ at (pos 0) excess.now v)
        × (at (pos 0) excess.now v ≤ℤ pos (2 ^ 60)) }
    ensures { IfOk result (λ loads. AreLoads m (length excess.now) (at (pos 0) excess.now)
        loads.items) }
{
    let all = m + excess.len();
    let mut loads = vec![in alloc; 0u64; all]?;
    for k in 0..all {
        loads[k] = load_at(excess, m, k);
    }
    Ok(loads)
}

/// The potential of a node with so much to send.
fn price_of(excess: i64) -> i64
    ensures is { IsFirstPrice excess result }
    ensures small { (neg_ℤ (pos (2 ^ 57)) ≤ℤ result) × (result ≤ℤ pos (2 ^ 57)) }
{
    if excess > 0 { -RIM_COST } else { RIM_COST }
}

/// The first potentials of the nodes, and that of the root.
fn prices_of(alloc: Global, excess: &[i64]) -> Result<Vec<i64>, AllocError>
    requires { length excess.now ≤ 2 ^ 20 }
    ensures { IfOk result (λ prices. AreFirstPrices (length excess.now) (at (pos 0) excess.now)
        prices.items) }
{
    let n = excess.len();
    let mut prices = vec![in alloc; 0i64; n + 1]?;
    for v in 0..n {
        prices[v] = price_of(excess[v]);
    }
    Ok(prices)
}

/// The flow that a run begins with.
pub fn first_flow(alloc: Global, g: &Fixed, excess: &[i64]) -> Result<Flow, AllocError>
    requires nodes { length excess.now ≡ (graph_of g.now).nodes }
    requires few { length excess.now ≤ 2 ^ 20 }
    requires small { (v : ℕ) → v < length excess.now
        → (neg_ℤ (pos (2 ^ 60)) ≤ℤ at (pos 0) excess.now v)
        × (at (pos 0) excess.now v ≤ℤ pos (2 ^ 60)) }
    ensures { IfOk result (λ begun. IsFirstFlow (graph_of g.now) (at (pos 0) excess.now)
        begun.ends.items begun.sent.items begun.price.items) }
{
    let ends = ends_of(alloc, g, excess)?;
    let sent = loads_of(alloc, excess, g.arc_count() as usize)?;
    let price = prices_of(alloc, excess)?;
    Ok(Flow { ends, sent, price })
}

/// The tree that a run begins with.
pub fn first_tree(alloc: Global, n: u32, m: u32) -> Result<Tree, AllocError>
    requires few { (n ≤ 2 ^ 20) × (m ≤ 2 ^ 22) }
    ensures { IfOk result (λ tree. IsFirstTree n m tree.parent.items tree.arc.items
        tree.depth.items tree.first.items tree.next.items tree.prev.items) }
{
    let places = n as usize + 1;
    let parent = vec![in alloc; n; places]?;
    let mut arc = vec![in alloc; m; places]?;
    let mut depth = vec![in alloc; 1u32; places]?;
    let mut first = vec![in alloc; n; places]?;
    let mut next = vec![in alloc; n; places]?;
    let mut prev = vec![in alloc; n; places]?;
    for v in 0..n {
        arc[v as usize] = m + v;
        next[v as usize] = v + 1;
        prev[v as usize + 1] = v;
    }
    depth[n as usize] = 0;
    first[n as usize] = 0;
    Ok(Tree {
        parent,
        arc,
        depth,
        first,
        next,
        prev,
    })
}
