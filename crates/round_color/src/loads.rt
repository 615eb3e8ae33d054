//! How many edges a node has.

ghost use Rattle.std.specs.Prelude.{◌≡◌, ◌≢◌, ◌==◌, All, map, max};
ghost use Rattle.std.specs.List.{AllPairs};
ghost use Rattle.round_color.specs.Coloring.{sends, takes, load, degree, busiest_node};
ghost use Rattle.round_color.specs.Proper.{IsEdge};
ghost use Rattle.round_color.specs.Table.{ends};

use letters::Pair;

/// The greatest number of edges from one node or to one node; 0 where there is no edge. No colouring of the edges has
/// fewer colours, and `color` takes no more. The edges are distinct, and go between so many nodes.
pub fn degree(nodes: u32, edges: &[Pair]) -> u32
    requires between { All (λ edge. IsEdge nodes (ends edge)) edges.now }
    requires distinct { AllPairs (λ one other. one ≢ other) edges.now }
    ensures { result ≡ degree nodes (map ends edges.now) }
{
    let mut greatest = 0;
    for node in 0..nodes {
        greatest = larger(greatest, load(nodes, edges, node));
    }
    greatest
}

/// The least node with the greatest number of edges from it or to it: node 0 where there is no edge. The edges are
/// distinct, and go between so many nodes.
pub fn busiest_node(nodes: u32, edges: &[Pair]) -> u32
    requires between { All (λ edge. IsEdge nodes (ends edge)) edges.now }
    requires distinct { AllPairs (λ one other. one ≢ other) edges.now }
    ensures { result ≡ busiest_node nodes (map ends edges.now) }
{
    let greatest = degree(nodes, edges);
    for node in 0..nodes {
        if has_load(nodes, edges, node, greatest) {
            return node;
        }
    }
    nodes
}

/// Whether the greater of the numbers of edges from the node and to it is that number.
fn has_load(nodes: u32, edges: &[Pair], node: u32, number: u32) -> bool
    requires between { All (λ edge. IsEdge nodes (ends edge)) edges.now }
    requires distinct { AllPairs (λ one other. one ≢ other) edges.now }
    ensures { result ≡ (load (map ends edges.now) node == number) }
{
    load(nodes, edges, node) == number
}

/// The greater of the numbers of edges from the node and to it. A node has at most one edge to each node and one from
/// each.
fn load(nodes: u32, edges: &[Pair], node: u32) -> u32
    requires between { All (λ edge. IsEdge nodes (ends edge)) edges.now }
    requires distinct { AllPairs (λ one other. one ≢ other) edges.now }
    ensures { result ≡ load (map ends edges.now) node }
{
    larger(sends(edges, node) as u32, takes(edges, node) as u32)
}

/// How many edges go from the node.
fn sends(edges: &[Pair], node: u32) -> usize
    ensures { result ≡ sends (map ends edges.now) node }
{
    let mut count = 0;
    for edge in edges {
        if edge.from.0 == node {
            count += 1;
        }
    }
    count
}

/// How many edges go to the node.
fn takes(edges: &[Pair], node: u32) -> usize
    ensures { result ≡ takes (map ends edges.now) node }
{
    let mut count = 0;
    for edge in edges {
        if edge.to.0 == node {
            count += 1;
        }
    }
    count
}

/// The larger of two numbers.
fn larger(one: u32, other: u32) -> u32
    ensures { result ≡ max one other }
{
    one.max(other)
}
