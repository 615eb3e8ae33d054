//! Laws of trees, as functions that do nothing.

ghost use Rattle.std.specs.Prelude.{◌≡◌, ◌<◌, ◌*◌, ◌==◌, ◌↔◌, ℕ, fold, map, filter};
ghost use Rattle.std.specs.List.{range_with_len};
ghost use Rattle.hpf_base.specs.declared.node.NodeId.{NodeId};
ghost use Rattle.reduction_tree.specs.Tree.{levels, act_of, after_rounds};

use crate::fold::Fold;
use crate::tree::TreeAct;

/// In every round a node sends to another exactly where that one takes from it, and both are nodes.
pub fn law_of_acts()
    ensures matched { (nodes round : ℕ) (p q : NodeId) → p.0 < nodes → q.0 < nodes
        → (act_of nodes round p.0 ≡ TreeAct.Send q) ↔ (act_of nodes round q.0 ≡ TreeAct.Take p) }
    ensures sends_inside { (nodes round : ℕ) (p q : NodeId) → p.0 < nodes → act_of nodes round p.0 ≡ TreeAct.Send q → q.0 < nodes }
    ensures takes_inside { (nodes round : ℕ) (p q : NodeId) → p.0 < nodes → act_of nodes round p.0 ≡ TreeAct.Take q → q.0 < nodes }
{}

/// Let each node begin with a value. After the rounds up node 0 has the values of all nodes joined in the order of the
/// nodes, and after the rounds down every node has them.
pub fn law_of_trees<F: Fold>()
    ensures up { (nodes : ℕ) (items : ℕ → F.Item) → ((p : ℕ) → p < nodes → F.is_value (items p)) → 0 < nodes
        → after_rounds F.joined nodes items (levels nodes) 0 ≡ fold F.joined F.neutral (map items (range_with_len 0 nodes)) }
    ensures down { (nodes : ℕ) (items : ℕ → F.Item) → ((p : ℕ) → p < nodes → F.is_value (items p)) → (p : ℕ) → p < nodes
        → after_rounds F.joined nodes items (2 * levels nodes) p ≡ fold F.joined F.neutral (map items (range_with_len 0 nodes)) }
{}

/// Let each item be that of one node. The items of each node joined, and these joined over the nodes, are all items
/// joined.
pub fn law_of_owners<F: Fold>()
    ensures { (owner : ℕ → ℕ) (items : ℕ → F.Item) (nodes count : ℕ)
        → ((t : ℕ) → t < count → F.is_value (items t)) → ((t : ℕ) → t < count → owner t < nodes)
        → fold F.joined F.neutral (map (λ p. fold F.joined F.neutral (map items (filter (λ t. owner t == p) (range_with_len 0 count)))) (range_with_len 0 nodes))
        ≡ fold F.joined F.neutral (map items (range_with_len 0 count)) }
{}
