//! Laws of prefix scans, as functions that do nothing.

ghost use Rattle.std.specs.Prelude.{◌≡◌, ◌<◌, ◌≤◌, ◌+◌, ◌↔◌, ℕ, Some, None, fold, map};
ghost use Rattle.std.specs.List.{range_with_len};
ghost use Rattle.hpf_base.specs.declared.node.NodeId.{NodeId};
ghost use Rattle.reduction_tree.specs.Tree.{levels};
ghost use Rattle.prefix_scan.specs.Scan.{send_of, take_of, scanned, taken};

use reduction_tree::Fold;

/// In every round a node sends to another exactly where that one takes from it, and both are nodes. In each of the first ceil(log2 N) rounds
/// some node sends, and after them no node sends or takes.
pub fn scan_acts_match()
    ensures matched { (nodes round : ℕ) (p q : NodeId) → q.0 < nodes → (send_of nodes round p.0 ≡ Some q) ↔ (take_of round q.0 ≡ Some p) }
    ensures sends_inside { (nodes round : ℕ) (p q : NodeId) → send_of nodes round p.0 ≡ Some q → q.0 < nodes }
    ensures takes_inside { (nodes round : ℕ) (p q : NodeId) → q.0 < nodes → take_of round q.0 ≡ Some p → p.0 < nodes }
    ensures needed { (nodes round : ℕ) → round < levels nodes → (p q : NodeId) × (p.0 < nodes) × (send_of nodes round p.0 ≡ Some q) }
    ensures over { (nodes round : ℕ) (p : NodeId) → p.0 < nodes → levels nodes ≤ round → (send_of nodes round p.0 ≡ None) × (take_of round p.0 ≡ None) }
{}

/// Let each node begin with a value, and in each round join what it takes before what it has. After ceil(log2 N) rounds it has the values of
/// the nodes up to it, joined in the order of the nodes; and what it took alone, joined in the same way, are the values of the nodes below it.
pub fn scans_fold<F: Fold>()
    ensures upto { (nodes : ℕ) (items : ℕ → F.Item) → ((p : ℕ) → p < nodes → F.is_value (items p)) → (p : ℕ) → p < nodes
        → scanned F.joined items (levels nodes) p ≡ fold F.joined F.neutral (map items (range_with_len 0 (p + 1))) }
    ensures below { (nodes : ℕ) (items : ℕ → F.Item) → ((p : ℕ) → p < nodes → F.is_value (items p)) → (p : ℕ) → p < nodes
        → taken F.joined F.neutral items (levels nodes) p ≡ fold F.joined F.neutral (map items (range_with_len 0 p)) }
{}
