//! The values of the nodes below a node, joined.

ghost use Rattle.std.specs.Prelude.{◌≡◌, ◌≤◌, fold, take, length};

use hpf_base::NodeId;
use reduction_tree::{Fold, fold_tree};

/// The values of the nodes below this one, joined from the left, beginning with the unit; `items` has one value a node. It takes no memory.
pub fn scan_fold<F: Fold>(node: NodeId, items: &[F::Item]) -> F::Item
    requires { node.0 ≤ length items.now }
    ensures { result ≡ fold F.joined F.neutral (take node.0 items.now) }
{
    fold_tree::<F>(&items[..node.0 as usize])
}
