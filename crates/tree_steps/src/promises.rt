//! Laws of trees, as functions that do nothing.

ghost use Rattle.std.specs.Prelude.{◌≡◌, ℕ};
ghost use Rattle.array_meaning.specs.Faults.{Fault};
ghost use Rattle.machine_steps.specs.Machine.{earlier};
ghost use Rattle.machine_steps.specs.Node.{Node, kept_values, values_kept, join_options, option_values, values_option, later, positioned_values, values_positioned, tree_absorbed};
ghost use Rattle.machine_steps.specs.Tree.{levels_of};
ghost use Rattle.code_meaning.specs.FaultValues.{fault_values};
ghost use Rattle.code_meaning.specs.Parallel.{fold_of};
ghost use Rattle.tree_steps.specs.Absorbed.{absorbed_values, joined_values};

use crate::joining::Joining;
use op_tables::Join;

/// What a node has after a round is what the steps of nodes say, in a verdict, in the tree of a reduction or of a copy that is folded, and in
/// that of the last value of a copy.
pub fn law_of_absorbed<C>()
    ensures kept { (count : ℕ) (a : Node C Fault) → (tree_absorbed count earlier (kept_values fault_values) (values_kept fault_values) a).folded
        ≡ absorbed_values (joined_values Joining.Kept) (levels_of count) a.round a.id a.folded a.received }
    ensures options { (count : ℕ) (op : Join) (a : Node C Fault) → (tree_absorbed count (join_options (fold_of op).join) option_values values_option a).folded
        ≡ absorbed_values (joined_values (Joining.Options op)) (levels_of count) a.round a.id a.folded a.received }
    ensures positions { (count : ℕ) (a : Node C Fault) → (tree_absorbed count later positioned_values values_positioned a).folded
        ≡ absorbed_values (joined_values Joining.Later) (levels_of count) a.round a.id a.folded a.received }
{}
