//! Nodes that own the same elements of a row.

ghost use Rattle.std.specs.Prelude.{◌≡◌, ℕ, ◌<◌, ◌==◌, IsTrue, true};
ghost use Rattle.std.specs.List.{list_any};
ghost use Rattle.machine_steps.specs.Layout.{first, owned_by, size_of};

use owner_tables::OwnerTable;

/// Whether the node has the least number of those that own what it owns.
pub(crate) fn leads(table: &OwnerTable, node: u32) -> bool
    requires { node < table.now.nodes }
    ensures { (at : ℕ) → at < size_of table.now.layout → owned_by table.now.layout node at ≡ true
        → (first (λ other. owned_by table.now.layout other at) 0 table.now.nodes == node) ≡ result }
{
    match table.sharers(node).first() {
        Some(least) => *least == node,
        None => false,
    }
}

/// Whether each of these nodes owns what the node owns.
pub(crate) fn own_as_well(table: &OwnerTable, node: u32, others: &[u32]) -> bool
    requires { node < table.now.nodes }
    ensures { IsTrue result → (at : ℕ) → at < size_of table.now.layout → owned_by table.now.layout node at ≡ true
        → (other : ℕ) → other < table.now.nodes → list_any (λ n. n == other) others.now ≡ true → owned_by table.now.layout other at ≡ true }
{
    let sharers = table.sharers(node);
    for other in others {
        if !sharers.contains(other) {
            return false;
        }
    }
    true
}
