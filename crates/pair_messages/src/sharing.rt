//! What nodes own of a row, and what one node sends another of it.

ghost use Rattle.std.specs.Prelude.{◌≡◌, ℕ, ◌<◌, ◌==◌, true};
ghost use Rattle.machine_steps.specs.Layout.{first, owned_by, size_of};
ghost use Rattle.storage.specs.Spots.{spot_of};
ghost use Rattle.message_elements.specs.Elements.{is_sent};

use owner_tables::{OwnerTable, Owners};
use storage::Spot;

/// Whether the node has the least number of those that own what it owns.
pub(crate) fn leads(table: &OwnerTable, node: u32) -> bool
    requires { node < table.now.nodes }
    ensures { (at : ℕ) → at < size_of table.now.layout → owned_by table.now.layout node at ≡ true
        → result ≡ (first (λ other. owned_by table.now.layout other at) 0 table.now.nodes == node) }
{
    match table.sharers(node).first() {
        Some(least) => *least == node,
        None => false,
    }
}

/// Whether another node owns what the node owns.
pub(crate) fn shares(table: &OwnerTable, node: u32, other: u32) -> bool
    requires node { node < table.now.nodes }
    requires other { other < table.now.nodes }
    ensures { (at : ℕ) → at < size_of table.now.layout → owned_by table.now.layout node at ≡ true → result ≡ owned_by table.now.layout other at }
{
    table.sharers(node).contains(&other)
}

/// Whether one node sends another an element: there is one, the other doesn't own it, and the one is its least owner.
pub(crate) fn sends_element(owners: &Owners, from: u32, to: u32, spot: Spot) -> bool
    requires { to < owners.now.nodes }
    ensures { result ≡ is_sent owners.now.nodes owners.now.layouts from to (spot_of spot) }
{
    owners.is_in_bounds(spot) && !owners.owns(to, spot) && owners.least_owner(spot) == from
}
