//! Grids of processors.

ghost use Rattle.std.specs.Prelude.{◌≡◌, ◌<◌, ◌≤◌, ◌^◌, ◌↔◌, All, length, IsSome, IfSome};
ghost use Rattle.hpf_base.specs.Grid.{IsGrid};
ghost use Rattle.hpf_base.specs.ElementOrder.{product};

use crate::limits::{MAX_NODES, MAX_RANK};
use smallvec::SmallVec;
use std::alloc::Global;
use std::marker::Model;

/// A rectangular arrangement of nodes (HPF 2.0, PROCESSORS): its extents, the first dimension first. Contracts
/// see their list: 1 to 7 numbers, none of them 0, whose product, the number of nodes, is at most 64.
#[derive(Drop)]
pub struct Grid {
    dims: SmallVec<u32, MAX_RANK>,
}

impl Model for Grid {
    ghost use Rattle.std.specs.Prelude.{List, ℕ};
    ghost use Rattle.hpf_base.specs.Grid.{IsGrid};

    ghost Value = { List ℕ };

    ghost view = { λ g. g.dims.items };

    ghost invariant = { λ g. IsGrid g.dims.items };
}

impl Grid {
    /// The grid of these extents; None exactly where there is none, more than 7, one that is 0, or their product
    /// exceeds 64. It takes no memory.
    pub fn new(alloc: Global, dims: &[u32]) -> Option<Grid>
        ensures some { IsSome result ↔ IsGrid dims.now }
        ensures value { IfSome result (λ grid. grid ≡ dims.now) }
    {
        if dims.is_empty() || dims.len() > MAX_RANK || nodes_of(dims).is_none() {
            return None;
        }
        match SmallVec::from_slice(alloc, dims) {
            Ok(dims) => Some(Grid { dims }),
            Err(_) => unreachable!(),
        }
    }

    /// The extents, the first dimension first. It takes no memory.
    pub fn dims(&self) -> &[u32]
        ensures value { result.now ≡ self.now }
        ensures valid { IsGrid self.now }
    {
        self.dims.as_slice()
    }

    /// The number of nodes, from 1 to 64: the product of the extents.
    pub fn node_count(&self) -> u32
        ensures value { result ≡ product self.now }
        ensures valid { IsGrid self.now }
    {
        match nodes_of(self.dims.as_slice()) {
            Some(count) => count,
            None => unreachable!(),
        }
    }

    /// The same extents once more. It takes no memory.
    pub fn copy(&self, alloc: Global) -> Grid
        ensures { result ≡ self.now }
    {
        match Grid::new(alloc, self.dims()) {
            Some(copy) => copy,
            None => unreachable!(),
        }
    }
}

/// The product of the extents; None exactly where it exceeds 64 or one of them is 0.
fn nodes_of(dims: &[u32]) -> Option<u32>
    requires { length dims.now < 2 ^ 63 }
    ensures some { IsSome result ↔ (All (λ extent. 1 ≤ extent) dims.now × (product dims.now ≤ MAX_NODES)) }
    ensures value { IfSome result (λ nodes. nodes ≡ product dims.now) }
{
    let mut nodes = 1u32;
    for extent in dims {
        let more = nodes as u64 * *extent as u64;
        if more == 0 || more > MAX_NODES as u64 {
            return None;
        }
        nodes = more as u32;
    }
    Some(nodes)
}
