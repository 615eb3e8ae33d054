//! Blocks of given sizes.

ghost use Rattle.std.specs.Prelude.{◌≡◌, ◌+◌, ◌*◌, ◌<◌, ◌≤◌, All, IfOk, length, nat_le};
ghost use Rattle.std.specs.List.{position_or_len};
ghost use Rattle.hpf_base.specs.declared.limits.TheConstants.{MAX_NODES};
ghost use Rattle.mappings.specs.declared.limits.TheConstants.{MAX_BLOCK};
ghost use Rattle.mappings.specs.GenBlock.{block_ends, size_before};

use std::alloc::{AllocError, Global};
use std::marker::Model;

/// The sizes of blocks, one a processor, that of the first processor first (HPF 2.0, approved extensions, GEN_BLOCK): at most one for
/// each of 64 nodes, and none above the greatest m of BLOCK(m). Contracts see the list.
#[derive(Drop)]
pub struct BlockSizes {
    sizes: Vec<u64>,
    /// The last position of each block.
    ends: Vec<u64>,
}

impl Model for BlockSizes {
    ghost use Rattle.std.specs.Prelude.{◌≡◌, ◌≤◌, ℕ, All, List, length};
    ghost use Rattle.hpf_base.specs.declared.limits.TheConstants.{MAX_NODES};
    ghost use Rattle.mappings.specs.declared.limits.TheConstants.{MAX_BLOCK};
    ghost use Rattle.mappings.specs.GenBlock.{block_ends};

    ghost Value = { List ℕ };

    ghost view = { λ b. b.sizes.items };

    ghost invariant = { λ b. (b.ends.items ≡ block_ends b.sizes.items) × (length b.sizes.items ≤ MAX_NODES) × All (λ n. n ≤ MAX_BLOCK) b.sizes.items };
}

impl BlockSizes {
    /// Blocks of these sizes. An `Err` is want of memory, here and below.
    pub fn new(alloc: Global, sizes: Vec<u64>) -> Result<BlockSizes, AllocError>
        requires few { length sizes.items ≤ MAX_NODES }
        requires small { All (λ n. n ≤ MAX_BLOCK) sizes.items }
        ensures { IfOk result (λ blocks. blocks ≡ sizes.items) }
    {
        let mut ends = Vec::new(alloc);
        let mut end = 0;
        for size in sizes.as_slice() {
            end += *size;
            ends.push(end)?;
        }
        Ok(BlockSizes { sizes, ends })
    }

    /// The sizes in order.
    pub fn as_slice(&self) -> &[u64]
        ensures { result.now ≡ self.now }
    {
        &self.sizes
    }

    /// How many positions the processors before this one have. It takes no memory.
    pub fn before(&self, node: u32) -> u64
        requires { node < length self.now }
        ensures { result ≡ size_before self.now node }
    {
        let node = node as usize;
        self.ends[node] - self.sizes[node]
    }

    /// The last position of the processor's block, which is how many positions the processors up to it have. It takes no memory.
    pub fn end(&self, node: u32) -> u64
        requires { node < length self.now }
        ensures value { result ≡ size_before self.now (node + 1) }
        ensures small { result ≤ MAX_BLOCK * MAX_NODES }
    {
        self.ends[node as usize]
    }

    /// The first processor whose block ends no earlier than at the position, by halving; how many there are where none does. It takes no memory.
    pub fn owner(&self, position: u64) -> usize
        ensures { result ≡ position_or_len (nat_le position) (block_ends self.now) }
    {
        self.ends.partition_point(|end| *end < position)
    }

    /// The same sizes once more.
    pub fn copy(&self, alloc: Global) -> Result<BlockSizes, AllocError>
        ensures { IfOk result (λ copy. copy ≡ self.now) }
    {
        let sizes = copied(alloc, &self.sizes)?;
        let ends = copied(alloc, &self.ends)?;
        Ok(BlockSizes { sizes, ends })
    }
}

/// The same numbers once more.
fn copied(alloc: Global, numbers: &[u64]) -> Result<Vec<u64>, AllocError>
    ensures { IfOk result (λ copy. copy.items ≡ numbers.now) }
{
    let mut copy = Vec::new(alloc);
    copy.extend_from_slice(numbers)?;
    Ok(copy)
}
