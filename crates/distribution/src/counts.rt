//! How many positions a processor owns.

ghost use Rattle.std.specs.Prelude.{◌≡◌, ◌<◌, ◌≤◌, ◌==◌, ◌*◌, ◌+◌, ◌-◌, filter, length, min};
ghost use Rattle.hpf_base.specs.declared.limits.TheConstants.{MAX_NODES};
ghost use Rattle.mappings.specs.declared.limits.TheConstants.{MAX_BLOCK, MAX_CYCLIC, MAX_TEMPLATE_EXTENT};
ghost use Rattle.mappings.specs.declared.mapping.Form.TheVariants.{Block, Cyclic};
ghost use Rattle.mappings.specs.Mapping.{IsLine};
ghost use Rattle.mappings.specs.Owner.{coordinate, coordinate_under};
ghost use Rattle.mappings.specs.Positions.{section};
ghost use Rattle.distribution.specs.Counts.{owned_count, rank};

use crate::owners::owner;
use mappings::{Form, Line};

/// How many positions of the line the processor with the coordinate `node` owns.
pub fn owned_count(line: &Line, node: u32) -> u64
    requires line { IsLine line.now }
    requires node { node < line.now.procs }
    ensures { result ≡ owned_count line.now node }
{
    owned_up_to(line, node, line.extent)
}

/// How many positions below `pos` have the owner of `pos`. `pos` is counted from 1 and at most the extent.
pub fn rank(line: &Line, pos: u64) -> u64
    requires line { IsLine line.now }
    requires from { 1 ≤ pos }
    requires upto { pos ≤ line.now.extent }
    ensures { result ≡ rank line.now pos }
{
    owned_up_to(line, owner(line, pos), pos - 1)
}

/// How many positions from 1 to `last` the processor with the coordinate `node` owns.
fn owned_up_to(line: &Line, node: u32, last: u64) -> u64
    requires line { IsLine line.now }
    requires node { node < line.now.procs }
    requires last { last ≤ line.now.extent }
    ensures { result ≡ length (filter (λ j. coordinate line.now j == node) (section 1 last)) }
{
    match &line.form {
        Form::Whole => last,
        Form::Block(m) => block_up_to(*m, node as u64, last),
        Form::Cyclic(k) => cyclic_up_to(*k, line.procs as u64, node as u64, last),
        Form::Gen(sizes) => within(last, sizes.before(node), sizes.end(node)),
    }
}

/// How many positions from 1 to `last` the processor owns under BLOCK(m), whatever the number of processors.
fn block_up_to(m: u64, node: u64, last: u64) -> u64
    requires some { 1 ≤ m }
    requires small { m ≤ MAX_BLOCK }
    requires node { node < MAX_NODES }
    ensures { result ≡ length (filter (λ j. coordinate_under (Block m) 1 j == node) (section 1 last)) }
{
    within(last, node * m, node * m + m)
}

/// How many positions from 1 to `last` the processor owns under CYCLIC(k): k in each whole cycle, which is a block of each
/// processor, and what there is of its block in the last one.
fn cyclic_up_to(k: u64, procs: u64, node: u64, last: u64) -> u64
    requires some { 1 ≤ k }
    requires small { k ≤ MAX_CYCLIC }
    requires procs { procs ≤ MAX_NODES }
    requires node { node < procs }
    requires last { last ≤ MAX_TEMPLATE_EXTENT }
    ensures { result ≡ length (filter (λ j. coordinate_under (Cyclic k) procs j == node) (section 1 last)) }
{
    let cycle = k * procs;
    last / cycle * k + within(last % cycle, node * k, node * k + k)
}

/// How many of the first `last` positions come after the first `before` and up to the position `end`.
fn within(last: u64, before: u64, end: u64) -> u64
    ensures { result ≡ min last end - before }
{
    last.min(end).saturating_sub(before)
}
