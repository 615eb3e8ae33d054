//! To open the queues of all pairs.

ghost use Rattle.std.specs.Prelude.{IfOk};
ghost use Rattle.all_pairs.specs.Rows.{AreOpenPairs};
ghost use Rattle.all_pairs.specs.RowSteps.{IsOpenRow};

use crate::columns::transposed;
use crate::rows::{InRow, OutRow};
use hpf_base::{NodeId, OutOfMemory};
use pair_mailbox::open_pair;
use std::alloc::Global;
use std::sync::Wait;

// The queues from a node to each of so many, as their two ends by the target.
fn open_row<R: Wait>(
    rt: &R,
    alloc: Global,
    from: u32,
    count: u32,
) -> Result<(OutRow, InRow), OutOfMemory>
    ensures { IfOk result (λ r. IsOpenRow from count r.0 r.1) }
{
    let mut outs = Vec::new(alloc);
    let mut ins = Vec::new(alloc);
    for to in 0..count {
        let (out, inn) = open_pair(rt, alloc, 1, NodeId(from), NodeId(to))?;
        outs.push(out)?;
        ins.push(inn)?;
    }
    Ok((OutRow { ends: outs }, InRow { ends: ins }))
}

/// New queues between all ordered pairs of so many nodes, for the letters of run 1: a row of the ends at which it sends and
/// a row of the ends at which it takes for each node, by its number. It fails where a growth was refused.
pub fn open_pairs<R: Wait>(
    rt: &R,
    alloc: Global,
    count: u32,
) -> Result<(Vec<OutRow>, Vec<InRow>), OutOfMemory>
    ensures { IfOk result (λ r. AreOpenPairs count r.0.items r.1.items) }
{
    let mut outs = Vec::new(alloc);
    let mut ins = Vec::new(alloc);
    for from in 0..count {
        let (out, inn) = open_row(rt, alloc, from, count)?;
        outs.push(out)?;
        ins.push(inn)?;
    }
    let ins = transposed(alloc, ins)?;
    Ok((outs, ins))
}
