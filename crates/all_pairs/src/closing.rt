//! To close the queues of all pairs.

ghost use Rattle.std.specs.Prelude.{◌≡◌, length, map, IfOk, OnOk};
ghost use Rattle.all_pairs.specs.Rows.{out_queue, in_queue, out_queues, in_queues, ArePairs, AreClosedPairs};
ghost use Rattle.all_pairs.specs.RowSteps.{IsClosedRow};

use crate::columns::transposed;
use crate::rows::{InRow, OutRow};
use hpf_base::OutOfMemory;
use pair_mailbox::{Closed, close_pair};
use std::alloc::Global;
use std::sync::Wait;

// Closes the queues of a node, in the order of their targets, and appends them.
fn close_row<R: Wait>(
    rt: &R,
    closed: &mut Vec<Closed>,
    outs: OutRow,
    ins: InRow,
) -> Result<(), OutOfMemory>
    requires { map out_queue outs ≡ map in_queue ins }
    ensures { OnOk result (IsClosedRow closed.old.items outs ins closed.new.items) }
{
    let OutRow { ends: outs } = outs;
    let InRow { ends: ins } = ins;
    let mut ins = ins.into_iter();
    for out in outs {
        match ins.next() {
            Some(inn) => closed.push(close_pair(rt, out, inn))?,
            None => unreachable!(),
        }
    }
    Ok(())
}

/// Closes the queues between all ordered pairs of nodes, whatever was sent and taken on them. The closed queue from node p to
/// node q is entry p * count + q, where count is the number of nodes. It fails where a growth was refused.
pub fn close_pairs<R: Wait>(
    rt: &R,
    alloc: Global,
    outs: Vec<OutRow>,
    ins: Vec<InRow>,
) -> Result<Vec<Closed>, OutOfMemory>
    requires { ArePairs (length outs.items) (out_queues outs.items) (in_queues ins.items) }
    ensures { IfOk result (λ closed. AreClosedPairs outs.items ins.items closed.items) }
{
    let mut closed = Vec::new(alloc);
    let mut ins = transposed(alloc, ins)?.into_iter();
    for out in outs {
        match ins.next() {
            Some(inn) => close_row(rt, &mut closed, out, inn)?,
            None => unreachable!(),
        }
    }
    Ok(closed)
}
