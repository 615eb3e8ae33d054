//! Letters with one value each, from node 0 to node 1.

ghost use Rattle.std.specs.Prelude.{◌≡◌, ◌+◌, IfOk, length, if◌then◌else◌};
ghost use Rattle.pair_mailbox_tests.specs.OnePair.{one_route};

use pair_mailbox::{Body, InEnd, Letter, NodeId, OutEnd, OutOfMemory, open_pair};
use std::alloc::Global;
use std::sync::Wait;

/// The two ends of a new queue from node 0 to node 1 in run 1.
pub fn open_one_pair<R: Wait>(rt: &R, alloc: Global) -> Result<(OutEnd, InEnd), OutOfMemory>
    ensures route { IfOk result (λ r. r.0.route ≡ one_route) }
    ensures sent { IfOk result (λ r. length r.0.sent ≡ 0) }
    ensures queue { IfOk result (λ r. r.0.queue ≡ r.1.queue) }
{
    open_pair(rt, alloc, 1, NodeId(0), NodeId(1))
}

/// Sends a letter with this number and value; false where the queue is full.
pub fn send_value<R: Wait>(
    rt: &R,
    alloc: Global,
    out: &mut OutEnd,
    number: u64,
    value: i64,
) -> Result<bool, OutOfMemory>
    requires route { out.old.route ≡ one_route }
    requires number { number ≡ length out.old.sent + 1 }
    ensures route { out.new.route ≡ out.old.route }
    ensures queue { out.new.queue ≡ out.old.queue }
    ensures sent { IfOk result (λ moved. length out.new.sent ≡ (if moved then number else length out.old.sent)) }
{
    let body = Body::from(vec![in alloc; value]?);
    let letter = Letter {
        run: 1,
        phase: 1,
        from: NodeId(0),
        to: NodeId(1),
        number,
        body,
    };
    Ok(out.send(rt, letter).is_ok())
}

/// The number of the letter that is taken, if any is there, where its value is ten times this number.
pub fn take_number<R: Wait>(rt: &R, inn: &mut InEnd) -> Option<u64>
    ensures queue { inn.new.queue ≡ inn.old.queue }
{
    let letter = inn.take(rt)?;
    match letter.body.as_slice() {
        [value] if *value as i128 == letter.number as i128 * 10 => Some(letter.number),
        _ => None,
    }
}
