//! To open and to close a pair's queue.

ghost use Rattle.std.specs.Prelude.{◌≡◌, [], IfOk, List};
ghost use Rattle.crossbeam_queue.specs.Passes.{IsPassOf};
ghost use Rattle.pair_mailbox.specs.Rule.{known, IsAfter, AreNumbered, whole, sender, taker, no_route};

use crate::closed::Closed;
use crate::ends::{InEnd, OutEnd};
use crate::route::Route;
use crate::rule::{Ends, Opened, Opening, PairPass, Queue, Total};
use hpf_base::{NodeId, OutOfMemory};
use std::alloc::Global;
use std::marker::Brand;
use std::sync::{Arc, Wait};

/// The most letters that a pair's queue holds.
pub const CAPACITY: usize = 4;

/// A new queue for the letters of the pair in the run, with room for four, as its two ends.
pub fn open_pair<R: Wait>(
    _rt: &R,
    alloc: Global,
    run: u64,
    from: NodeId,
    to: NodeId,
) -> Result<(OutEnd, InEnd), OutOfMemory>
    ensures one_queue { IfOk result (λ r. r.0.queue ≡ r.1.queue) }
    ensures out { IfOk result (λ r. r.0 ≡ record { route = record { run = run; from = from; to = to }; sent = []; refused = 0; queue = r.0.queue }) }
    ensures inn { IfOk result (λ r. r.1 ≡ record { route = record { run = run; from = from; to = to }; taken = []; refused = 0; queue = r.1.queue }) }
{
    let route = Route { run, from, to };
    let (queue, pass) = Queue::ruled(alloc, CAPACITY)?;
    let (sender, taker) = split_ends::<Brand>(&queue, pass, route);
    let queue = Arc::new(alloc, queue)?;
    let again = Arc::try_clone(&queue)?;
    let out = OutEnd {
        queue,
        pass: sender,
        route,
        sent: 0,
        refused: 0,
    };
    let inn = InEnd {
        queue: again,
        pass: taker,
        route,
        taken: 0,
        refused: 0,
    };
    Ok((out, inn))
}

/// The passes of the two ends of a queue that has just been made.
fn split_ends<K: Opened>(queue: &Queue, mut pass: PairPass, route: Route) -> (PairPass, PairPass)
    requires pass { IsPassOf queue.now pass × (known pass ≡ whole no_route [] []) }
    requires route { route ≡ K.route }
    ensures passes { IsPassOf queue.now result.0 × IsPassOf queue.now result.1 }
    ensures views { (known result.0 ≡ sender route []) × (known result.1 ≡ taker route []) }
{
    let _idle = queue.another::<Opening<K>>(&mut pass);
    let taker = queue.another::<Ends>(&mut pass);
    (pass, taker)
}

/// Closes the queue whose two ends these are. What was sent is what was taken followed by at most four letters, and each
/// has its number.
pub fn close_pair<R: Wait>(_rt: &R, out: OutEnd, inn: InEnd) -> Closed
    requires { out.queue ≡ inn.queue }
    ensures route { result.route ≡ out.route }
    ensures letters { (result.letters ≡ out.sent) × (result.taken ≡ inn.taken) }
    ensures after { (held : List _) × IsAfter result.taken result.letters held }
    ensures numbered { AreNumbered result.route result.letters }
{
    let OutEnd {
        queue,
        mut pass,
        route,
        sent,
        refused: _,
    } = out;
    let InEnd {
        queue: _,
        pass: taker,
        route: _,
        taken,
        refused: _,
    } = inn;
    queue.absorb::<Ends>(&mut pass, taker);
    queue.learn_as::<Total>(&mut pass);
    Closed {
        pass,
        route,
        sent,
        taken,
    }
}
