//! The two ends of a pair's queue.

ghost use Rattle.std.specs.Prelude.{◌≡◌, ◌≤◌, ◌++◌, ◌∷◌, [], length, IfErr, OnOk, IfSome, IfNone};
ghost use Rattle.hpf_ports.specs.Ports.{Rose};
ghost use Rattle.pair_mailbox.specs.Rule.{IsNextLetter};

use crate::route::Route;
use crate::rule::{PairPass, Pop, Push, Queue};
use letters::Letter;
use std::marker::Model;
use std::sync::{Arc, Wait};

/// The end of a pair's queue at which the source sends. Contracts see its route, the letters that were sent, how many
/// pushes were refused, and of which queue it is.
#[derive(Drop)]
pub struct OutEnd {
    pub(crate) queue: Arc<Queue>,
    pub(crate) pass: PairPass,
    pub(crate) route: Route,
    pub(crate) sent: u64,
    pub(crate) refused: u64,
}

impl Model for OutEnd {
    ghost use Rattle.std.specs.Prelude.{◌≡◌, ◌%◌, ◌^◌, length};
    ghost use Rattle.std.specs.Arc.{arc_value};
    ghost use Rattle.crossbeam_queue.specs.Passes.{IsPassOf, ruled_capacity};
    ghost use Rattle.pair_mailbox.specs.Rule.{known, sender};
    ghost use Rattle.pair_mailbox.specs.Ends.{Outgoing};

    ghost Value = { Outgoing };

    ghost view = { λ e. record { route = e.route; sent = (known e.pass).sent; refused = e.refused; queue = e.pass.table_id } };

    ghost invariant = { λ e. IsPassOf (arc_value e.queue) e.pass × (ruled_capacity (arc_value e.queue) ≡ 4)
        × (known e.pass ≡ sender e.route (known e.pass).sent) × (e.sent ≡ length (known e.pass).sent % 2 ^ 64) };
}

impl OutEnd {
    /// Sends the letter, which is the pair's next: that of the route whose number is one more than those that were sent,
    /// modulo 2^64. It comes back, and a refusal is counted, where the queue held four letters at this call's own step; so
    /// the first four letters never come back.
    pub fn send<R: Wait>(&mut self, rt: &R, letter: Letter) -> Result<(), Letter>
        requires { IsNextLetter self.old.route (length self.old.sent) letter }
        ensures same { (self.new.queue ≡ self.old.queue) × (self.new.route ≡ self.old.route) }
        ensures sent { OnOk result (self.new ≡ record self.old { sent = self.old.sent ++ letter ∷ [] }) }
        ensures back { IfErr result (λ x. (x ≡ letter) × (4 ≤ length self.old.sent)) }
        ensures count { IfErr result (λ x. (self.new ≡ record self.old { refused = self.new.refused }) × Rose self.old.refused self.new.refused) }
    {
        match self.queue.push_as::<Push, R>(rt, &mut self.pass, letter) {
            Ok(()) => {
                self.sent = self.sent.wrapping_add(1);
                Ok(())
            }
            Err(back) => {
                self.refused = self.refused.saturating_add(1);
                Err(back)
            }
        }
    }
}

/// The end of a pair's queue at which the target takes. Contracts see its route, the letters that were taken, how many
/// pops were refused, and of which queue it is.
#[derive(Drop)]
pub struct InEnd {
    pub(crate) queue: Arc<Queue>,
    pub(crate) pass: PairPass,
    pub(crate) route: Route,
    pub(crate) taken: u64,
    pub(crate) refused: u64,
}

impl Model for InEnd {
    ghost use Rattle.std.specs.Prelude.{◌≡◌, ◌%◌, ◌^◌, length};
    ghost use Rattle.std.specs.Arc.{arc_value};
    ghost use Rattle.crossbeam_queue.specs.Passes.{IsPassOf, ruled_capacity};
    ghost use Rattle.pair_mailbox.specs.Rule.{known, taker};
    ghost use Rattle.pair_mailbox.specs.Ends.{Incoming};

    ghost Value = { Incoming };

    ghost view = { λ e. record { route = e.route; taken = (known e.pass).taken; refused = e.refused; queue = e.pass.table_id } };

    ghost invariant = { λ e. IsPassOf (arc_value e.queue) e.pass × (ruled_capacity (arc_value e.queue) ≡ 4)
        × (known e.pass ≡ taker e.route (known e.pass).taken) × (e.taken ≡ length (known e.pass).taken % 2 ^ 64) };
}

impl InEnd {
    /// Takes the pair's next letter. None, with a refusal counted, where the queue was empty at this call's own step.
    pub fn take<R: Wait>(&mut self, rt: &R) -> Option<Letter>
        ensures same { (self.new.queue ≡ self.old.queue) × (self.new.route ≡ self.old.route) }
        ensures some { IfSome result (λ x. (self.new ≡ record self.old { taken = self.old.taken ++ x ∷ [] })
            × IsNextLetter self.old.route (length self.old.taken) x) }
        ensures none { IfNone result ((self.new ≡ record self.old { refused = self.new.refused }) × Rose self.old.refused self.new.refused) }
    {
        match self.queue.pop_as::<Pop, R>(rt, &mut self.pass) {
            Some(letter) => {
                self.taken = self.taken.wrapping_add(1);
                Some(letter)
            }
            None => {
                self.refused = self.refused.saturating_add(1);
                None
            }
        }
    }
}
