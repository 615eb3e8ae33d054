//! A pair's queue after its last step.

ghost use Rattle.std.specs.Prelude.{◌≡◌, ◌-◌, ◌%◌, ◌^◌, length};

use crate::route::Route;
use crate::rule::PairPass;
use hpf_base::NodeId;
use std::marker::Model;

/// A pair's queue on which no step follows. Contracts see its route, all letters that were sent on it, in order, and those
/// that were taken. It keeps no letter.
#[derive(Drop)]
pub struct Closed {
    pub(crate) pass: PairPass,
    pub(crate) route: Route,
    pub(crate) sent: u64,
    pub(crate) taken: u64,
}

impl Model for Closed {
    ghost use Rattle.std.specs.Prelude.{◌≡◌, ◌%◌, ◌^◌, length, List};
    ghost use Rattle.letters.specs.declared.letter.Letter.{Letter};
    ghost use Rattle.pair_mailbox.specs.Rule.{known, IsAfter};
    ghost use Rattle.pair_mailbox.specs.Ends.{Exchanged};

    ghost Value = { Exchanged };

    ghost view = { λ c. record { route = c.route; letters = (known c.pass).sent; taken = (known c.pass).taken } };

    ghost invariant = { λ c. (c.sent ≡ length (known c.pass).sent % 2 ^ 64) × (c.taken ≡ length (known c.pass).taken % 2 ^ 64)
        × ((held : List Letter) × IsAfter (known c.pass).taken (known c.pass).sent held) };
}

impl Closed {
    /// The run.
    pub fn run(&self) -> u64
        ensures { result ≡ self.now.route.run }
    {
        self.route.run
    }

    /// The source.
    pub fn from(&self) -> NodeId
        ensures { result ≡ self.now.route.from }
    {
        self.route.from
    }

    /// The target.
    pub fn to(&self) -> NodeId
        ensures { result ≡ self.now.route.to }
    {
        self.route.to
    }

    /// The number of letters that were sent, modulo 2^64.
    pub fn sent(&self) -> u64
        ensures { result ≡ length self.now.letters % 2 ^ 64 }
    {
        self.sent
    }

    /// How many of the letters that were sent were not taken.
    pub fn left(&self) -> u64
        ensures { result ≡ length self.now.letters - length self.now.taken }
    {
        self.sent.wrapping_sub(self.taken)
    }
}
