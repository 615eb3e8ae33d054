//! One node with the ends of its queues, and a letter that it made and that isn't sent yet.

ghost use Rattle.std.specs.Prelude.{◌≡◌, ◌<◌, ◌↔◌, length, Some, None, IfOk, IfSome, OnErr, IsTrue, slice_get, slice_set};
ghost use Rattle.node_law.specs.LocalSteps.{AreLocalSteps};
ghost use Rattle.pair_mailbox.specs.Rule.{IsNextLetter};
ghost use Rattle.pair_mailbox.specs.Ends.{Incoming};
ghost use Rattle.stations.specs.Lettered.{IsLettered};
ghost use Rattle.stations.specs.Stations.{fixed, HasEnded, AreUnusedOuts, AreUnusedIns, Stands};
ghost use Rattle.stations.specs.Steps.{IsPushed, IsPushedAt, IsPopped, IsStationStep};

use hpf_base::OutOfMemory;
use letters::Letter;
use node_law::{Act, LocalRuns, PhasedNode, Stepped};
use pair_mailbox::{InEnd, OutEnd};
use std::marker::Model;
use std::snapshot::Snapshot;
use std::sync::Wait;

/// A letter that was made and isn't sent yet.
#[derive(Drop)]
pub struct Kept {
    /// The number of the node that it is for.
    pub to: usize,
    /// The letter.
    pub letter: Letter,
}

/// What a station has beside its node.
#[derive(Drop)]
struct Ends {
    id: u32,
    outs: Vec<OutEnd>,
    ins: Vec<InEnd>,
    kept: Option<Kept>,
    /// The phase that `comes_to` gave last. No contract sees it.
    phase: Option<u64>,
}

/// One node of a run, with the ends of its queues to each node and from each node, by their numbers. Contracts see its number, the node
/// at its opening and now, its ends, and the letter that was made and isn't sent yet. What holds of these is `Stands`: some moves lead from
/// the opening to the node with the letters that its ends have taken, and these moves made the letters that its ends have sent, and
/// then the one that is kept.
#[derive(Drop)]
pub struct Station<N: PhasedNode<Mail = Letter>> {
    opening: Snapshot<N>,
    node: N,
    ends: Ends,
}

impl<N: PhasedNode<Mail = Letter>> Model for Station<N> {
    ghost use Rattle.stations.specs.Stations.{StationState, Stands};

    ghost Value = { StationState N };

    ghost view = { λ s. record { id = s.ends.id; opening = s.opening.value; node = s.node; outs = s.ends.outs.items; ins = s.ends.ins.items; kept = s.ends.kept } };

    ghost invariant = { λ s. Stands N.steps s.ends.id s.opening.value s.node s.ends.outs.items s.ends.ins.items s.ends.kept };
}

// One push at an end. A letter that comes back is kept.
fn push<R: Wait>(rt: &R, out: &mut OutEnd, letter: Letter) -> (Stepped, Option<Letter>)
    requires { IsNextLetter out.old.route (length out.old.sent) letter }
    ensures { IsPushed out.old letter result.0 result.1 out.new }
{
    match out.send(rt, letter) {
        Ok(()) => (Stepped::Moved, None),
        Err(back) => (Stepped::NotReady, Some(back)),
    }
}

// One push at the end to this node.
fn push_at<R: Wait>(
    rt: &R,
    outs: &mut Vec<OutEnd>,
    to: usize,
    letter: Letter,
) -> (Stepped, Option<Kept>)
    requires there { to < length outs.old.items }
    requires next { IfSome (slice_get outs.old.items to) (λ o. IsNextLetter o.route (length o.sent) letter) }
    ensures { IsPushedAt outs.old.items to letter result.0 result.1 outs.new.items }
{
    let (stepped, back) = push(rt, &mut outs[to], letter);
    match back {
        None => (stepped, None),
        Some(letter) => (stepped, Some(Kept { to, letter })),
    }
}

// One pop at the end from this node.
fn pop_at<R: Wait>(rt: &R, ins: &mut Vec<InEnd>, from: usize) -> Option<Letter>
    requires { from < length ins.old.items }
    ensures popped { (i : Incoming) × (i' : Incoming) × (slice_get ins.old.items from ≡ Some i) × (ins.new.items ≡ slice_set ins.old.items from i')
        × IsPopped i result i' }
    ensures next { IfSome result (λ x. IfSome (slice_get ins.old.items from) (λ i. IsNextLetter i.route (length i.taken) x)) }
{
    let inn = &mut ins[from];
    inn.take(rt)
}

impl<N: PhasedNode<Mail = Letter>> Station<N> {
    /// The station of a node at its opening, which is the number `id` of as many as there are ends of either kind: ends to each node and
    /// from each node, by their numbers, on which nothing was sent or taken. It takes no memory.
    pub fn new(id: u32, node: N, outs: Vec<OutEnd>, ins: Vec<InEnd>) -> Station<N>
        requires lettered { IsLettered N.steps (length outs.items) id node }
        requires as_many { length ins.items ≡ length outs.items }
        requires outs { AreUnusedOuts id outs.items }
        requires ins { AreUnusedIns id ins.items }
        ensures { result ≡ record { id = id; opening = node; node = node; outs = outs.items; ins = ins.items; kept = None } }
    {
        Station {
            opening: Snapshot::of(&node),
            node,
            ends: Ends {
                id,
                outs,
                ins,
                kept: None,
                phase: None,
            },
        }
    }

    /// True exactly where the node is Done and no letter is kept.
    pub(crate) fn ended(&self) -> bool
        ensures { IsTrue result ↔ HasEnded N.steps self.now }
    {
        matches!(self.node.next_act(), Act::Done) && self.ends.kept.is_none()
    }

    /// The node of a station that has ended, its ends to each node and its ends from each node. What the station's type says stays known.
    pub(crate) fn into_parts(self) -> (N, Vec<OutEnd>, Vec<InEnd>)
        requires { HasEnded N.steps self }
        ensures parts { (result.0 ≡ self.node) × (result.1.items ≡ self.outs) × (result.2.items ≡ self.ins) }
        ensures stands { Stands N.steps self.id self.opening self.node self.outs self.ins None }
    {
        let Station {
            opening: _,
            node,
            ends,
        } = self;
        let Ends {
            id: _,
            outs,
            ins,
            kept: _,
            phase: _,
        } = ends;
        (node, outs, ins)
    }

    /// The node's number and the number of its phase, once for each phase that the node comes to. None while a letter is kept. It takes
    /// no memory.
    pub fn comes_to(&mut self) -> Option<(u32, u64)>
        ensures { self.new ≡ self.old }
    {
        let phase = self.node.phase();
        if self.ends.kept.is_none() && self.ends.phase != Some(phase) {
            self.ends.phase = Some(phase);
            Some((self.ends.id, phase))
        } else {
            None
        }
    }

    /// One step: the push of the letter that is kept, or else what the node's act says. NotReady means that the push or the pop was
    /// refused, which a queue does where it is full or empty at that step. Want of memory comes only from a local step, and changes nothing.
    pub fn step<R: Wait>(&mut self, rt: &R) -> Result<Stepped, OutOfMemory>
        ensures same { fixed self.new ≡ fixed self.old }
        ensures step { IfOk result (λ r. IsStationStep N.steps self.old r self.new) }
        ensures err { OnErr result ((self.new ≡ self.old) × (self.old.kept ≡ None) × (N.steps.act self.old.node ≡ Act.Local)) }
    {
        match self.ends.kept.take() {
            Some(kept) => {
                let Kept { to, letter } = kept;
                let (stepped, kept) = push_at(rt, &mut self.ends.outs, to, letter);
                self.ends.kept = kept;
                Ok(stepped)
            }
            None => self.act(rt),
        }
    }

    // One step of a station that keeps no letter.
    fn act<R: Wait>(&mut self, rt: &R) -> Result<Stepped, OutOfMemory>
        requires { self.old.kept ≡ None }
        ensures same { fixed self.new ≡ fixed self.old }
        ensures step { IfOk result (λ r. IsStationStep N.steps self.old r self.new) }
        ensures err { OnErr result ((self.new ≡ self.old) × (self.old.kept ≡ None) × (N.steps.act self.old.node ≡ Act.Local)) }
    {
        match self.node.next_act() {
            Act::Local => {
                self.node.local()?;
                Ok(Stepped::Moved)
            }
            Act::Send(target) => {
                let to = target.0 as usize;
                let letter = self.node.send();
                let (stepped, kept) = push_at(rt, &mut self.ends.outs, to, letter);
                self.ends.kept = kept;
                Ok(stepped)
            }
            Act::Take(source) => match pop_at(rt, &mut self.ends.ins, source.0 as usize) {
                Some(letter) => {
                    self.node.take(letter);
                    Ok(Stepped::Moved)
                }
                None => Ok(Stepped::NotReady),
            },
            Act::Done => Ok(Stepped::Ended),
        }
    }
}

impl<N: LocalRuns<Mail = Letter>> Station<N> {
    /// Local steps of the node, as many as it likes in one call; none while a letter is kept. It takes no memory.
    pub fn run_local(&mut self)
        ensures same { fixed self.new ≡ fixed self.old }
        ensures steps { AreLocalSteps N.steps self.old.node self.new.node }
        ensures rest { self.new ≡ record self.old { node = self.new.node } }
        ensures kept { (letter : Kept) → self.old.kept ≡ Some letter → self.new ≡ self.old }
    {
        if self.ends.kept.is_none() {
            self.node.run();
        }
    }
}
