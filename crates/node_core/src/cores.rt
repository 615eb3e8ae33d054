//! The core and its steps.

ghost use Rattle.std.specs.Prelude.{◌≡◌, ◌↔◌, map, ◌≢◌, suc, ◌<◌, ◌≤◌, ◌*◌, ◌+◌, ◌^◌, List, length, slice_get, slice_set, IfOk, IfSome, OnErr, OnOk, IsTrue, Some, None, ℕ};
ghost use Rattle.std.specs.List.{All};
ghost use Rattle.hpf_base.specs.declared.node.NodeId.{NodeId};
ghost use Rattle.node_law.specs.Cores.{start, core_run, IsEnabled, IsFinished};
ghost use Rattle.node_law.specs.NextPhase.{UnfinishedAt, IsEarlierNumber, IsNextPhase};
ghost use Rattle.node_law.specs.Phases.{Lockstep};
ghost use Rattle.node_law.specs.Reached.{RunsTo, EndsInLockstep, IsStep, IsWaiting, ActsAt, MovesLeft};
ghost use Rattle.node_core.specs.CoreLists.{CoreLists, lists, core_of, IsCore};
ghost use Rattle.node_core.specs.CoreView.{CoreView, state, StopsAt, WantsLocal, IsReady};
ghost use Rattle.node_core.specs.Stage.{IsInStage, CanStep};
ghost use Rattle.node_law.proofs.OneMovesLeft.{left-prop};

use crate::queue::Queue;
use crate::stage::{Stage, is_of_stage};
use hpf_base::OutOfMemory;
use node_law::{Act, NodeId, PhasedNode, Stepped};
use std::alloc::Global;
use std::marker::Model;

/// Nodes, and a queue for each ordered pair of them, the queues of one source after those of another. Contracts
/// see the nodes and the queues as lists, and how many moves of the lockstep run are left. Phased nodes with
/// empty queues reach it by core steps.
#[derive(Drop)]
pub struct Core<N: PhasedNode> {
    nodes: Vec<N>,
    queues: Vec<Queue<N::Mail>>,
    ghost left: { MovesLeft N.steps (core_of (lists nodes.items queues.items)) } by { left-prop N.steps (core_of (lists nodes.items queues.items)) },
}

impl<N: PhasedNode> Model for Core<N> {
    ghost Value = { CoreView N N.Mail };

    ghost view = { λ c. record { lists = lists c.nodes.items c.queues.items; left = c.left.0 } };

    ghost invariant = { λ c. IsCore N.steps (lists c.nodes.items c.queues.items) };
}

// One core step of the node, on the fields of a core.
fn step_in<N: PhasedNode>(
    nodes: &mut Vec<N>,
    queues: &mut Vec<Queue<N::Mail>>,
    node: NodeId,
) -> Result<Stepped, OutOfMemory>
    requires core { IsCore N.steps (lists nodes.old.items queues.old.items) }
    requires there { node.0 < length nodes.old.items }
    ensures step { IfOk result (λ stepped. IsStep N.steps (core_of (lists nodes.old.items queues.old.items)) node.0 stepped
        (core_of (lists nodes.new.items queues.new.items))) }
    ensures core { IsCore N.steps (lists nodes.new.items queues.new.items) }
    ensures stays { IfOk result (λ stepped. stepped ≢ Stepped.Moved → lists nodes.new.items queues.new.items ≡ lists nodes.old.items queues.old.items) }
    ensures same { OnErr result (lists nodes.new.items queues.new.items ≡ lists nodes.old.items queues.old.items) }
    ensures wants { OnErr result (ActsAt N.steps nodes.old.items node.0 Act.Local) }
    ensures count { length nodes.new.items ≡ length nodes.old.items }
{
    let index = node.0 as usize;
    match nodes[index].next_act() {
        Act::Local => {
            nodes[index].local()?;
            Ok(Stepped::Moved)
        }
        Act::Send(target) => {
            let pair = index * nodes.len() + target.0 as usize;
            if queues[pair].is_full() {
                return Ok(Stepped::NotReady);
            }
            let letter = nodes[index].send();
            queues[pair].push(letter);
            Ok(Stepped::Moved)
        }
        Act::Take(source) => {
            let pair = source.0 as usize * nodes.len() + index;
            if queues[pair].is_empty() {
                return Ok(Stepped::NotReady);
            }
            let letter = queues[pair].pop();
            nodes[index].take(letter);
            Ok(Stepped::Moved)
        }
        Act::Done => Ok(Stepped::Ended),
    }
}

// Whether the node is Done.
fn is_done<N: PhasedNode>(node: &N) -> bool
    ensures { IsTrue result ↔ (N.steps.act node.now ≡ Act.Done) }
{
    matches!(node.next_act(), Act::Done)
}

// Whether the node has the number, and its act belongs to the stage.
fn is_in_stage<N: PhasedNode>(node: &N, number: u64, stage: Stage) -> bool
    ensures { IsTrue result ↔ IsInStage N.steps number stage node.now }
{
    node.phase() == number && is_of_stage(node.next_act(), stage)
}

impl<N: PhasedNode> Core<N> {
    /// The core of these nodes, which are phased and fewer than 2^32, with an empty queue for each ordered pair. The
    /// queues' room is taken here.
    pub fn new(alloc: Global, nodes: Vec<N>) -> Result<Core<N>, OutOfMemory>
        requires phased { Lockstep N.steps (slice_get nodes.items) }
        requires few { length nodes.items < 2 ^ 32 }
        ensures start { IfOk result (λ core. state core ≡ start nodes.items) }
        ensures ready { IfOk result (λ core. IsReady N.steps core) }
    {
        let count = nodes.len();
        let mut queues = Vec::new(alloc);
        for _ in 0..count * count {
            queues.push(Queue::new(alloc)?)?;
        }
        Ok(Core { nodes, queues })
    }

    /// The nodes as they stand.
    pub fn into_nodes(self) -> Vec<N>
        ensures { result.items ≡ self.lists.nodes }
    {
        self.nodes
    }

    /// One core step of the node. It answers `NotReady` exactly where the node is to send to a queue of four letters
    /// or to take from an empty one, and `Ended` exactly where the node is Done; both change nothing. Want of memory
    /// comes only from a local step, and changes nothing.
    pub fn step(&mut self, node: NodeId) -> Result<Stepped, OutOfMemory>
        requires { node.0 < length self.old.lists.nodes }
        ensures step { IfOk result (λ stepped. IsStep N.steps (state self.old) node.0 stepped (state self.new)) }
        ensures not_ready { IfOk result (λ stepped. stepped ≡ Stepped.NotReady ↔ IsWaiting N.steps (state self.old) node.0) }
        ensures ended { IfOk result (λ stepped. stepped ≡ Stepped.Ended ↔ ActsAt N.steps self.old.lists.nodes node.0 Act.Done) }
        ensures stays { IfOk result (λ stepped. stepped ≢ Stepped.Moved → self.new ≡ self.old) }

        // A move brings the end nearer.
        ensures left { IfOk result (λ stepped. stepped ≡ Stepped.Moved → suc self.new.left ≡ self.old.left) }
        ensures same { OnErr result (self.new ≡ self.old) }
        ensures wants { OnErr result (ActsAt N.steps self.old.lists.nodes node.0 Act.Local) }
        ensures count { length self.new.lists.nodes ≡ length self.old.lists.nodes }
    {
        step_in(&mut self.nodes, &mut self.queues, node)
    }

    /// Whether the node is enabled: whether a step of it would be a move.
    pub fn enabled(&self, node: NodeId) -> bool
        requires { node.0 < length self.now.lists.nodes }
        ensures { IsTrue result ↔ IsEnabled N.steps (state self.now) node.0 }
    {
        let index = node.0 as usize;
        match self.nodes[index].next_act() {
            Act::Local => true,
            Act::Send(target) => {
                !self.queues[index * self.nodes.len() + target.0 as usize].is_full()
            }
            Act::Take(source) => {
                !self.queues[source.0 as usize * self.nodes.len() + index].is_empty()
            }
            Act::Done => false,
        }
    }

    /// Whether all nodes are Done.
    pub fn finished(&self) -> bool
        ensures { IsTrue result ↔ IsFinished N.steps (state self.now) }
    {
        for node in &self.nodes {
            if !is_done(node) {
                return false;
            }
        }
        true
    }

    /// Whether the node is at this stage of the phase of this number, and is enabled.
    pub(crate) fn can_step(&self, node: NodeId, number: u64, stage: Stage) -> bool
        requires { node.0 < length self.now.lists.nodes }
        ensures { IsTrue result ↔ CanStep N.steps number stage (state self.now) node.0 }
    {
        is_in_stage(&self.nodes[node.0 as usize], number, stage) && self.enabled(node)
    }

    /// The least node at this stage of the phase of this number that is enabled.
    pub(crate) fn find(&self, number: u64, stage: Stage) -> Option<NodeId>
        ensures some { IfSome result (λ node. (node.0 < length self.now.lists.nodes) × CanStep N.steps number stage (state self.now) node.0) }
        ensures none { result ≡ None → (p : ℕ) → ¬ CanStep N.steps number stage (state self.now) p }
    {
        for index in 0..self.nodes.len() {
            let node = NodeId(index as u32);
            if self.can_step(node, number, stage) {
                return Some(node);
            }
        }
        None
    }

    // The number of the first node that is not Done.
    fn first_number(&self) -> u64
        requires { ¬ IsFinished N.steps (state self.now) }
        ensures { UnfinishedAt N.steps self.now.lists.nodes result }
    {
        for node in &self.nodes {
            if !is_done(node) {
                return node.phase();
            }
        }
        unreachable!()
    }

    // The number before `first`, if a node that is not Done has it, and else `first`.
    fn number_before(&self, first: u64) -> u64
        ensures { IsEarlierNumber N.steps self.now.lists.nodes first result }
    {
        for node in &self.nodes {
            if !is_done(node) && node.phase().wrapping_add(1) == first {
                return node.phase();
            }
        }
        first
    }

    /// The number of the next phase, which nodes that are not Done have, or that of such a node where no phase is left.
    pub(crate) fn next_phase(&self) -> u64
        requires unfinished { ¬ IsFinished N.steps (state self.now) }
        requires phased { Lockstep N.steps (slice_get self.now.lists.nodes) }
        ensures next { IsNextPhase N.steps result (slice_get self.now.lists.nodes) }
        ensures there { UnfinishedAt N.steps self.now.lists.nodes result }
    {
        self.number_before(self.first_number())
    }

    /// The steps of these nodes in order. On want of memory those before the refused one stand.
    pub fn run_choices(&mut self, choices: &[NodeId]) -> Result<(), OutOfMemory>
        requires { All (λ (node : NodeId). node.0 < length self.old.lists.nodes) choices.now }
        ensures ok { OnOk result (state self.new ≡ core_run N.steps (state self.old) (map (λ (node : NodeId). node.0) choices.now)) }
        ensures err { OnErr result (StopsAt N.steps (state self.old) (map (λ (node : NodeId). node.0) choices.now) (state self.new)) }
        ensures count { length self.new.lists.nodes ≡ length self.old.lists.nodes }
    {
        for node in choices {
            self.step(*node)?;
        }
        Ok(())
    }

    // A step of each node in turn, which brings the end nearer.
    fn round(&mut self) -> Result<(), OutOfMemory>
        requires { ¬ IsFinished N.steps (state self.old) }
        ensures less { OnOk result (self.new.left < self.old.left) }
        ensures reached { RunsTo N.steps (state self.old) (state self.new) }
        ensures wants { OnErr result (WantsLocal N.steps self.new.lists.nodes) }
    {
        let count = self.nodes.len();
        for index in 0..count {
            self.step(NodeId(index as u32))?;
        }
        Ok(())
    }

    /// Steps nodes 0, 1 and so on again and again until all are Done. The nodes are then the last ones of the lockstep
    /// run. Want of memory comes only from a local step, and then the steps done stand.
    pub fn run_rotation(&mut self) -> Result<(), OutOfMemory>
        ensures finished { OnOk result (IsFinished N.steps (state self.new)) }
        ensures reached { RunsTo N.steps (state self.old) (state self.new) }
        ensures last { OnOk result (EndsInLockstep N.steps (state self.old) self.new.lists.nodes) }
        ensures wants { OnErr result (WantsLocal N.steps self.new.lists.nodes) }
        ensures count { length self.new.lists.nodes ≡ length self.old.lists.nodes }
    {
        while !self.finished() {
            self.round()?;
        }
        Ok(())
    }
}
