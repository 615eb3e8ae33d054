//! The lockstep run of a core: one phase after another.

ghost use Rattle.std.specs.Prelude.{◌≡◌, ◌≢◌, ◌↔◌, ◌<◌, ℕ, length, slice_get, IfSome, OnErr, OnOk, Some, None};
ghost use Rattle.node_law.specs.Cores.{start, IsFinished};
ghost use Rattle.node_law.specs.NextPhase.{UnfinishedAt, IsNextPhase};
ghost use Rattle.node_law.specs.Phases.{Lockstep};
ghost use Rattle.node_law.specs.Reached.{RunsTo, EndsInLockstep};
ghost use Rattle.node_core.specs.CoreView.{state, WantsLocal, IsReady, EndAlike};
ghost use Rattle.node_core.specs.Stage.{CanStep, CanPass, Advances};

use crate::cores::Core;
use crate::stage::Stage;
use hpf_base::OutOfMemory;
use node_law::{NodeId, PhasedNode};

impl<N: PhasedNode> Core<N> {
    // The local steps of the phase of this number, in ascending order of nodes.
    fn local_steps(&mut self, number: u64) -> Result<(), OutOfMemory>
        requires empty { state self.old ≡ start self.old.lists.nodes }
        requires next { IsNextPhase N.steps number (slice_get self.old.lists.nodes) }
        ensures empty { state self.new ≡ start self.new.lists.nodes }
        ensures next { IsNextPhase N.steps number (slice_get self.new.lists.nodes) }
        ensures none { OnOk result ((p : ℕ) → ¬ CanStep N.steps number Stage.Steps (state self.new) p) }
        ensures advances { Advances N.steps self.old self.new }
        ensures wants { OnErr result (WantsLocal N.steps self.new.lists.nodes) }
    {
        while let Some(node) = self.find(number, Stage::Steps) {
            self.step(node)?;
        }
        Ok(())
    }

    // The least node that can send a letter of the phase of this number, or take one where none can send.
    fn next_letter(&self, number: u64) -> Option<NodeId>
        ensures some { IfSome result (λ node. (node.0 < length self.now.lists.nodes) × CanPass N.steps number (state self.now) node.0) }
        ensures none { result ≡ None → (p : ℕ) → ¬ CanPass N.steps number (state self.now) p }
    {
        match self.find(number, Stage::Sends) {
            Some(node) => Some(node),
            None => self.find(number, Stage::Takes),
        }
    }

    // The sends and then the takes of the phase of this number, in ascending order of nodes.
    fn letters(&mut self, number: u64)
        requires empty { state self.old ≡ start self.old.lists.nodes }
        requires next { IsNextPhase N.steps number (slice_get self.old.lists.nodes) }
        requires none { (p : ℕ) → ¬ CanStep N.steps number Stage.Steps (state self.old) p }
        ensures ready { IsReady N.steps self.new }
        ensures passed { ¬ UnfinishedAt N.steps self.new.lists.nodes number }
        ensures advances { Advances N.steps self.old self.new }
    {
        while let Some(node) = self.next_letter(number) {
            match self.step(node) {
                Ok(_) => {}
                Err(_) => unreachable!(),
            }
        }
    }

    // The phase of this number.
    fn pass(&mut self, number: u64) -> Result<(), OutOfMemory>
        requires empty { state self.old ≡ start self.old.lists.nodes }
        requires next { IsNextPhase N.steps number (slice_get self.old.lists.nodes) }
        requires there { UnfinishedAt N.steps self.old.lists.nodes number }
        ensures ready { IsReady N.steps self.new }
        ensures less { OnOk result (self.new.left < self.old.left) }
        ensures reached { RunsTo N.steps (state self.old) (state self.new) }
        ensures wants { OnErr result (WantsLocal N.steps self.new.lists.nodes) }
    {
        self.local_steps(number)?;
        self.letters(number);
        Ok(())
    }

    /// Passes the phases of the lockstep run one after another, and then makes the local steps that are left. In a phase
    /// it makes all local steps, then all sends, then all takes, each in ascending order of nodes. It needs that all
    /// queues are empty and the nodes phased, as they are in a new core. Want of memory comes only from a local step. Then the
    /// steps done stand, and the same is true again with the same last nodes, so that a further call goes on from there.
    pub fn run_lockstep(&mut self) -> Result<(), OutOfMemory>
        requires ready { IsReady N.steps self.old }
        ensures finished { OnOk result (IsFinished N.steps (state self.new)) }
        ensures reached { RunsTo N.steps (state self.old) (state self.new) }
        ensures last { OnOk result (EndsInLockstep N.steps (state self.old) self.new.lists.nodes) }
        ensures ready { IsReady N.steps self.new }
        ensures wants { OnErr result (WantsLocal N.steps self.new.lists.nodes) }
        ensures alike { EndAlike N.steps self.old.lists.nodes self.new.lists.nodes }
        ensures count { length self.new.lists.nodes ≡ length self.old.lists.nodes }
    {
        while !self.finished() {
            self.pass(self.next_phase())?;
        }
        Ok(())
    }
}
