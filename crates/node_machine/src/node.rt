//! The node.

ghost use Rattle.std.specs.Prelude.{◌≡◌, ◌<◌, [], All, length, OnOk, OnErr};
ghost use Rattle.array_meaning.specs.Faults.{Fault};
ghost use Rattle.machine_steps.specs.Instr.{Running};
ghost use Rattle.machine_steps.specs.Node.{node_steps, act_of, ready, settled};
ghost use Rattle.code_meaning.specs.FaultValues.{fault_values};
ghost use Rattle.code_meaning.specs.ProgramText.{text_meaning};
ghost use Rattle.node_machine.specs.Views.{closed};

use crate::post::Post;
use crate::stage::Stage;
use hpf_base::OutOfMemory;
use letters::{Body, Letter, Parcel};
use node_law::{Act, NodeId, PhasedNode};
use node_program::NodeProgram;
use owner_tables::{Owners, Row};
use part_steps::KeptExchanges;
use remap_steps::Redistribution;
use slot_values::{Control, Kept, Status};
use std::alloc::Global;
use std::collections::VecDeque;
use std::marker::Model;
use std::sync::Arc;

/// A node of a run. Contracts see it as the node of the definitions, whose code are the texts of the program.
#[derive(Drop)]
pub struct Node {
    pub(crate) alloc: Global,
    pub(crate) program: Arc<NodeProgram>,
    pub(crate) id: u32,
    pub(crate) control: Control,
    pub(crate) substep: usize,
    pub(crate) owners: Owners,
    pub(crate) pieces: Vec<Row>,
    pub(crate) kept: Option<Kept>,
    pub(crate) parts: u64,
    pub(crate) joined: Option<i64>,
    pub(crate) line: Vec<u8>,
    pub(crate) printed: Vec<u8>,
    pub(crate) phase: u64,
    pub(crate) stage: Stage,
    pub(crate) post: Post,
    pub(crate) round: u32,
    pub(crate) folded: Vec<i64>,
    /// The redistribution under way, kept from round to round so that it is computed once. No contract sees it.
    pub(crate) moving: Option<Redistribution>,
    pub(crate) exchanges: KeptExchanges,
}

impl Model for Node {
    ghost use Rattle.array_meaning.specs.Faults.{Fault};
    ghost use Rattle.machine_steps.specs.Node.{Node as NodeState};
    ghost use Rattle.code_meaning.specs.ProgramText.{Text, text_meaning};
    ghost use Rattle.node_machine.specs.Views.{node_of, IsNode};
    ghost use Rattle.std.specs.Coded.{codes};
    ghost use Rattle.node_program.specs.Codes.{flat_code, flats_code, form_code};
    ghost use Rattle.node_program.specs.NestCodes.{mark_code};

    ghost Value = { NodeState Text Fault };

    ghost coded = { Prim.hlevel (codes, flat_code, flats_code, form_code, mark_code) };

    ghost view = { node_of };

    ghost invariant = { IsNode };
}

impl PhasedNode for Node {
    ghost use Rattle.machine_steps.specs.Node.{node_steps};
    ghost use Rattle.code_meaning.specs.FaultValues.{fault_values};

    type Mail = Letter;

    ghost steps = { node_steps fault_values text_meaning };

    fn next_act(&self) -> Act {
        match &self.control.status {
            Status::Running => self.running_act(),
            Status::Finished => Act::Done,
            Status::Faulted(_) => Act::Done,
        }
    }

    fn phase(&self) -> u64 {
        self.phase
    }

    fn local(&mut self) -> Result<(), OutOfMemory> {
        match self.stage {
            Stage::Ready => self.begin(),
            Stage::Passing => Ok(()),
            Stage::Passed => self.finish_phase(),
        }
    }

    fn send(&mut self) -> Letter {
        let (parcel, number) = self.post.send();
        let letter = Letter {
            run: 1,
            phase: self.phase,
            from: NodeId(self.id),
            to: NodeId(parcel.to),
            number,
            body: parcel.body,
        };
        self.settle();
        letter
    }

    fn take(&mut self, mail: Letter) {
        self.post.take(mail.body);
        self.settle();
    }
}

impl Node {
    /// What a node does next whose run goes on.
    fn running_act(&self) -> Act
        requires { self.now.control.status ≡ Running }
        ensures { result ≡ act_of {F = Fault} Running self.now.stage }
    {
        match self.stage {
            Stage::Ready => Act::Local,
            Stage::Passing => {
                if let Some(target) = self.post.target() {
                    Act::Send(NodeId(target))
                } else if let Some(source) = self.post.source() {
                    Act::Take(NodeId(source))
                } else {
                    Act::Local
                }
            }
            Stage::Passed => Act::Local,
        }
    }

    /// The last move of a phase turns its number.
    fn settle(&mut self)
        ensures { self.new ≡ closed self.old.stage self.old }
    {
        if self.stage == Stage::Passing && self.post.is_over() {
            self.stage = Stage::Passed;
            self.phase = self.phase.wrapping_add(1);
        }
    }

    /// Opens a phase. It takes no memory.
    pub(crate) fn open(
        &mut self,
        outbox: VecDeque<Parcel>,
        inbox: VecDeque<u32>,
        received: Vec<Body>,
    )
        requires targets { All (λ parcel. parcel.to < self.old.nodes) outbox.items }
        requires sources { All (λ source. source < self.old.nodes) inbox.items }
        ensures { self.new ≡ settled (record self.old { received = received.items }) outbox.items inbox.items }
    {
        self.post.open(outbox, inbox, received);
        self.stage = Stage::Passing;
        self.settle();
    }

    /// Opens a phase in which what was received before stays. It takes no memory.
    pub(crate) fn reopen(&mut self, outbox: VecDeque<Parcel>, inbox: VecDeque<u32>)
        requires targets { All (λ parcel. parcel.to < self.old.nodes) outbox.items }
        requires sources { All (λ source. source < self.old.nodes) inbox.items }
        ensures { self.new ≡ settled self.old outbox.items inbox.items }
    {
        self.post.reopen(outbox, inbox);
        self.stage = Stage::Passing;
        self.settle();
    }

    /// The node before what comes next. It takes no memory.
    pub(crate) fn reset(&mut self)
        ensures { self.new ≡ ready self.old.nodes self.old }
    {
        self.stage = Stage::Ready;
        self.post.clear(self.alloc);
        self.round = 0;
        self.folded = Vec::new(self.alloc);
    }
}
