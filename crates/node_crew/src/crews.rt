//! Crews: the stations that one thread steps in turn.

ghost use Rattle.std.specs.Prelude.{◌≡◌, map, OnOk};
ghost use Rattle.stations.specs.Stations.{fixed};

use hpf_base::OutOfMemory;
use hpf_ports::Gate;
use node_law::Stepped;
use sendable_nodes::Node;
use stations::Station;
use std::marker::Model;
use std::sync::Wait;
use std::sync::atomic::{AtomicU64, Ordering};
use std::thread;

/// The stations that one thread steps. Contracts see what no step of them changes.
#[derive(Drop)]
pub(crate) struct Crew {
    pub(crate) stations: Vec<Station<Node>>,
}

impl Model for Crew {
    ghost use Rattle.std.specs.Prelude.{List, map};
    ghost use Rattle.array_meaning.specs.Faults.{Fault};
    ghost use Rattle.machine_steps.specs.Node.{Node as NodeState};
    ghost use Rattle.code_meaning.specs.ProgramText.{Text};
    ghost use Rattle.sendable_nodes.specs.contracts.Node as n;
    ghost use Rattle.std.specs.Coded.{codes};
    ghost use Rattle.stations.specs.Stations.{Fixed, fixed};

    ghost Value = { List (Fixed (NodeState Text Fault)) };

    ghost coded = { Prim.hlevel (codes, n.the_row.coded) };

    ghost view = { λ c. map fixed c.stations.items };
}

/// What came of one step of each station.
#[derive(Clone, Copy)]
pub(crate) enum Turn {
    /// All had ended.
    Over,
    /// Some moved.
    Moved,
    /// None moved, and some had not ended.
    Still,
}

/// What came of two turns, or of parts of one.
pub(crate) fn joined(one: Turn, other: Turn) -> Turn {
    match one {
        Turn::Moved => Turn::Moved,
        Turn::Over => other,
        Turn::Still => match other {
            Turn::Moved => Turn::Moved,
            _ => Turn::Still,
        },
    }
}

// Local steps of a station's node that take no memory, and then one step of the station. It fails where the node is refused memory in it.
fn step_one<R: Wait, G: Gate>(
    rt: &R,
    gate: &G,
    station: &mut Station<Node>,
) -> Result<Stepped, OutOfMemory>
    ensures { fixed station.new ≡ fixed station.old }
{
    if let Some((node, phase)) = station.comes_to() {
        gate.pass(node, phase);
    }
    station.run_local();
    station.step(rt)
}

// What came of such a step. Where the node was refused memory, the word `halt` is set, at which all crews stop.
fn turn_of<R: Wait, G: Gate>(
    rt: &R,
    gate: &G,
    station: &mut Station<Node>,
    halt: &AtomicU64,
) -> Turn
    ensures { fixed station.new ≡ fixed station.old }
{
    match step_one(rt, gate, station) {
        Ok(Stepped::Moved) => Turn::Moved,
        Ok(Stepped::NotReady) => Turn::Still,
        Ok(Stepped::Ended) => Turn::Over,
        Err(_) => {
            halt.store(1, Ordering::SeqCst);
            Turn::Still
        }
    }
}

/// One step of each of these stations, in order. It fails where a node is refused memory.
pub(crate) fn step_each<R: Wait, G: Gate>(
    rt: &R,
    gate: &G,
    stations: &mut Vec<Station<Node>>,
) -> Result<(), OutOfMemory>
    ensures { OnOk result (map fixed stations.new.items ≡ map fixed stations.old.items) }
{
    for station in stations.iter_mut() {
        step_one(rt, gate, station)?;
    }
    Ok(())
}

impl Crew {
    /// One step of each station, in order.
    pub(crate) fn step_all<R: Wait, G: Gate>(&mut self, rt: &R, gate: &G, halt: &AtomicU64) -> Turn
        ensures { self.new ≡ self.old }
    {
        let mut turn = Turn::Over;
        for station in self.stations.iter_mut() {
            turn = joined(turn, turn_of(rt, gate, station, halt));
        }
        turn
    }

    /// The crew after its work: all its stations have ended, or one of the two words was set.
    pub(crate) fn run<R: Wait, G: Gate>(
        mut self,
        rt: &R,
        gate: &G,
        halt: &AtomicU64,
        recall: &AtomicU64,
    ) -> Crew
        ensures { result ≡ self }
    {
        for _ in rt.forever() {
            if halt.load(Ordering::SeqCst) != 0 || recall.load(Ordering::SeqCst) != 0 {
                break;
            }
            match self.step_all(rt, gate, halt) {
                Turn::Over => break,
                Turn::Moved => {}
                Turn::Still => thread::yield_now(),
            }
        }
        self
    }
}
