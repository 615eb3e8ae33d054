//! The nodes, stepped in some order.

use letters::Letter;
use node_law::{Act, PhasedNode};
use node_machine::Node;
use std::alloc::Global;
use std::collections::VecDeque;

/// How many rounds of steps a case makes at most.
const ROUNDS: u32 = 20_000;

/// How many steps a node makes at most in a round.
const STEPS: u32 = 20_000;

/// The order in which nodes are stepped, again and again.
#[derive(Clone, Copy)]
pub enum Order {
    /// One step each, node 0 first.
    Rotation,
    /// One step each, node 0 last.
    Descending,
    /// Each as long as it moves, node 0 first.
    Whole,
}

/// A letter that was sent.
#[derive(PartialEq, Drop)]
pub struct Sent {
    pub phase: u64,
    pub from: u32,
    pub to: u32,
    pub number: u64,
    pub values: Vec<i64>,
}

/// What a step of a node comes to, and a round of steps, one of each node.
#[derive(Clone, Copy)]
pub enum Progress {
    /// The node moved, or one of the nodes.
    Moved,
    /// None moved, and the node or one of them waits for a letter.
    Waits,
    /// All have ended.
    Ended,
    /// The letter in front isn't the one that its taker waits for.
    Astray,
}

/// Nodes with a queue for each ordered pair of them, the letters that were sent, and how many local steps were refused memory.
#[derive(Drop)]
pub struct Run {
    pub nodes: Vec<Node>,
    queues: Vec<VecDeque<Letter>>,
    pub letters: Vec<Sent>,
    pub refused: u64,
}

impl Run {
    /// These nodes, of which none has made a step.
    pub fn new(alloc: Global, nodes: Vec<Node>) -> Option<Run> {
        let mut queues = Vec::new(alloc);
        for _ in 0..nodes.len() {
            for _ in 0..nodes.len() {
                queues.push(VecDeque::new(alloc)).ok()?;
            }
        }
        Some(Run {
            nodes,
            queues,
            letters: Vec::new(alloc),
            refused: 0,
        })
    }

    /// Steps the nodes again and again, as long as one of them moves, and puts the letters in the order of phases, sources and targets.
    pub fn to_end(&mut self, alloc: Global, order: Order) -> Option<Progress> {
        let mut last = Progress::Moved;
        for _ in 0..ROUNDS {
            last = self.round(alloc, order)?;
            if !matches!(last, Progress::Moved) {
                break;
            }
        }
        self.letters
            .sort_by_key(|sent: &Sent| (sent.phase, sent.from, sent.to))
            .ok()?;
        Some(last)
    }

    /// One turn of each node.
    fn round(&mut self, alloc: Global, order: Order) -> Option<Progress> {
        let mut all = Progress::Ended;
        let count = self.nodes.len();
        for turn in 0..count {
            let made = match order {
                Order::Rotation => self.step(alloc, turn)?,
                Order::Descending => self.step(alloc, count - 1 - turn)?,
                Order::Whole => self.steps(alloc, turn)?,
            };
            all = match (made, all) {
                (Progress::Astray, _) => return Some(Progress::Astray),
                (Progress::Moved, _) | (_, Progress::Moved) => Progress::Moved,
                (Progress::Ended, all) => all,
                (Progress::Waits, _) => Progress::Waits,
            };
        }
        Some(all)
    }

    /// Steps of a node as long as it moves.
    fn steps(&mut self, alloc: Global, index: usize) -> Option<Progress> {
        let mut all = Progress::Ended;
        for _ in 0..STEPS {
            match self.step(alloc, index)? {
                Progress::Moved => all = Progress::Moved,
                Progress::Ended => return Some(all),
                Progress::Waits => {
                    return Some(match all {
                        Progress::Moved => Progress::Moved,
                        _ => Progress::Waits,
                    });
                }
                Progress::Astray => return Some(Progress::Astray),
            }
        }
        Some(all)
    }

    /// A step of a node. A local step that is refused memory changes nothing, and is made at the node's next turn.
    fn step(&mut self, alloc: Global, index: usize) -> Option<Progress> {
        if index >= self.nodes.len() {
            return Some(Progress::Ended);
        }
        match self.nodes[index].next_act() {
            Act::Local => {
                if self.nodes[index].local().is_err() {
                    self.refused = self.refused.saturating_add(1);
                }
                Some(Progress::Moved)
            }
            Act::Send(_) => {
                let letter = self.nodes[index].send();
                self.post(alloc, letter)
            }
            Act::Take(source) => Some(self.take(source.0 as usize, index)),
            Act::Done => Some(Progress::Ended),
        }
    }

    /// Notes a letter, and puts it into its queue.
    fn post(&mut self, alloc: Global, letter: Letter) -> Option<Progress> {
        let from = letter.from.0;
        let to = letter.to.0;
        let values = Vec::from_slice(alloc, letter.body.as_slice()).ok()?;
        let sent = Sent {
            phase: letter.phase,
            from,
            to,
            number: letter.number,
            values,
        };
        self.letters.push(sent).ok()?;
        let pair = self.pair(from as usize, to as usize);
        if pair >= self.queues.len() {
            return Some(Progress::Astray);
        }
        self.queues[pair].push_back(letter).ok()?;
        Some(Progress::Moved)
    }

    /// Has a node take the letter in front of the queue from another, if there is one.
    fn take(&mut self, source: usize, index: usize) -> Progress {
        let pair = self.pair(source, index);
        if pair >= self.queues.len() || index >= self.nodes.len() {
            return Progress::Astray;
        }
        match self.queues[pair].pop_front() {
            Some(letter) => take(&mut self.nodes[index], letter),
            None => Progress::Waits,
        }
    }

    /// The number of the queue of a pair.
    fn pair(&self, from: usize, to: usize) -> usize {
        from.wrapping_mul(self.nodes.len()).wrapping_add(to)
    }
}

/// Gives a node a letter, if it is the one that the node waits for.
fn take(node: &mut Node, letter: Letter) -> Progress {
    match node.next_act() {
        Act::Take(_) => {
            if !node.is_awaited(&letter) {
                return Progress::Astray;
            }
            node.take(letter);
            Progress::Moved
        }
        _ => Progress::Astray,
    }
}
