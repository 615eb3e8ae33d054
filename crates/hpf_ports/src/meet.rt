//! A gate at which two threads meet.

use crate::gate::Gate;
use std::sync::atomic::{AtomicU64, Ordering};
use std::thread;

/// The turns for which a node waits for the other at a `MeetGate`, at most.
pub const MEET_TURNS: u32 = 10_000_000;

/// The gate that holds each of the nodes 0 and 1 before phase 1 until the other has come there, for at most `MEET_TURNS` turns. All others
/// pass at once. So it shows, in a test, that two threads ran at a time.
#[derive(Drop)]
pub struct MeetGate {
    zero: Comer,
    one: Comer,
}

/// One of the two nodes.
#[derive(Drop)]
struct Comer {
    /// 1 where it has come.
    came: AtomicU64,
    /// 1 where it saw the other come before its turns were spent.
    saw: AtomicU64,
}

impl MeetGate {
    /// A gate to which neither node has come yet. It takes no memory.
    pub fn new() -> MeetGate {
        MeetGate {
            zero: Comer::new(),
            one: Comer::new(),
        }
    }

    /// Whether each of the two saw the other come before its own turns were spent.
    pub fn met(&self) -> bool {
        self.zero.has_seen() && self.one.has_seen()
    }
}

impl Gate for MeetGate {
    fn pass(&self, node: u32, phase: u64) {
        if phase == 1 {
            match node {
                0 => self.zero.meet(&self.one),
                1 => self.one.meet(&self.zero),
                _ => {}
            }
        }
    }
}

impl Comer {
    fn new() -> Comer {
        Comer {
            came: AtomicU64::new(0),
            saw: AtomicU64::new(0),
        }
    }

    fn has_seen(&self) -> bool {
        self.saw.load(Ordering::SeqCst) == 1
    }

    /// Comes, and waits for the other.
    fn meet(&self, other: &Comer) {
        self.came.store(1, Ordering::SeqCst);
        for _ in 0..MEET_TURNS {
            if other.came.load(Ordering::SeqCst) == 1 {
                self.saw.store(1, Ordering::SeqCst);
                return;
            }
            thread::yield_now();
        }
    }
}
