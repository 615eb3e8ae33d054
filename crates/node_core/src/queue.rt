//! The queue of an ordered pair of nodes.

ghost use Rattle.std.specs.Prelude.{◌≡◌, ◌<◌, ◌≤◌, List, [], ◌∷◌, ◌++◌, ◌==◌, false, length, IfOk, IsTrue};
ghost use Rattle.std.specs.VecDeque.{deque_len, deque_capacity};
ghost use Rattle.node_law.specs.Cores.{capacity};

use hpf_base::OutOfMemory;
use std::alloc::Global;
use std::collections::VecDeque;
use std::marker::Model;

// The most letters that a queue holds.
const CAPACITY: usize = 4;

/// Up to four letters, the oldest first.
#[derive(Drop)]
pub struct Queue<M> {
    letters: VecDeque<M>,
}

impl<M> Model for Queue<M> {
    ghost Value = { List M };

    ghost view = { λ q. q.letters.items };

    ghost invariant = { λ q. (deque_len q.letters ≤ capacity) × (deque_capacity q.letters ≡ capacity) };
}

impl<M: Drop> Queue<M> {
    /// An empty queue, with its room.
    pub fn new(alloc: Global) -> Result<Queue<M>, OutOfMemory>
        ensures { IfOk result (λ q. q ≡ []) }
    {
        let letters = VecDeque::with_capacity(alloc, CAPACITY)?;
        Ok(Queue { letters })
    }

    /// Whether there are four letters in it.
    pub(crate) fn is_full(&self) -> bool
        ensures full { IsTrue result → length self.now ≡ capacity }
        ensures room { result ≡ false → length self.now < capacity }
    {
        self.letters.len() == CAPACITY
    }

    /// Whether there is no letter in it.
    pub(crate) fn is_empty(&self) -> bool
        ensures { result ≡ (length self.now == 0) }
    {
        self.letters.is_empty()
    }

    /// Puts a letter after the others.
    pub fn push(&mut self, letter: M)
        requires { length self.old < capacity }
        ensures { self.new ≡ self.old ++ letter ∷ [] }
    {
        match self.letters.push_back(letter) {
            Ok(()) => {}
            Err(_) => unreachable!(),
        }
    }

    /// Takes the front letter.
    pub(crate) fn pop(&mut self) -> M
        requires { 0 < length self.old }
        ensures { self.old ≡ result ∷ self.new }
    {
        match self.letters.pop_front() {
            Some(letter) => letter,
            None => unreachable!(),
        }
    }
}
