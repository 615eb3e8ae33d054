//! What a walk of the iterations of a nest knows, and notes.

ghost use Rattle.std.specs.Prelude.{◌≡◌, ◌∷◌, [], OnOk};
ghost use Rattle.array_meaning.specs.Iterations.{is_in};
ghost use Rattle.array_meaning.specs.Touches.{scalar_touch};
ghost use Rattle.interference.specs.Walks.{hidden, inside, noted, outside, walk_of};

use std::alloc::AllocError;
use visited_objects::Visits;

/// A walk of the iterations of a nest: the number of the iteration, from 0; the scalars that the nest assigns; the indices of the inner
/// loops round a statement, the innermost last; the other scalars of which each iteration has its own; and how objects were visited so far.
#[derive(Drop)]
pub(crate) struct Walk {
    pub iteration: u32,
    pub assigned: Vec<usize>,
    pub inner: Vec<usize>,
    pub own: Vec<usize>,
    pub visits: Visits,
}

/// Whether a name is among others. It takes no memory.
pub(crate) fn is_in(name: usize, names: &[usize]) -> bool
    ensures { result ≡ is_in name names.now }
{
    names.iter().any(|n| name == *n)
}

impl Walk {
    /// Whether each iteration has its own scalar of this name. It takes no memory.
    #[tactic(auto, using(crate::proofs::OwnScalars::in_both))]
    fn is_hidden(&self, name: usize) -> bool
        ensures { result ≡ is_in name (hidden (walk_of self.now)) }
    {
        is_in(name, &self.inner) | is_in(name, &self.own)
    }

    /// Notes that a scalar is read or written. An `Err` is want of memory.
    pub(crate) fn note_scalar(&mut self, name: usize, writes: bool) -> Result<(), AllocError>
        ensures { OnOk result (walk_of self.new ≡ noted (walk_of self.old) (scalar_touch (hidden (walk_of self.old)) writes name)) }
    {
        if self.is_hidden(name) {
            return Ok(());
        }
        self.note(name, 0, writes)
    }

    /// Notes that an object is read or written. An `Err` is want of memory.
    pub(crate) fn note(&mut self, name: usize, place: usize, writes: bool) -> Result<(), AllocError>
        ensures { OnOk result (walk_of self.new ≡ noted (walk_of self.old) (record { name = name; place = place; writes = writes } ∷ [])) }
    {
        self.visits.touch(self.iteration, name, place, writes)
    }

    /// Goes inside a loop with an index. An `Err` is want of memory.
    pub(crate) fn go_inside(&mut self, index: usize) -> Result<(), AllocError>
        ensures { OnOk result (walk_of self.new ≡ inside index (walk_of self.old)) }
    {
        self.inner.push(index)?;
        Ok(())
    }

    /// Goes outside the innermost loop. It takes no memory.
    pub(crate) fn go_outside(&mut self)
        ensures { walk_of self.new ≡ outside (walk_of self.old) }
    {
        let _ = self.inner.pop();
    }
}
