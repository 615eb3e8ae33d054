//! What is read at the tuples of a part.

ghost use Rattle.std.specs.Prelude.{◌≡◌, ◌<◌, ◌++◌, ℕ, IfOk, IfSome, OnOk, filter, map, option_map, true};
ghost use Rattle.std.specs.List.{range_with_len};
ghost use Rattle.machine_steps.specs.Message.{Part};
ghost use Rattle.owner_tables.specs.Views.{OwnersView};
ghost use Rattle.storage.specs.Spots.{spot_of};
ghost use Rattle.message_elements.specs.Candidates.{AreCandidates};

use hpf_base::OutOfMemory;
use message_elements::Candidates;
use std::alloc::Global;
use storage::Spot;

/// The elements that a part reads at its tuples, and the nodes that compute each tuple. Contracts see the `part`, and the `owners`: on how
/// many nodes it runs, and how the rows lie there.
pub trait Reads {
    ghost part: { Self → Part };

    ghost owners: { Self → OwnersView };

    /// The number of tuples.
    fn tuples(&self) -> usize
        ensures { result ≡ (part self.now).tuples };

    /// Puts the elements that are read at the tuple, in order, after the others; None where one is no element.
    fn read(&self, tuple: usize, reads: &mut Vec<Option<Spot>>) -> Result<(), OutOfMemory>
        requires { tuple < (part self.now).tuples }
        ensures { OnOk result (map (option_map spot_of) reads.new.items ≡ map (option_map spot_of) reads.old.items ++ (part self.now).reads tuple) };

    /// The nodes that compute the tuple at which these elements are read, counted from 0, ascending.
    fn computing(&self, tuple: usize, reads: &[Option<Spot>]) -> Result<&[u32], OutOfMemory>
        requires tuple { tuple < (part self.now).tuples }
        requires reads { map (option_map spot_of) reads.now ≡ (part self.now).reads tuple }
        ensures { IfOk result (λ computing. computing.now ≡ filter (λ node. (part self.now).computes node tuple) (range_with_len 0 (owners self.now).nodes)) };

    /// The tuples that the node computes, and those at which it may exchange an element with another node, where this is known without a
    /// pass over all tuples.
    fn candidates(&self, alloc: Global, id: u32) -> Result<Option<Candidates>, OutOfMemory>
        requires { id < (owners self.now).nodes }
        ensures { IfOk result (λ found. IfSome found (AreCandidates (owners self.now).nodes (owners self.now).layouts (part self.now) id)) };

    /// Where there is one node, it computes each tuple. It does nothing.
    fn alone(&self)
        requires { (owners self.now).nodes ≡ 1 }
        ensures { (tuple : ℕ) → tuple < (part self.now).tuples → (part self.now).computes 0 tuple ≡ true };
}
