//! Who computes the tuples of a part.

ghost use Rattle.std.specs.Prelude.{◌≡◌, ◌≤◌, ◌∷◌, [], filter, slice_index_or};
ghost use Rattle.std.specs.List.{range_with_len};
ghost use Rattle.machine_steps.specs.Layout.{in_bounds};
ghost use Rattle.machine_steps.specs.Message.{computes_left, first_read, least_or_zero};
ghost use Rattle.tuple_values.specs.Spots.{read_of, reads_of};

use crate::part::Part;
use crate::visiting::part_visits;
use crate::who::Who;
use comm_sets::{Owners, Reads, Spot};
use hpf_base::OutOfMemory;
use message_elements::Candidates;
use std::alloc::Global;

impl<'a> Reads for Part<'a> {
    ghost use Rattle.part_steps.specs.Parts.{part_of};
    ghost use Rattle.part_steps.specs.Views.{part_view};

    ghost part = { λ p. part_of (part_view p) };

    ghost owners = { λ p. p.owners.now };

    fn tuples(&self) -> usize {
        self.statement.count()
    }

    fn read(&self, tuple: usize, reads: &mut Vec<Option<Spot>>) -> Result<(), OutOfMemory> {
        self.statement.read(tuple, reads)
    }

    fn computing(&self, tuple: usize, reads: &[Option<Spot>]) -> Result<&[u32], OutOfMemory> {
        match self.who {
            Who::Left => {
                let left = self.statement.left(tuple)?;
                Ok(assigners(self.owners, left))
            }
            Who::First => Ok(first_node(self.owners, reads)),
            Who::Root => Ok(&[0]),
        }
    }

    fn candidates(&self, alloc: Global, id: u32) -> Result<Option<Candidates>, OutOfMemory> {
        part_visits(alloc, self, id)
    }

    fn alone(&self) {
        self.owners.are_dealt();
    }
}

/// The owners of what is assigned; node 0 where that is no element.
fn assigners(owners: &Owners, left: Option<Spot>) -> &[u32]
    requires { 1 ≤ owners.now.nodes }
    ensures { result.now ≡ filter (λ node. computes_left owners.now.layouts node (in_bounds owners.now.layouts (read_of left))) (range_with_len 0 owners.now.nodes) }
{
    match left {
        Some(spot) => {
            if owners.is_in_bounds(spot) {
                owners.owners(spot)
            } else {
                &[0]
            }
        }
        None => &[0],
    }
}

/// The least owner of the first of these elements, as a list; node 0 where there is none.
fn first_node<'b>(owners: &'b Owners, reads: &[Option<Spot>]) -> &'b [u32]
    ensures { result.now ≡ least_or_zero owners.now.nodes owners.now.layouts (in_bounds owners.now.layouts (first_read (reads_of reads.now))) ∷ [] }
{
    match reads {
        [first, ..] => least_node(owners, *first),
        [] => &[0],
    }
}

/// The least owner of an element, as a list; node 0 where there is none.
fn least_node(owners: &Owners, read: Option<Spot>) -> &[u32]
    ensures { result.now ≡ least_or_zero owners.now.nodes owners.now.layouts (in_bounds owners.now.layouts (read_of read)) ∷ [] }
{
    if let Some(spot) = read
        && owners.is_in_bounds(spot)
    {
        first_or_zero(owners.owners(spot))
    } else {
        &[0]
    }
}

/// The first of the numbers, as a list; 0 where there is none.
fn first_or_zero(numbers: &[u32]) -> &[u32]
    ensures { result.now ≡ slice_index_or numbers.now 0 0 ∷ [] }
{
    if numbers.is_empty() {
        &[0]
    } else {
        &numbers[..1]
    }
}
