//! The values of elements and of tuples on a node after the phase of a part.

ghost use Rattle.std.specs.Prelude.{◌≡◌, ◌+◌, ◌-◌, ◌*◌, ◌^◌, ◌<◌, ◌≤◌, ◌++◌, ◌∷◌, [], IfOk, IfSome, OnOk, length, map, slice_index_or};
ghost use Rattle.std.specs.List.{range_with_len};
ghost use Rattle.storage.specs.Spots.{spot_of};
ghost use Rattle.tuple_values.specs.Outcomes.{outcome_view};
ghost use Rattle.tuple_values.specs.Statements.{tuple_place};
ghost use Rattle.tuple_values.specs.Strips.{line_spot};
ghost use Rattle.tuple_values.specs.Views.{statement as statement_of};
ghost use Rattle.part_steps.specs.After.{after, outcome_of, received_value, value_of};
ghost use Rattle.part_steps.specs.Exchanged.{IsComputed, IsExchange, computed_of};
ghost use Rattle.part_steps.specs.Gathered.{after_of};
ghost use Rattle.part_steps.specs.Views.{part_view};

use crate::gathered::Gathered;
use crate::lines::{is_near, spot_in};
use crate::part::Part;
use comm_sets::{Exchange, Spot, value_in};
use hpf_base::OutOfMemory;
use letters::Body;
use owner_tables::{Row, held_value, push_held};
use std::alloc::Global;
use tuple_numbers::Tuples;
use tuple_values::{ElementLine, Elements, Outcome};

impl<'a> Gathered<'a> {
    /// The node's number, its pieces of all rows, the values that it received from each node, and what it exchanged.
    pub(crate) fn new(
        part: &'a Part<'a>,
        id: u32,
        pieces: &'a [Row],
        received: &'a [Body],
        exchange: &'a Exchange,
    ) -> Gathered<'a>
        requires id { id < part.now.owners.now.nodes }
        requires exchange { IsExchange (part_view part.now) id exchange.now }
        ensures { after_of result ≡ after (part_view part.now) id pieces.now received.now }
    {
        Gathered {
            part,
            id,
            pieces,
            received,
            exchange,
        }
    }

    /// The tuples that the node computes, ascending.
    pub(crate) fn computed(&self) -> &Tuples
        ensures { result.now ≡ computed_of (after_of self.now) }
    {
        &self.exchange.computed
    }

    /// The value of an element: the node's own, or received; 0 where there is no such element.
    pub(crate) fn get(&self, spot: Spot) -> i64
        ensures { result ≡ value_of (after_of self.now) (spot_of spot) }
    {
        match held_value(self.part.owners, self.id, self.pieces, spot) {
            Some(value) => value,
            None => self.received_value(spot),
        }
    }

    /// The value that the node received of an element.
    fn received_value(&self, spot: Spot) -> i64
        ensures { result ≡ received_value (after_of self.now) (spot_of spot) }
    {
        let source = self.part.owners.sender(spot);
        value_in(
            self.exchange.incoming.with(source),
            values_from(self.received, source),
            spot,
        )
    }

    /// The values of so many elements of a line.
    fn line_values(
        &self,
        alloc: Global,
        line: ElementLine,
        count: usize,
    ) -> Result<Option<Vec<i64>>, OutOfMemory>
        requires { line.first.at + (count - 1) * line.step < 2 ^ 64 }
        ensures { IfOk result (λ p. IfSome p (λ vs. vs.items ≡ map (λ k. value_of (after_of self.now) (line_spot line k)) (range_with_len 0 count))) }
    {
        let mut values = Vec::with_capacity(alloc, count)?;
        while values.len() < count {
            let done = values.len();
            self.push_values(line, done, count, &mut values)?;
        }
        Ok(Some(values))
    }

    /// Puts the values of elements of a line after those of the elements before them, which are so many: of as many as the node owns, or of one.
    fn push_values(
        &self,
        line: ElementLine,
        done: usize,
        count: usize,
        values: &mut Vec<i64>,
    ) -> Result<(), OutOfMemory>
        requires some { done < count }
        requires done { done ≡ length values.old.items }
        requires near { line.first.at + (count - 1) * line.step < 2 ^ 64 }
        requires before { values.old.items ≡ map (λ k. value_of (after_of self.now) (line_spot line k)) (range_with_len 0 done) }
        ensures more { OnOk result (done < length values.new.items) }
        ensures few { OnOk result (length values.new.items ≤ count) }
        ensures after { OnOk result (values.new.items ≡ map (λ k. value_of (after_of self.now) (line_spot line k)) (range_with_len 0 (length values.new.items))) }
    {
        let next = spot_in(line, done);
        let owners = self.part.owners;
        let put = push_held(
            owners,
            self.id,
            self.pieces,
            next,
            line.step,
            count - done,
            values,
        )?;
        if put == 0 {
            self.push_value(next, values)?;
        }
        Ok(())
    }

    /// Puts the value of an element after the others.
    fn push_value(&self, spot: Spot, values: &mut Vec<i64>) -> Result<(), OutOfMemory>
        ensures { OnOk result (values.new.items ≡ values.old.items ++ value_of (after_of self.now) (spot_of spot) ∷ []) }
    {
        values.push(self.get(spot))?;
        Ok(())
    }

    /// What a tuple that the node computes comes to, by the place of what is assigned.
    pub(crate) fn outcome(&self, tuple: usize, place: Option<usize>) -> Result<Outcome, OutOfMemory>
        requires computed { IsComputed (after_of self.now) tuple }
        requires place { place ≡ tuple_place (statement_of self.now.part.now.statement.now) tuple }
        ensures { IfOk result (λ o. outcome_view o ≡ outcome_of (after_of self.now) tuple) }
    {
        self.part.statement.outcome(tuple, place, self)
    }
}

impl<'a> Elements for Gathered<'a> {
    ghost use Rattle.part_steps.specs.After.{value_of};
    ghost use Rattle.part_steps.specs.Gathered.{after_of};

    ghost get = { λ g. value_of (after_of g) };

    fn value(&self, spot: Spot) -> i64 {
        self.get(spot)
    }

    fn line(
        &self,
        alloc: Global,
        first: Spot,
        step: usize,
        count: usize,
    ) -> Result<Option<Vec<i64>>, OutOfMemory> {
        let line = ElementLine { first, step };
        if is_near(line, count) {
            self.line_values(alloc, line, count)
        } else {
            Ok(None)
        }
    }
}

/// The values received from a node; none where there is no such node.
fn values_from(received: &[Body], node: u32) -> &[i64]
    ensures { result.now ≡ slice_index_or received.now node [] }
{
    if (node as usize) < received.len() {
        received[node as usize].as_slice()
    } else {
        &[]
    }
}
