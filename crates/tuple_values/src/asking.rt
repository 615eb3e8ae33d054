//! What is asked of parallel statements.

ghost use Rattle.std.specs.Prelude.{◌≡◌, ◌<◌, ◌++◌, map, IfErr, IfOk, Ok, OnOk};
ghost use Rattle.machine_steps.specs.Instr.{Value};
ghost use Rattle.machine_steps.specs.Machine.{value_by};
ghost use Rattle.code_meaning.specs.Parallel.{as_asked, reads_at};
ghost use Rattle.node_code.specs.Texts.{subs, when};
ghost use Rattle.op_tables.specs.Operators.{is_true};
ghost use Rattle.term_values.specs.Stops.{IsStop};
ghost use Rattle.tuple_values.specs.ByElements.{value_by_elements};
ghost use Rattle.tuple_values.specs.Outcomes.{outcome_view};
ghost use Rattle.tuple_values.specs.Spots.{read_of, reads_of};
ghost use Rattle.courses.specs.Entries.{axes_in};
ghost use Rattle.tuple_values.specs.Statements.{asked_by, asked_outcome, asks, bounded_value, copied_by, made_by, entries, form_seeing, indexed_place, left_in, read_form, tuple_count, tuple_left, tuple_outcome, tuple_place, tuple_reads, value_at};
ghost use Rattle.tuple_values.specs.Views.{statement};

use crate::assigned::assigned_place;
use crate::elements::Elements;
use crate::here::Here;
use crate::outcome::{Outcome, broken};
use crate::reads::{copy_reads, form_reads, in_row, mask_reads, section_read};
use crate::right::Right;
use crate::sections::section_place;
use crate::statement::ParallelStatement;
use crate::target::Target;
use crate::values::{form_value, section_value};
use array_meaning::FaultKind;
use hpf_base::OutOfMemory;
use node_code::{Sub, When};
use op_tables::Made;
use smallvec::SmallVec;
use std::alloc::AllocError;
use storage::Spot;
use term_values::{Stop, fault};

impl<'a> ParallelStatement<'a> {
    /// The number of tuples. It takes no memory.
    pub fn count(&self) -> usize
        ensures { result ≡ tuple_count (statement self.now) }
    {
        self.space.count
    }

    /// The element that is assigned at a tuple, by the tuple's number from 0; None where nothing is assigned, and where a subscript is
    /// out of bounds.
    pub fn left(&self, tuple: usize) -> Result<Option<Spot>, OutOfMemory>
        requires { tuple < tuple_count (statement self.now) }
        ensures { IfOk result (λ spot. read_of spot ≡ tuple_left (statement self.now) tuple) }
    {
        let place = self.place(tuple)?;
        Ok(self.left_at(place))
    }

    /// The place in its row of what is assigned at a tuple; None where a subscript is out of bounds. Where nothing is assigned it is the
    /// tuple's number.
    pub fn place(&self, tuple: usize) -> Result<Option<usize>, OutOfMemory>
        requires { tuple < tuple_count (statement self.now) }
        ensures { IfOk result (λ place. place ≡ tuple_place (statement self.now) tuple) }
    {
        match &self.target {
            Target::Nothing => Ok(Some(tuple)),
            Target::Copy(_) => Ok(Some(tuple)),
            Target::Section(a, ds) => {
                let extents = &self.space.extents;
                assigned_place(*extents.allocator(), self.shapes, *a, ds, extents, tuple)
            }
            Target::Indexed(a, ds) => self.indexed_place(*a, ds, tuple),
        }
    }

    /// The element that is assigned at this place of its row; None where nothing is assigned, and where there is no place. It takes no
    /// memory.
    pub fn left_at(&self, place: Option<usize>) -> Option<Spot>
        ensures { read_of result ≡ left_in (statement self.now).target place }
    {
        match &self.target {
            Target::Nothing => None,
            Target::Copy(row) => in_row(*row, place),
            Target::Section(a, _) => in_row(*a, place),
            Target::Indexed(a, _) => in_row(*a, place),
        }
    }

    /// The place at a tuple by subscripts that are expressions of the indices.
    fn indexed_place(
        &self,
        array: usize,
        section: &[Sub],
        tuple: usize,
    ) -> Result<Option<usize>, OutOfMemory>
        requires { tuple < tuple_count (statement self.now) }
        ensures { IfOk result (λ place. let w = statement self.now in place ≡ indexed_place w.shapes w.slots w.indices w.extents array (subs section.now) tuple) }
    {
        let x = self.space.entries(tuple)?;
        let here = self.here(x.as_slice());
        section_place(&here, array, section)
    }

    /// Puts the elements that are read at a tuple after the others, in order: first those of the masks, then those of the copies, then those of
    /// the expression as they stand in the text. None stands for what is no element.
    pub fn read(&self, tuple: usize, reads: &mut Vec<Option<Spot>>) -> Result<(), OutOfMemory>
        requires { tuple < tuple_count (statement self.now) }
        ensures { OnOk result (reads_of reads.new.items ≡ reads_of reads.old.items ++ tuple_reads (statement self.now) tuple) }
    {
        mask_reads(self.whens, tuple, reads)?;
        copy_reads(self.copies, tuple, reads)?;
        let x = self.space.entries(tuple)?;
        self.read_form(x.as_slice(), reads)
    }

    /// What a tuple comes to at which this is the place of what is assigned. An element is asked for only where the value of the tuple needs
    /// it.
    pub fn outcome<E: Elements>(
        &self,
        tuple: usize,
        place: Option<usize>,
        elements: &E,
    ) -> Result<Outcome, OutOfMemory>
        requires tuple { tuple < tuple_count (statement self.now) }
        requires place { place ≡ tuple_place (statement self.now) tuple }
        ensures { IfOk result (λ o. outcome_view o ≡ tuple_outcome (statement self.now) tuple (map (value_by (E.get elements.now)) (tuple_reads (statement self.now) tuple))) }
    {
        if is_asked(self.whens, tuple, elements) {
            self.asked_outcome(tuple, place, elements)
        } else {
            Ok(Outcome::Nothing)
        }
    }

    /// What a tuple comes to that the masks ask for.
    #[tactic(auto, using(crate::proofs::ByReads::has_value, crate::proofs::ByReads::is_broken))]
    fn asked_outcome<E: Elements>(
        &self,
        tuple: usize,
        place: Option<usize>,
        elements: &E,
    ) -> Result<Outcome, OutOfMemory>
        requires tuple { tuple < tuple_count (statement self.now) }
        requires place { place ≡ tuple_place (statement self.now) tuple }
        ensures { IfOk result (λ o. outcome_view o ≡ asked_outcome (statement self.now) (E.get elements.now) tuple) }
    {
        let x = self.space.entries(tuple)?;
        match self.value(tuple, place, x.as_slice(), elements) {
            Ok(v) => Ok(value_made(self.made, v)),
            Err(stop) => broken(
                *self.space.extents.allocator(),
                self.line,
                self.located,
                x.as_slice(),
                stop,
            ),
        }
    }

    /// The value at a tuple with this place of what is assigned and these entries: the bounds of what is assigned come first.
    fn value<E: Elements>(
        &self,
        tuple: usize,
        place: Option<usize>,
        x: &[i64],
        elements: &E,
    ) -> Result<i64, Stop>
        requires place { place ≡ tuple_place (statement self.now) tuple }
        requires entries { x.now ≡ entries (statement self.now) tuple }
        ensures value { IfOk result (λ v. bounded_value (statement self.now) (E.get elements.now) tuple ≡ Ok v) }
        ensures stopped { IfErr result (IsStop (bounded_value (statement self.now) (E.get elements.now) tuple)) }
    {
        match place {
            None => Err(fault(FaultKind::Bounds)),
            Some(_) => self.value_of_form(tuple, x, elements),
        }
    }

    /// The value of the expression at a tuple with these entries.
    fn value_of_form<E: Elements>(&self, tuple: usize, x: &[i64], elements: &E) -> Result<i64, Stop>
        ensures value { IfOk result (λ v. value_at (statement self.now) (E.get elements.now) tuple x.now ≡ Ok v) }
        ensures stopped { IfErr result (IsStop (value_at (statement self.now) (E.get elements.now) tuple x.now)) }
    {
        if self.copies.is_empty() {
            return self.value_seeing(x, self.space.axes(x), elements);
        }
        self.value_with_copies(tuple, x, elements)
    }

    /// Its value where it reads copies.
    #[inline(never)]
    fn value_with_copies<E: Elements>(
        &self,
        tuple: usize,
        x: &[i64],
        elements: &E,
    ) -> Result<i64, Stop>
        ensures value { IfOk result (λ v. value_at (statement self.now) (E.get elements.now) tuple x.now ≡ Ok v) }
        ensures stopped { IfErr result (IsStop (value_at (statement self.now) (E.get elements.now) tuple x.now)) }
    {
        let seen = self.seen(tuple, x, elements)?;
        self.value_seeing(x, seen.as_slice(), elements)
    }

    /// The axes at a tuple with these entries, and after them the values of the copies.
    fn seen<E: Elements>(
        &self,
        tuple: usize,
        x: &[i64],
        elements: &E,
    ) -> Result<SmallVec<i64, 16>, AllocError>
        ensures { IfOk result (λ vs. vs.items ≡ axes_in (statement self.now).indices x.now ++ copied_by (E.get elements.now) (statement self.now).copies tuple) }
    {
        let alloc = *self.space.extents.allocator();
        let mut vs = SmallVec::from_slice(alloc, self.space.axes(x))?;
        for row in self.copies {
            vs.push(elements.value(Spot {
                row: *row,
                at: tuple,
            }))?;
        }
        Ok(vs)
    }

    /// Its value at these entries where it sees these values outside of subscripts.
    fn value_seeing<E: Elements>(&self, x: &[i64], seen: &[i64], elements: &E) -> Result<i64, Stop>
        ensures value { IfOk result (λ v. value_by_elements (statement self.now).shapes (E.get elements.now) x.now (form_seeing (statement self.now) x.now seen.now) ≡ Ok v) }
        ensures stopped { IfErr result (IsStop (value_by_elements (statement self.now).shapes (E.get elements.now) x.now (form_seeing (statement self.now) x.now seen.now))) }
    {
        let here = self.here_seeing(x, seen);
        match &self.right {
            Right::Form(f) => form_value(&here, f, elements),
            Right::Section(a, ds) => section_value(&here, *a, ds, elements),
        }
    }

    /// Puts the elements that the expression reads at these entries after the others.
    fn read_form(&self, x: &[i64], reads: &mut Vec<Option<Spot>>) -> Result<(), OutOfMemory>
        ensures { OnOk result (reads_of reads.new.items ≡ reads_of reads.old.items ++ reads_at (statement self.now).shapes x.now (read_form (statement self.now) x.now)) }
    {
        let here = self.here(x);
        match &self.right {
            Right::Form(f) => form_reads(&here, f, reads),
            Right::Section(a, ds) => section_read(&here, *a, ds, reads),
        }
    }

    /// The tuple with these entries.
    fn here<'b>(&'b self, x: &'b [i64]) -> Here<'b>
        ensures shapes { result.shapes.now ≡ (statement self.now).shapes }
        ensures slots { result.slots.now ≡ (statement self.now).slots }
        ensures axes { result.axes.now ≡ axes_in (statement self.now).indices x.now }
        ensures tuple { result.tuple.now ≡ x.now }
    {
        self.here_seeing(x, self.space.axes(x))
    }

    /// The tuple with these entries, where expressions outside of subscripts see these values.
    fn here_seeing<'b>(&'b self, x: &'b [i64], seen: &'b [i64]) -> Here<'b>
        ensures shapes { result.shapes.now ≡ (statement self.now).shapes }
        ensures slots { result.slots.now ≡ (statement self.now).slots }
        ensures axes { result.axes.now ≡ axes_in (statement self.now).indices x.now }
        ensures seen { result.seen.now ≡ seen.now }
        ensures tuple { result.tuple.now ≡ x.now }
    {
        Here {
            alloc: *self.space.extents.allocator(),
            shapes: self.shapes,
            slots: self.slots,
            axes: self.space.axes(x),
            seen,
            tuple: x,
        }
    }
}

/// Whether masks ask for a tuple.
fn is_asked<E: Elements>(whens: &[When], tuple: usize, elements: &E) -> bool
    ensures { result ≡ asked_by (E.get elements.now) (map when whens.now) tuple }
{
    for w in whens {
        if !asks(w, tuple, elements) {
            return false;
        }
    }
    true
}

/// Whether a mask asks for a tuple.
fn asks<E: Elements>(w: &When, tuple: usize, elements: &E) -> bool
    ensures { result ≡ asks (E.get elements.now) tuple (when w.now) }
{
    let v = elements.value(Spot {
        row: w.copy,
        at: tuple,
    });
    as_asked(w.value, v)
}

/// Whether a value of a mask is as it is asked for.
fn as_asked(value: bool, v: i64) -> bool
    ensures { result ≡ as_asked value (is_true v) }
{
    if value { v != 0 } else { v == 0 }
}

/// The outcome that a value is, by what is made of it, where something is.
fn value_made(made: Option<Made>, v: i64) -> Outcome
    ensures { outcome_view result ≡ Value (made_by made v) }
{
    match made {
        Some(made) => Outcome::Value(made.of(v)),
        None => Outcome::Value(v),
    }
}
