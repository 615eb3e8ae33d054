//! The elements that instructions fetch and store.

ghost use Rattle.std.specs.Prelude.{◌≡◌, [], IfOk};
ghost use Rattle.code_meaning.specs.Flat.{flat_value};
ghost use Rattle.code_meaning.specs.Instructions.{element_in};
ghost use Rattle.code_meaning.specs.Parallel.{at_line};
ghost use Rattle.node_code.specs.Texts.{flat, flats_of};
ghost use Rattle.node_machine.specs.Results.{IsFetched, IsFetching, IsStored, IsStoring};
ghost use Rattle.node_program.specs.Results.{spot_result, value_result};
ghost use Rattle.node_machine.specs.Steps.{instr_here};

use crate::node::Node;
use expression_rules::Dims;
use hpf_base::OutOfMemory;
use node_code::Flat;
use slot_values::{Fault, Spot, element_spot, flat_value};
use term_values::Stop;

/// A fetch, with the dimensions of the arrays.
#[derive(Clone, Copy)]
pub(crate) struct Fetching<'a> {
    pub(crate) shapes: &'a Vec<Dims>,
    pub(crate) line: u32,
    pub(crate) array: usize,
    pub(crate) subscripts: &'a Vec<Flat>,
    pub(crate) slot: usize,
}

/// A store, with the dimensions of the arrays.
#[derive(Clone, Copy)]
pub(crate) struct Storing<'a> {
    pub(crate) shapes: &'a Vec<Dims>,
    pub(crate) line: u32,
    pub(crate) array: usize,
    pub(crate) subscripts: &'a Vec<Flat>,
    pub(crate) value: &'a Flat,
}

/// An element that is fetched, or the fault of its subscripts, and the slot that gets its value.
#[derive(Drop)]
pub(crate) struct FetchedElement {
    pub(crate) element: Result<Spot, Fault>,
    pub(crate) slot: usize,
}

/// An element that is assigned, or the fault of its subscripts, and the value that it gets, or its fault.
#[derive(Drop)]
pub(crate) struct StoredElement {
    pub(crate) element: Result<Spot, Fault>,
    pub(crate) value: Result<i64, Fault>,
}

impl Node {
    /// What the fetch at the node's place fetches.
    pub(crate) fn fetched(&self, f: Fetching<'_>) -> Result<FetchedElement, OutOfMemory>
        requires { IsFetching (instr_here self.now) f }
        ensures { IfOk result (λ e. IsFetched (instr_here self.now) self.now.control.slots e) }
    {
        Ok(FetchedElement {
            element: element(f.shapes, f.line, f.array, f.subscripts, &self.control.slots)?,
            slot: f.slot,
        })
    }

    /// What the store at the node's place stores.
    pub(crate) fn stored(&self, s: Storing<'_>) -> Result<StoredElement, OutOfMemory>
        requires { IsStoring (instr_here self.now) s }
        ensures { IfOk result (λ e. IsStored (instr_here self.now) self.now.control.slots e) }
    {
        Ok(StoredElement {
            element: element(s.shapes, s.line, s.array, s.subscripts, &self.control.slots)?,
            value: value_of(s.line, s.value, &self.control.slots)?,
        })
    }
}

/// The element that subscripts name, or the first fault of a statement of this line.
fn element(
    shapes: &[Dims],
    line: u32,
    array: usize,
    subscripts: &Vec<Flat>,
    slots: &[i64],
) -> Result<Result<Spot, Fault>, OutOfMemory>
    ensures { IfOk result (λ e. element_in shapes.now line array (flats_of subscripts.now.items) slots.now ≡ spot_result e) }
{
    match element_spot(shapes, array, subscripts, slots) {
        Ok(spot) => Ok(Ok(spot)),
        Err(Stop::Fault(cause)) => Ok(Err(Fault { line, cause })),
        Err(Stop::Memory) => Err(OutOfMemory),
    }
}

/// The value of an expression, or the first fault of a statement of this line.
fn value_of(line: u32, f: &Flat, slots: &[i64]) -> Result<Result<i64, Fault>, OutOfMemory>
    ensures { IfOk result (λ v. at_line line (flat_value slots.now [] [] (flat f.now)) ≡ value_result v) }
{
    match flat_value(slots, &[], f) {
        Ok(value) => Ok(Ok(value)),
        Err(Stop::Fault(cause)) => Ok(Err(Fault { line, cause })),
        Err(Stop::Memory) => Err(OutOfMemory),
    }
}
