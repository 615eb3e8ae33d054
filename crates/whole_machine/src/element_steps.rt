//! Instructions that fetch or store an element.

ghost use Rattle.std.specs.Prelude.{◌≡◌, ◌<◌, ◌^◌, [], IfOk, OnOk, OnErr};
ghost use Rattle.storage.specs.Storage.{read};
ghost use Rattle.machine_steps.specs.Instr.{Fetch, Store};
ghost use Rattle.machine_steps.specs.Machine.{fetch_control, step_by, store_control, store_in, write_to};
ghost use Rattle.code_meaning.specs.Flat.{flat_value};
ghost use Rattle.code_meaning.specs.Instructions.{element_in};
ghost use Rattle.code_meaning.specs.Parallel.{at_line};
ghost use Rattle.node_code.specs.Texts.{flat, flats_of};
ghost use Rattle.node_program.specs.Results.{spot_result, value_result};

use crate::machine::WholeMachine;
use crate::rows::{read, write};
use expression_rules::Dims;
use hpf_base::OutOfMemory;
use node_code::Flat;
use slot_values::{Fault, Spot, element_spot, flat_value};
use term_values::Stop;

/// An element of an array by its subscripts, in a statement of a line.
#[derive(Clone, Copy)]
pub(crate) struct Subscripted<'a> {
    pub(crate) line: u32,
    pub(crate) array: usize,
    pub(crate) subscripts: &'a Vec<Flat>,
}

impl WholeMachine {
    /// A slot gets the value of an element, or the run ends with the fault of its subscripts. For want of memory nothing changes.
    pub(crate) fn fetch(
        &mut self,
        shapes: &[Dims],
        e: Subscripted<'_>,
        slot: usize,
    ) -> Result<(), OutOfMemory>
        requires in_code { self.old.control.at < 2 ^ 63 }
        ensures ok { OnOk result (self.new ≡ step_by (Fetch (element_in shapes.now e.entry.line e.entry.array (flats_of e.entry.subscripts.now.items)) slot) self.old) }
        ensures err { OnErr result (self.new ≡ self.old) }
    {
        let element = element(shapes, e, self.slots())?;
        self.put_fetched(element, slot);
        Ok(())
    }

    /// A slot gets the value of an element, or the run ends with this fault. It takes no memory.
    fn put_fetched(&mut self, element: Result<Spot, Fault>, slot: usize)
        requires in_code { self.old.control.at < 2 ^ 63 }
        ensures { self.new ≡ record self.old { control = fetch_control (spot_result element) (read self.old.rows) slot self.old.control; substep = 0 } }
    {
        match element {
            Ok(spot) => {
                let value = [read(self.rows(), spot)];
                self.set_slot(slot, &value[0]);
            }
            Err(last) => self.fail(last),
        }
    }

    /// An element gets a value, or the run ends with the fault of its subscripts or of the value. For want of memory nothing changes.
    pub(crate) fn store(
        &mut self,
        shapes: &[Dims],
        e: Subscripted<'_>,
        value: &Flat,
    ) -> Result<(), OutOfMemory>
        requires in_code { self.old.control.at < 2 ^ 63 }
        ensures ok { OnOk result (self.new ≡ step_by (Store (element_in shapes.now e.entry.line e.entry.array (flats_of e.entry.subscripts.now.items)) (λ slots. at_line e.entry.line (flat_value slots [] [] (flat value.now)))) self.old) }
        ensures err { OnErr result (self.new ≡ self.old) }
    {
        let element = element(shapes, e, self.slots())?;
        let value = value_of(e.line, value, self.slots())?;
        self.put_stored(element, value);
        Ok(())
    }

    /// Stores a value in an element, or ends the run with the fault of the element or of the value. It takes no memory.
    fn put_stored(&mut self, element: Result<Spot, Fault>, value: Result<i64, Fault>)
        requires in_code { self.old.control.at < 2 ^ 63 }
        ensures { self.new ≡ record self.old {
          control = store_control (spot_result element) (value_result value) self.old.control;
          substep = 0;
          rows = store_in write_to (spot_result element) (value_result value) self.old.rows;
        } }
    {
        match element {
            Ok(spot) => match value {
                Ok(value) => {
                    write(&mut self.rows, spot, &value);
                    self.go_on();
                }
                Err(last) => self.fail(last),
            },
            Err(last) => self.fail(last),
        }
    }
}

/// The element that subscripts name, or the first fault of a statement of this line.
fn element(
    shapes: &[Dims],
    e: Subscripted<'_>,
    slots: &[i64],
) -> Result<Result<Spot, Fault>, OutOfMemory>
    ensures { IfOk result (λ r. element_in shapes.now e.entry.line e.entry.array (flats_of e.entry.subscripts.now.items) slots.now ≡ spot_result r) }
{
    match element_spot(shapes, e.array, e.subscripts, slots) {
        Ok(spot) => Ok(Ok(spot)),
        Err(Stop::Fault(cause)) => Ok(Err(Fault {
            line: e.line,
            cause,
        })),
        Err(Stop::Memory) => Err(OutOfMemory),
    }
}

/// The value of an expression, or the first fault of a statement of this line.
fn value_of(line: u32, f: &Flat, slots: &[i64]) -> Result<Result<i64, Fault>, OutOfMemory>
    ensures { IfOk result (λ v. at_line line (flat_value slots.now [] [] (flat f.now)) ≡ value_result v) }
{
    match flat_value(slots, &[], f) {
        Ok(value) => Ok(Ok(value)),
        Err(Stop::Fault(cause)) => Ok(Err(Fault { line, cause })),
        Err(Stop::Memory) => Err(OutOfMemory),
    }
}
