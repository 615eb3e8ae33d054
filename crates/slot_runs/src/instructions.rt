//! Instructions that are run where what they do is known without memory and without a fault.

ghost use Rattle.std.specs.Prelude.{◌≡◌, ◌<◌, ◌^◌, ℕ, List, [], true, false};
ghost use Rattle.array_meaning.specs.Sections.{sequence};
ghost use Rattle.expression_rules.specs.declared.dims.Dim.{Dim};
ghost use Rattle.machine_steps.specs.Machine.{set_slot};
ghost use Rattle.code_meaning.specs.Flat.{flat_value, slot};
ghost use Rattle.code_meaning.specs.Instructions.{begin_trips, set_result};
ghost use Rattle.code_meaning.specs.Parallel.{at_line};
ghost use Rattle.node_code.specs.Texts.{flat, instruction};
ghost use Rattle.slot_values.specs.Controls.{control_of};
ghost use Rattle.slot_values.specs.LocalInstructions.{is_local, local_control};

use crate::expressions::known_flat;
use node_code::{Flat, Instruction};
use slot_values::{Control, jump, jump_if_zero, slot, trips};

/// Runs an instruction, and says whether it did; else nothing changes.
#[inline(always)]
pub(crate) fn run_one(i: &Instruction, c: &mut Control) -> bool
    requires in_code { c.old.at < 2 ^ 63 }
    ensures local { result ≡ true → is_local (instruction i.now) ≡ true }
    ensures does { result ≡ true → (shapes : List (List Dim)) → control_of c.new ≡ local_control shapes (instruction i.now) (control_of c.old) }
    ensures running { (control_of c.new).status ≡ (control_of c.old).status }
    ensures rest { result ≡ false → c.new ≡ c.old }
{
    match i {
        Instruction::Set { slot, value, .. } => set(*slot, value, c),
        Instruction::Jump { target } => {
            jump(*target, c);
            true
        }
        Instruction::JumpIfZero { target, slot } => {
            jump_if_zero(*target, *slot, c);
            true
        }
        Instruction::Trips {
            line,
            first,
            last,
            step,
            left,
            target,
        } => begin_loop(*line, *first, *last, *step, *left, *target, c),
        _ => false,
    }
}

/// Gives a slot the value of an expression, where it is known, and says whether it did.
#[inline(always)]
fn set(x: usize, value: &Flat, c: &mut Control) -> bool
    requires in_code { c.old.at < 2 ^ 63 }
    ensures done { result ≡ true → (line : ℕ) → control_of c.new ≡ set_result (at_line line (flat_value c.old.slots.items [] [] (flat value.now))) x (control_of c.old) }
    ensures running { (control_of c.new).status ≡ (control_of c.old).status }
    ensures rest { result ≡ false → c.new ≡ c.old }
{
    let v = known_flat(&c.slots, value);
    if v.known {
        put(x, v.value, c);
    }
    v.known
}

/// Gives a slot a value, and goes on with the next instruction.
#[inline(always)]
fn put(slot: usize, value: i64, c: &mut Control)
    requires in_code { c.old.at < 2 ^ 63 }
    ensures done { control_of c.new ≡ set_slot (control_of c.old) slot value }
    ensures running { (control_of c.new).status ≡ (control_of c.old).status }
{
    if slot < c.slots.len() {
        c.slots[slot] = value;
    }
    c.at += 1;
}

/// Begins a loop by the slots of its first value, last value and step, where the step isn't 0, and says whether it did.
#[inline(never)]
#[tactic(auto, using(crate::proofs::Begun::goes_on))]
fn begin_loop(
    line: u32,
    first: usize,
    last: usize,
    step: usize,
    left: usize,
    target: usize,
    c: &mut Control,
) -> bool
    requires in_code { c.old.at < 2 ^ 63 }
    ensures done { result ≡ true → control_of c.new ≡ begin_trips left target
        (at_line line (sequence (slot c.old.slots.items first) (slot c.old.slots.items last) (slot c.old.slots.items step))) (control_of c.old) }
    ensures running { (control_of c.new).status ≡ (control_of c.old).status }
    ensures rest { result ≡ false → c.new ≡ c.old }
{
    if slot(&c.slots, step) == 0 {
        return false;
    }
    trips(line, first, last, step, left, target, c).is_ok()
}
