//! Instructions that print a line.

ghost use Rattle.std.specs.Prelude.{◌≡◌, ◌<◌, ◌+◌, ◌^◌, ◌++◌, ◌∷◌, [], suc, drop, map, IfOk, OnOk, OnErr};
ghost use Rattle.std.specs.Fmt.{signed_decimal};
ghost use Rattle.machine_steps.specs.Machine.{on};
ghost use Rattle.machine_steps.specs.Node.{at_root};
ghost use Rattle.node_code.specs.Instructions.{Print};
ghost use Rattle.code_meaning.specs.Instructions.{item_of};
ghost use Rattle.node_code.specs.Texts.{print_item};
ghost use Rattle.node_machine.specs.Prints.{text_of};
ghost use Rattle.node_program.specs.PrintedLines.{printed};
ghost use Rattle.node_machine.specs.Steps.{IsItemStep, TextDoes};

use crate::node::Node;
use crate::sections::PrintedSection;
use crate::step::Step;
use hpf_base::OutOfMemory;
use itoa::Buffer;
use node_code::{Flat, PrintItem};
use node_program::NodeProgram;
use slot_values::flat_or_zero;
use std::alloc::Global;

/// A text of a PRINT: bytes, or a number over the slots.
#[derive(Clone, Copy)]
pub(crate) enum PrintedText<'a> {
    Bytes(&'a Vec<u8>),
    Number(&'a Flat),
}

/// What a PRINT of these items has done after so many steps.
pub(crate) fn print_step<'a>(
    program: &'a NodeProgram,
    items: &'a Vec<PrintItem>,
    substep: usize,
) -> Step<'a>
    ensures { TextDoes (printed program.now.shapes.items items.now.items) (Print (map print_item items.now.items)) program.now.nodes substep result }
{
    if substep < items.len() {
        item_step(program, &items[substep])
    } else {
        Step::PrintLine
    }
}

/// What an item has done.
fn item_step<'a>(program: &'a NodeProgram, item: &'a PrintItem) -> Step<'a>
    ensures { IsItemStep (item_of program.now.shapes.items (print_item item.now)) result }
{
    match item {
        PrintItem::Bytes(bytes) => Step::PrintText(PrintedText::Bytes(bytes)),
        PrintItem::Number(f) => Step::PrintText(PrintedText::Number(f)),
        PrintItem::Section(array, section) => Step::PrintSection(PrintedSection {
            shapes: &program.shapes,
            array: *array,
            section,
        }),
    }
}

/// Bytes after a blank.
fn after_blank(alloc: Global, bytes: &[u8]) -> Result<Vec<u8>, OutOfMemory>
    ensures { IfOk result (λ b. b.items ≡ 32 ∷ bytes.now) }
{
    let mut text = Vec::new(alloc);
    text.push(b' ')?;
    text.extend_from_slice(bytes)?;
    Ok(text)
}

/// A number in decimal, after a blank.
pub(crate) fn number_bytes(alloc: Global, number: i64) -> Result<Vec<u8>, OutOfMemory>
    ensures { IfOk result (λ b. b.items ≡ 32 ∷ signed_decimal number) }
{
    let mut buffer = Buffer::new();
    after_blank(alloc, buffer.format(number).as_bytes())
}

impl Node {
    /// The bytes of a text, after a blank.
    pub(crate) fn text(&self, t: PrintedText<'_>) -> Result<Vec<u8>, OutOfMemory>
        ensures { IfOk result (λ b. b.items ≡ text_of t.entry self.now.control.slots) }
    {
        match t {
            PrintedText::Bytes(bytes) => after_blank(self.alloc, bytes),
            PrintedText::Number(f) => {
                let number = flat_or_zero(&self.control.slots, &[], f)?;
                number_bytes(self.alloc, number)
            }
        }
    }

    /// Adds the bytes of an item to the line: node 0 has it. For want of memory nothing changes.
    pub(crate) fn print_bytes(&mut self, bytes: &[u8]) -> Result<(), OutOfMemory>
        ensures ok { OnOk result (self.new ≡ record self.old { substep = suc self.old.substep; line = at_root self.old.id (self.old.line ++ bytes.now) }) }
        ensures err { OnErr result (self.new ≡ self.old) }
    {
        // a number past its type
        if self.substep == usize::MAX {
            return Err(OutOfMemory);
        }
        if self.id == 0 {
            self.line.extend_from_slice(bytes)?;
        } else {
            self.line = Vec::new(self.alloc);
        }
        self.substep += 1;
        Ok(())
    }

    /// Ends the line: its bytes without the first blank, and a line feed. For want of memory nothing changes.
    pub(crate) fn print_line(&mut self) -> Result<(), OutOfMemory>
        requires in_code { self.old.control.at < 2 ^ 63 }
        ensures ok { OnOk result (self.new ≡ record self.old { control = on self.old.control; substep = 0; line = []; printed = at_root self.old.id (self.old.printed ++ (drop 1 self.old.line ++ 10 ∷ [])) }) }
        ensures err { OnErr result (self.new ≡ self.old) }
    {
        if self.id == 0 {
            let line = line_of(self.alloc, &self.line)?;
            self.printed.extend_from_slice(&line)?;
        } else {
            self.printed = Vec::new(self.alloc);
        }
        self.line = Vec::new(self.alloc);
        self.go_on();
        Ok(())
    }
}

/// The line of these bytes: all but the first, and a line feed.
fn line_of(alloc: Global, bytes: &[u8]) -> Result<Vec<u8>, OutOfMemory>
    ensures { IfOk result (λ line. line.items ≡ drop 1 bytes.now ++ 10 ∷ []) }
{
    let mut line = Vec::new(alloc);
    if !bytes.is_empty() {
        line.extend_from_slice(&bytes[1..])?;
    }
    line.push(b'\n')?;
    Ok(line)
}
