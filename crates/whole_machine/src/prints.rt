//! Instructions that print a line.

ghost use Rattle.std.specs.Prelude.{◌≡◌, ◌<◌, ◌^◌, ◌++◌, ◌∷◌, [], suc, drop, IfOk, OnOk, OnErr};
ghost use Rattle.std.specs.Fmt.{signed_decimal};
ghost use Rattle.storage.specs.Storage.{read};
ghost use Rattle.machine_steps.specs.Machine.{item_bytes, on, step_by};
ghost use Rattle.code_meaning.specs.Instructions.{item_of};
ghost use Rattle.node_code.specs.Texts.{print_item};
ghost use Rattle.node_program.specs.PrintedLines.{line_of, printed};

use crate::machine::WholeMachine;
use expression_rules::Dims;
use hpf_base::OutOfMemory;
use itoa::Buffer;
use node_code::PrintItem;
use slot_values::flat_or_zero;
use std::alloc::Global;

impl WholeMachine {
    /// Makes the next step of a PRINT: the bytes of the next item, or the end of the line. For want of memory nothing changes.
    pub(crate) fn print(
        &mut self,
        shapes: &[Dims],
        items: &Vec<PrintItem>,
    ) -> Result<(), OutOfMemory>
        requires in_code { self.old.control.at < 2 ^ 63 }
        ensures ok { OnOk result (self.new ≡ step_by (printed shapes.now items.now.items) self.old) }
        ensures err { OnErr result (self.new ≡ self.old) }
    {
        let k = self.substep();
        if k < items.len() {
            let bytes = self.item_bytes(shapes, &items[k])?;
            self.print_bytes(&bytes)?;
            Ok(())
        } else {
            self.print_line()?;
            Ok(())
        }
    }

    /// The bytes of an item.
    fn item_bytes(&self, shapes: &[Dims], item: &PrintItem) -> Result<Vec<u8>, OutOfMemory>
        ensures { IfOk result (λ b. b.items ≡ item_bytes (item_of shapes.now (print_item item.now)) self.now.control.slots (read self.now.rows)) }
    {
        match item {
            PrintItem::Bytes(bytes) => after_blank(self.alloc, bytes),
            PrintItem::Number(f) => {
                let number = flat_or_zero(self.slots(), &[], f)?;
                number_bytes(self.alloc, number)
            }
            PrintItem::Section(array, section) => self.section_bytes(shapes, *array, section),
        }
    }

    /// Adds the bytes of an item to the line. For want of memory nothing changes.
    fn print_bytes(&mut self, bytes: &[u8]) -> Result<(), OutOfMemory>
        ensures ok { OnOk result (self.new ≡ record self.old { substep = suc self.old.substep; line = self.old.line ++ bytes.now }) }
        ensures err { OnErr result (self.new ≡ self.old) }
    {
        // a number past its type
        if self.substep == usize::MAX {
            return Err(OutOfMemory);
        }
        self.line.extend_from_slice(bytes)?;
        self.substep += 1;
        Ok(())
    }

    /// Ends the line: its bytes without the first blank, and a line feed. For want of memory nothing changes.
    fn print_line(&mut self) -> Result<(), OutOfMemory>
        requires in_code { self.old.control.at < 2 ^ 63 }
        ensures ok { OnOk result (self.new ≡ record self.old { control = on self.old.control; substep = 0; line = []; printed = self.old.printed ++ line_of self.old.line }) }
        ensures err { OnErr result (self.new ≡ self.old) }
    {
        let line = line_of(self.alloc, &self.line)?;
        self.printed.extend_from_slice(&line)?;
        self.line = Vec::new(self.alloc);
        self.go_on();
        Ok(())
    }
}

/// Bytes after a blank.
fn after_blank(alloc: Global, bytes: &[u8]) -> Result<Vec<u8>, OutOfMemory>
    ensures { IfOk result (λ b. b.items ≡ 32 ∷ bytes.now) }
{
    let mut text = Vec::new(alloc);
    text.push(b' ')?;
    text.extend_from_slice(bytes)?;
    Ok(text)
}

/// A number in decimal, after a blank.
pub(crate) fn number_bytes(alloc: Global, number: i64) -> Result<Vec<u8>, OutOfMemory>
    ensures { IfOk result (λ b. b.items ≡ 32 ∷ signed_decimal number) }
{
    let mut buffer = Buffer::new();
    after_blank(alloc, buffer.format(number).as_bytes())
}

/// The line of these bytes: all but the first, and a line feed.
fn line_of(alloc: Global, bytes: &[u8]) -> Result<Vec<u8>, OutOfMemory>
    ensures { IfOk result (λ line. line.items ≡ drop 1 bytes.now ++ 10 ∷ []) }
{
    let mut line = Vec::new(alloc);
    if !bytes.is_empty() {
        line.extend_from_slice(&bytes[1..])?;
    }
    line.push(b'\n')?;
    Ok(line)
}
