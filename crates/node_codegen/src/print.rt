//! PRINT (Fortran 95, 9.4).

ghost use Rattle.std.specs.Prelude.{◌≡◌, [], ◌∷◌, ◌++◌, IfOk, OnOk, map};
ghost use Rattle.node_code.specs.Instructions.{Print};
ghost use Rattle.node_code.specs.Texts as text;
ghost use Rattle.node_code.specs.Texts.{instructions};
ghost use Rattle.resolved_program.specs.Resolved.{item, subscripts_of, term};
ghost use Rattle.program_code.specs.ExpressionCode.{code_of, subs_of, subscripts_code, own_evaluation};
ghost use Rattle.node_code.specs.Forms.{SectionForm};
ghost use Rattle.array_meaning.specs.Statements.{Elements};
ghost use Rattle.program_code.specs.StatementCode as definition;
ghost use Rattle.program_code.specs.StatementCode.{item_code, items_code, items_slots, print_items};

use expression_code::{
    code_of, flat_of, joined, plus, slots_of, subs_of, subscripts_code, subscripts_slots,
};
use hpf_base::OutOfMemory;
use node_code::{ArrayForm, Evaluation, Instruction, PrintItem};
use resolved_program::{Item, SectionSubscript, Term};
use std::alloc::Global;

/// How many slots the code of an item takes.
pub(crate) fn item_slots(i: &Item) -> Result<usize, OutOfMemory>
    ensures { IfOk result (λ n. n ≡ definition.item_slots (item i.now)) }
{
    match i {
        Item::Text(_) => Ok(0),
        Item::Value(t) => slots_of(t),
        Item::Elements(_, subscripts) => subscripts_slots(subscripts),
    }
}

/// How many slots the code of all items takes.
pub(crate) fn items_slots(items: &[Item]) -> Result<usize, OutOfMemory>
    ensures { IfOk result (λ n. n ≡ items_slots (map item items.now)) }
{
    let mut sum = 0;
    for i in items {
        sum = plus(sum, item_slots(i)?)?;
    }
    Ok(sum)
}

/// The code of a PRINT: all items are evaluated first.
pub(crate) fn print_code(
    alloc: Global,
    line: u32,
    b: usize,
    items: &[Item],
) -> Result<Vec<Instruction>, OutOfMemory>
    ensures { IfOk result (λ v. instructions v.items ≡ items_code line b (map item items.now) ++ Print (print_items b (map item items.now)) ∷ []) }
{
    let mut code = Vec::new(alloc);
    add_items(alloc, &mut code, line, b, items)?;
    code.push(Instruction::Print(print_items(alloc, b, items)?))?;
    Ok(code)
}

/// Puts the code of the items, in order.
fn add_items(
    alloc: Global,
    code: &mut Vec<Instruction>,
    line: u32,
    b: usize,
    items: &[Item],
) -> Result<(), OutOfMemory>
    ensures { OnOk result (instructions code.new.items ≡ instructions code.old.items ++ items_code line b (map item items.now)) }
{
    let mut at = b;
    for i in items {
        add_item(alloc, code, line, at, i)?;
        at = plus(at, item_slots(i)?)?;
    }
    Ok(())
}

/// Puts the code of an item.
fn add_item(
    alloc: Global,
    code: &mut Vec<Instruction>,
    line: u32,
    b: usize,
    i: &Item,
) -> Result<(), OutOfMemory>
    ensures { OnOk result (instructions code.new.items ≡ instructions code.old.items ++ item_code line b (item i.now)) }
{
    match i {
        Item::Text(_) => Ok(()),
        Item::Value(t) => add_value(alloc, code, line, b, t),
        Item::Elements(array, subscripts) => add_section(alloc, code, line, b, *array, subscripts),
    }
}

/// Puts the code of a value.
fn add_value(
    alloc: Global,
    code: &mut Vec<Instruction>,
    line: u32,
    b: usize,
    t: &Term,
) -> Result<(), OutOfMemory>
    ensures { OnOk result (instructions code.new.items ≡ instructions code.old.items ++ code_of line b (term t.now)) }
{
    joined(code, code_of(alloc, line, b, t)?)
}

/// Puts the code of a section, which is tested where its item stands.
fn add_section(
    alloc: Global,
    code: &mut Vec<Instruction>,
    line: u32,
    b: usize,
    array: usize,
    subscripts: &[SectionSubscript],
) -> Result<(), OutOfMemory>
    ensures { OnOk result (instructions code.new.items ≡ instructions code.old.items ++ item_code line b (Elements array (subscripts_of subscripts.now))) }
{
    joined(code, subscripts_code(alloc, line, b, subscripts)?)?;
    code.push(Instruction::OwnLimits(section(alloc, line, b, array, subscripts)?))?;
    code.push(Instruction::Inside {
        line,
        array,
        subscripts: subs_of(alloc, b, subscripts)?,
    })?;
    Ok(())
}

/// A section as an array expression.
fn section(
    alloc: Global,
    line: u32,
    b: usize,
    array: usize,
    subscripts: &[SectionSubscript],
) -> Result<Evaluation, OutOfMemory>
    ensures { IfOk result (λ e. text.evaluation e ≡ own_evaluation line (SectionForm array (subs_of b (subscripts_of subscripts.now)))) }
{
    Ok(Evaluation {
        line,
        over: subs_of(alloc, b, subscripts)?,
        form: ArrayForm::Section(array, subs_of(alloc, b, subscripts)?),
        beside: None,
    })
}

/// An item that is printed, after the code of all.
fn print_item(alloc: Global, b: usize, i: &Item) -> Result<PrintItem, OutOfMemory>
    ensures { IfOk result (λ p. text.print_item p ≡ definition.print_item b (item i.now)) }
{
    match i {
        Item::Text(bytes) => {
            let mut copied = Vec::new(alloc);
            copied.extend_from_slice(bytes)?;
            Ok(PrintItem::Bytes(copied))
        }
        Item::Value(t) => Ok(PrintItem::Number(flat_of(alloc, b, t)?)),
        Item::Elements(array, subscripts) => Ok(PrintItem::Section(
            *array,
            subs_of(alloc, b, subscripts)?,
        )),
    }
}

/// The items that are printed, in order.
fn print_items(alloc: Global, b: usize, items: &[Item]) -> Result<Vec<PrintItem>, OutOfMemory>
    ensures { IfOk result (λ v. map text.print_item v.items ≡ print_items b (map item items.now)) }
{
    let mut printed = Vec::new(alloc);
    let mut at = b;
    for i in items {
        printed.push(print_item(alloc, at, i)?)?;
        at = plus(at, item_slots(i)?)?;
    }
    Ok(printed)
}
