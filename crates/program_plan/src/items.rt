//! Items of a PRINT with their names resolved. An `Err` is want of memory here.

ghost use Rattle.std.specs.Prelude.{◌≡◌, map, IfOk};
ghost use Rattle.syntax_tree.specs.Statement as syntax;
ghost use Rattle.array_meaning.specs.Resolution.{item, item_of};
ghost use Rattle.resolved_program.specs.Resolved as plan;
ghost use Rattle.resolved_program.specs.Resolved.{term};

use crate::expressions::term;
use hpf_base::OutOfMemory;
use name_table::Names;
use resolved_program::{Item, Term};
use std::alloc::Global;

/// The items, in order.
pub(crate) fn items(
    alloc: Global,
    names: &Names,
    listed: &[syntax_tree::Item],
) -> Result<Vec<Item>, OutOfMemory>
    ensures { IfOk result (λ v. map plan.item v.items ≡ map (item_of names.now) (map syntax.item_of listed.now)) }
{
    let mut items = Vec::new(alloc);
    for one in listed {
        let item = item_of(alloc, names, one)?;
        items.push(item)?;
    }
    Ok(items)
}

/// An item.
fn item_of(alloc: Global, names: &Names, item: &syntax_tree::Item) -> Result<Item, OutOfMemory>
    ensures { IfOk result (λ i. plan.item i ≡ item_of names.now (syntax.item_of item.now)) }
{
    match item {
        syntax_tree::Item::Value(e) => {
            let t = term(alloc, names, &[], e)?;
            Ok(printed(t))
        }
        syntax_tree::Item::Text(bytes) => {
            let mut text = Vec::new(alloc);
            text.extend_from_slice(bytes.as_slice())?;
            Ok(Item::Text(text))
        }
    }
}

/// A term as an item: the elements of a section, or one value.
fn printed(t: Term) -> Item
    ensures { plan.item result ≡ item (term t) }
{
    match t {
        Term::Section(a, subscripts) => Item::Elements(a, subscripts),
        t => Item::Value(t),
    }
}
