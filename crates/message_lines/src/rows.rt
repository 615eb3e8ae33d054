//! The rows whose elements messages have.

ghost use Rattle.std.specs.Prelude.{◌≡◌, ◌≤◌, ◌+◌, ◌++◌, ◌∷◌, [], All, IfOk, OnOk, length, map, option_copied, take};
ghost use Rattle.hpf_base.specs.declared.limits.TheConstants.{MAX_ELEMENTS, MAX_RANK};
ghost use Rattle.hpf_base.specs.ElementOrder.{product};
ghost use Rattle.code_meaning.specs.Beside.{aligned_layout_of};
ghost use Rattle.message_text.specs.InstructionLines.{copy_rows, left_rows};
ghost use Rattle.node_code.specs.Texts.{nest_left, nest_statement, when};
ghost use Rattle.message_lines.specs.Grown.{among, grown, up_to};

use hpf_base::OutOfMemory;
use name_table::Names;
use node_code::{NestLeft, NestStatement, When};
use owner_tables::{Anchor, OwnerTable, Owners};
use std::alloc::Global;

/// The declared names and how they lie, and after them copies, where there are some.
#[derive(Drop)]
pub(crate) struct Rows<'a> {
    pub(crate) names: &'a Names,
    pub(crate) owners: Owners,
    /// Rows of copies of scalars, and these scalars, by their places.
    pub(crate) copies: &'a [usize],
    pub(crate) copied: &'a [usize],
}

/// The declared names, which are the first rows of these owners.
pub(crate) fn names_rows<'a>(
    alloc: Global,
    names: &'a Names,
    owners: &Owners,
) -> Result<Rows<'a>, OutOfMemory>
    ensures names { IfOk result (λ r. r.names.now ≡ names.now) }
    ensures owners { IfOk result (λ r. r.owners ≡ record { layouts = take (length names.now) owners.now.layouts; nodes = owners.now.nodes }) }
    ensures copies { IfOk result (λ r. r.copies.now ≡ []) }
    ensures copied { IfOk result (λ r. r.copied.now ≡ []) }
{
    let owners = first_rows(alloc, owners, names.len())?;
    Ok(Rows {
        names,
        owners,
        copies: &[],
        copied: &[],
    })
}

/// The same, and after them a copy that has these extents and lies by this anchor.
pub(crate) fn rows_with_copy<'a>(
    alloc: Global,
    names: &'a Names,
    owners: &Owners,
    anchor: Option<&Anchor>,
    extents: &[u32],
) -> Result<Rows<'a>, OutOfMemory>
    requires rank { length extents.now ≤ MAX_RANK }
    requires each { All (λ extent. extent ≤ MAX_ELEMENTS) extents.now }
    requires size { product extents.now ≤ MAX_ELEMENTS }
    ensures names { IfOk result (λ r. r.names.now ≡ names.now) }
    ensures owners { IfOk result (λ r. r.owners ≡ (let layouts = take (length names.now) owners.now.layouts in record {
      layouts = layouts ++ aligned_layout_of owners.now.nodes layouts (option_copied anchor.entry) extents.now ∷ [];
      nodes = owners.now.nodes;
    })) }
    ensures copies { IfOk result (λ r. r.copies.now ≡ []) }
    ensures copied { IfOk result (λ r. r.copied.now ≡ []) }
{
    let owners = owners_with_copy(alloc, owners, names.len(), anchor, extents)?;
    Ok(Rows {
        names,
        owners,
        copies: &[],
        copied: &[],
    })
}

/// The same, and after them copies that have these extents and lie by this anchor, up to the last one that a statement of a nest names.
pub(crate) fn rows_of_nest<'a>(
    alloc: Global,
    names: &'a Names,
    owners: &Owners,
    anchor: Option<&Anchor>,
    extents: &[u32],
    p: &'a NestStatement,
) -> Result<Rows<'a>, OutOfMemory>
    requires rank { length extents.now ≤ MAX_RANK }
    requires each { All (λ extent. extent ≤ MAX_ELEMENTS) extents.now }
    requires size { product extents.now ≤ MAX_ELEMENTS }
    ensures names { IfOk result (λ r. r.names.now ≡ names.now) }
    ensures owners { IfOk result (λ r. r.owners ≡ (let layouts = take (length names.now) owners.now.layouts in record {
      layouts = grown (aligned_layout_of owners.now.nodes layouts (option_copied anchor.entry) extents.now) layouts (copy_rows (nest_statement p.now));
      nodes = owners.now.nodes;
    })) }
    ensures copies { IfOk result (λ r. r.copies.now ≡ p.now.copies.items) }
    ensures copied { IfOk result (λ r. r.copied.now ≡ p.now.names.items) }
{
    let owners = owners_of_nest(alloc, owners, names.len(), anchor, extents, p)?;
    Ok(Rows {
        names,
        owners,
        copies: &p.copies,
        copied: &p.names,
    })
}

/// The first so many rows, and after them copies that have these extents and lie by this anchor, up to the last one that the statement names.
fn owners_of_nest(
    alloc: Global,
    owners: &Owners,
    count: usize,
    anchor: Option<&Anchor>,
    extents: &[u32],
    p: &NestStatement,
) -> Result<Owners, OutOfMemory>
    requires rank { length extents.now ≤ MAX_RANK }
    requires each { All (λ extent. extent ≤ MAX_ELEMENTS) extents.now }
    requires size { product extents.now ≤ MAX_ELEMENTS }
    ensures { IfOk result (λ o. o ≡ (let layouts = take count owners.now.layouts in record {
      layouts = grown (aligned_layout_of owners.now.nodes layouts (option_copied anchor.entry) extents.now) layouts (copy_rows (nest_statement p.now));
      nodes = owners.now.nodes;
    })) }
{
    let mut rows = first_rows(alloc, owners, count)?;
    let copy = copy_by_first(owners, count, anchor, extents)?;
    grow_to_whens(&mut rows, &copy, &p.whens)?;
    grow_to_all(&mut rows, &copy, &p.copies)?;
    grow_to_left(&mut rows, &copy, &p.left)?;
    Ok(rows)
}

/// Puts copies after the rows, up to those of stored conditions.
fn grow_to_whens(rows: &mut Owners, copy: &OwnerTable, whens: &[When]) -> Result<(), OutOfMemory>
    requires nodes { rows.old.nodes ≡ copy.now.nodes }
    ensures { OnOk result (rows.new ≡ record { layouts = grown copy.now.layout rows.old.layouts (map (λ w. w.copy) (map when whens.now)); nodes = rows.old.nodes }) }
{
    for w in whens {
        grow_to(rows, copy, w.copy)?;
    }
    Ok(())
}

/// The same up to all of these rows.
fn grow_to_all(rows: &mut Owners, copy: &OwnerTable, all: &[usize]) -> Result<(), OutOfMemory>
    requires nodes { rows.old.nodes ≡ copy.now.nodes }
    ensures { OnOk result (rows.new ≡ record { layouts = grown copy.now.layout rows.old.layouts all.now; nodes = rows.old.nodes }) }
{
    for row in all {
        grow_to(rows, copy, *row)?;
    }
    Ok(())
}

/// The same up to the row in which a statement stores copies, if it does.
fn grow_to_left(rows: &mut Owners, copy: &OwnerTable, left: &NestLeft) -> Result<(), OutOfMemory>
    requires nodes { rows.old.nodes ≡ copy.now.nodes }
    ensures { OnOk result (rows.new ≡ record { layouts = grown copy.now.layout rows.old.layouts (left_rows (nest_left left.now)); nodes = rows.old.nodes }) }
{
    match left {
        NestLeft::Element(_, _) => Ok(()),
        NestLeft::Copy(row) => grow_to(rows, copy, *row),
    }
}

/// The same up to one row.
fn grow_to(rows: &mut Owners, copy: &OwnerTable, row: usize) -> Result<(), OutOfMemory>
    requires nodes { rows.old.nodes ≡ copy.now.nodes }
    ensures { OnOk result (rows.new ≡ record { layouts = up_to copy.now.layout rows.old.layouts row; nodes = rows.old.nodes }) }
{
    while rows.rows() <= row {
        rows.push(copy.shared()?)?;
    }
    Ok(())
}

/// The first so many rows, and after them a copy that has these extents and lies by this anchor.
fn owners_with_copy(
    alloc: Global,
    owners: &Owners,
    count: usize,
    anchor: Option<&Anchor>,
    extents: &[u32],
) -> Result<Owners, OutOfMemory>
    requires rank { length extents.now ≤ MAX_RANK }
    requires each { All (λ extent. extent ≤ MAX_ELEMENTS) extents.now }
    requires size { product extents.now ≤ MAX_ELEMENTS }
    ensures { IfOk result (λ o. o ≡ (let layouts = take count owners.now.layouts in record {
      layouts = layouts ++ aligned_layout_of owners.now.nodes layouts (option_copied anchor.entry) extents.now ∷ [];
      nodes = owners.now.nodes;
    })) }
{
    let mut rows = first_rows(alloc, owners, count)?;
    let copy = copy_by_first(owners, count, anchor, extents)?;
    rows.push(copy)?;
    Ok(rows)
}

/// The table of a copy that has these extents, by how the first so many rows lie. A row that lies so, a copy's too, shares its table.
fn copy_by_first(
    owners: &Owners,
    count: usize,
    anchor: Option<&Anchor>,
    extents: &[u32],
) -> Result<OwnerTable, OutOfMemory>
    requires rank { length extents.now ≤ MAX_RANK }
    requires each { All (λ extent. extent ≤ MAX_ELEMENTS) extents.now }
    requires size { product extents.now ≤ MAX_ELEMENTS }
    ensures { IfOk result (λ t. t ≡ record {
      layout = aligned_layout_of owners.now.nodes (take count owners.now.layouts) (option_copied anchor.entry) extents.now;
      nodes = owners.now.nodes;
    }) }
{
    owners.copy_table(among_first(anchor, count), extents)
}

/// The anchor, if its row is one of the first so many.
fn among_first(anchor: Option<&Anchor>, count: usize) -> Option<&Anchor>
    ensures { option_copied result ≡ among count (option_copied anchor.entry) }
{
    match anchor {
        None => None,
        Some(a) => { if a.row() < count { Some(a) } else { None } }
    }
}

/// The first so many rows; all where there are no more.
fn first_rows(alloc: Global, owners: &Owners, count: usize) -> Result<Owners, OutOfMemory>
    ensures { IfOk result (λ o. o ≡ record { layouts = take count owners.now.layouts; nodes = owners.now.nodes }) }
{
    let mut rows = Owners::new(alloc, owners.nodes());
    for row in 0..count {
        push_shared(owners, row, &mut rows)?;
    }
    Ok(rows)
}

/// Puts a row after those before it, if there is such a row.
fn push_shared(owners: &Owners, row: usize, rows: &mut Owners) -> Result<(), OutOfMemory>
    requires nodes { rows.old.nodes ≡ owners.now.nodes }
    requires so_far { rows.old.layouts ≡ take row owners.now.layouts }
    ensures { OnOk result (rows.new ≡ record { layouts = take (row + 1) owners.now.layouts; nodes = owners.now.nodes }) }
{
    if let Some(table) = owners.table(row) {
        rows.push(table.shared()?)?;
    }
    Ok(())
}
