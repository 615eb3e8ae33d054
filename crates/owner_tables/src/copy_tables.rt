//! The table of a copy, by how all rows lie.

ghost use Rattle.std.specs.Prelude.{◌≡◌, ◌≤◌, All, IfOk, IfSome, length, option_copied, option_map, slice_get};
ghost use Rattle.hpf_base.specs.declared.limits.TheConstants.{MAX_ELEMENTS, MAX_RANK};
ghost use Rattle.hpf_base.specs.ElementOrder.{product};
ghost use Rattle.machine_steps.specs.SameLayouts.{is_same_layout};
ghost use Rattle.aligned_copies.specs.Beside.{aligned_layout_of, lies_by};
ghost use Rattle.owner_tables.specs.CopyTables.{good_beside, laid_out};
ghost use Rattle.owner_tables.specs.Layouts.{IsLaid};

use crate::copies::{CopyLayout, copy_layout, good_layout};
use crate::owner_table::OwnerTable;
use crate::owners::Owners;
use crate::same::{is_same_mapping, is_same_shape};
use copy_anchors::Anchor;
use hpf_base::OutOfMemory;
use std::alloc::Global;

/// The table of a copy that has these extents, by how all rows lie. A row that lies so gives its own table.
pub(crate) fn copy_table(
    alloc: Global,
    owners: &Owners,
    anchor: Option<&Anchor>,
    extents: &[u32],
) -> Result<OwnerTable, OutOfMemory>
    requires rank { length extents.now ≤ MAX_RANK }
    requires each { All (λ extent. extent ≤ MAX_ELEMENTS) extents.now }
    requires size { product extents.now ≤ MAX_ELEMENTS }
    ensures { IfOk result (λ t. t ≡ record {
      layout = aligned_layout_of owners.now.nodes owners.now.layouts (option_copied anchor.entry) extents.now;
      nodes = owners.now.nodes;
    }) }
{
    let copy = aligned_layout_of(alloc, owners, anchor, extents)?;
    table_of(alloc, owners, copy)
}

/// How a copy lies that has these extents.
fn aligned_layout_of(
    alloc: Global,
    owners: &Owners,
    anchor: Option<&Anchor>,
    extents: &[u32],
) -> Result<CopyLayout, OutOfMemory>
    requires rank { length extents.now ≤ MAX_RANK }
    requires each { All (λ extent. extent ≤ MAX_ELEMENTS) extents.now }
    requires size { product extents.now ≤ MAX_ELEMENTS }
    ensures value { IfOk result (λ copy. laid_out copy ≡ aligned_layout_of owners.now.nodes owners.now.layouts (option_copied anchor.entry) extents.now) }
    ensures laid { IfOk result (λ copy. IsLaid owners.now.nodes (laid_out copy)) }
{
    match anchor {
        None => copy_layout(alloc, owners.nodes(), extents),
        Some(anchor) => lies_by(alloc, owners, anchor, extents),
    }
}

/// How it lies by an anchor.
fn lies_by(
    alloc: Global,
    owners: &Owners,
    anchor: &Anchor,
    extents: &[u32],
) -> Result<CopyLayout, OutOfMemory>
    requires rank { length extents.now ≤ MAX_RANK }
    requires each { All (λ extent. extent ≤ MAX_ELEMENTS) extents.now }
    requires size { product extents.now ≤ MAX_ELEMENTS }
    ensures value { IfOk result (λ copy. laid_out copy
        ≡ lies_by owners.now.nodes extents.now anchor.now.subscripts (slice_get owners.now.layouts anchor.now.row)) }
    ensures laid { IfOk result (λ copy. IsLaid owners.now.nodes (laid_out copy)) }
{
    match good_beside(alloc, owners, anchor, extents)? {
        Some(copy) => Ok(copy),
        None => copy_layout(alloc, owners.nodes(), extents),
    }
}

/// How it lies beside the row of the anchor, where there is such a row and the subscripts are good.
fn good_beside(
    alloc: Global,
    owners: &Owners,
    anchor: &Anchor,
    extents: &[u32],
) -> Result<Option<CopyLayout>, OutOfMemory>
    requires rank { length extents.now ≤ MAX_RANK }
    requires each { All (λ extent. extent ≤ MAX_ELEMENTS) extents.now }
    requires size { product extents.now ≤ MAX_ELEMENTS }
    ensures value { IfOk result (λ copy. option_map laid_out copy
        ≡ good_beside extents.now anchor.now.subscripts (slice_get owners.now.layouts anchor.now.row)) }
    ensures laid { IfOk result (λ copy. IfSome copy (λ c. IsLaid owners.now.nodes (laid_out c))) }
{
    match owners.table(anchor.row()) {
        Some(table) => good_layout(alloc, table, extents, anchor.subscripts()),
        None => Ok(None),
    }
}

/// The table of what lies so: that of a row, where one does, and else a new one.
fn table_of(alloc: Global, owners: &Owners, copy: CopyLayout) -> Result<OwnerTable, OutOfMemory>
    requires { IsLaid owners.now.nodes (laid_out copy) }
    ensures { IfOk result (λ t. t ≡ record { layout = laid_out copy; nodes = owners.now.nodes }) }
{
    match row_of(owners, &copy) {
        Some(table) => table.shared(),
        None => {
            let CopyLayout { shape, mapping } = copy;
            OwnerTable::new(alloc, owners.nodes(), shape, mapping)
        }
    }
}

/// The first row that lies so.
fn row_of<'a>(owners: &'a Owners, copy: &CopyLayout) -> Option<&'a OwnerTable>
    ensures { IfSome result (λ t. t.now ≡ record { layout = laid_out copy.now; nodes = owners.now.nodes }) }
{
    for row in 0..owners.rows() {
        if let Some(table) = owners.table(row) {
            if is_laid_as(table, copy) {
                return Some(table);
            }
        }
    }
    None
}

/// Whether a row lies so.
fn is_laid_as(table: &OwnerTable, copy: &CopyLayout) -> bool
    ensures { result ≡ is_same_layout table.now.layout (laid_out copy.now) }
{
    is_same_shape(table.shape(), &copy.shape) && is_same_mapping(table.mapping(), &copy.mapping)
}
