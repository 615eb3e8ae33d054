//! How a copy that is scanned lies.

ghost use Rattle.std.specs.Prelude.{◌≡◌, ◌≤◌, [], ◌∷◌, IfOk};
ghost use Rattle.std.specs.List.{slice_get};
ghost use Rattle.hpf_base.specs.declared.limits.TheConstants.{MAX_ELEMENTS};
ghost use Rattle.machine_steps.specs.CopyLayout.{copy_extents};
ghost use Rattle.machine_steps.specs.Machine.{lies_so};
ghost use Rattle.code_meaning.specs.Instructions.{lies_alone};
ghost use Rattle.code_meaning.specs.ProgramText.{table_on};

use hpf_base::{MAX_ELEMENTS, OutOfMemory};
use owner_tables::{OwnerTable, Owners};

/// Whether there is such a row, and it lies as a copy of one dimension with as many elements, which lies beside nothing: in blocks, one node's
/// after another's.
pub fn lies_alone(owners: &Owners, row: usize) -> Result<bool, OutOfMemory>
    ensures { IfOk result (λ alone. alone ≡ lies_so (lies_alone (table_on owners.now.nodes [] [])) (slice_get owners.now.layouts row)) }
{
    match owners.table(row) {
        Some(table) => table_lies_alone(owners, table),
        None => Ok(false),
    }
}

/// Whether a row with this table lies so.
fn table_lies_alone(owners: &Owners, table: &OwnerTable) -> Result<bool, OutOfMemory>
    ensures { IfOk result (λ alone. alone ≡ lies_alone (table_on owners.now.nodes [] []) table.now.layout) }
{
    let extents = [extent_alone(table.size())];
    let alone = owners.copy_table(None, &extents)?;
    Ok(table.lies_as(&alone))
}

/// The extent of a copy of one dimension with so many elements; 0 where there can't be as many.
fn extent_alone(size: usize) -> u32
    ensures value { copy_extents (size ∷ []) ≡ result ∷ [] }
    ensures low { result ≤ MAX_ELEMENTS }
{
    if size <= MAX_ELEMENTS as usize {
        size as u32
    } else {
        0
    }
}
