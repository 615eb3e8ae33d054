//! How rows lie after new mappings.

ghost use Rattle.std.specs.Prelude.{◌≡◌, ◌==◌, ◌∷◌, [], IfOk, OnOk, map, true};
ghost use Rattle.std.specs.List.{list_all};
ghost use Rattle.machine_steps.specs.Machine.{remapped};
ghost use Rattle.code_meaning.specs.Instructions.{remappings};
ghost use Rattle.node_code.specs.Texts.{new_mapping};
ghost use Rattle.node_program.specs.Fits.{fits_row, shapes_of};
ghost use Rattle.node_program.specs.Programs.{mappings_of};

use hpf_base::OutOfMemory;
use node_code::NewMapping;
use owner_tables::{OwnerTable, Owners};

/// The tables of rows after these new mappings, one after another (HPF 2.0, 8.3): an array gets the mapping of the table with that number, and a
/// number without a table changes nothing. Each table is for as many nodes as the rows, and has the shape of the array's row. What doesn't change
/// is shared.
pub fn owners_after(
    owners: &Owners,
    tables: &[OwnerTable],
    new: &[NewMapping],
) -> Result<Owners, OutOfMemory>
    requires tables { list_all (λ t. t.nodes == owners.now.nodes) tables.now ≡ true }
    requires shapes { list_all (fits_row tables.now (shapes_of owners.now.layouts)) (map new_mapping new.now) ≡ true }
    ensures layouts { IfOk result (λ after. after.layouts ≡ remapped (remappings (mappings_of tables.now) (map new_mapping new.now)) owners.now.layouts) }
    ensures nodes { IfOk result (λ after. after.nodes ≡ owners.now.nodes) }
{
    let mut after = owners.shared()?;
    for mapping in new {
        set_mapping(&mut after, tables, mapping)?;
    }
    Ok(after)
}

/// An array gets a mapping, where its number has one.
fn set_mapping(
    owners: &mut Owners,
    tables: &[OwnerTable],
    new: &NewMapping,
) -> Result<(), OutOfMemory>
    requires tables { list_all (λ t. t.nodes == owners.old.nodes) tables.now ≡ true }
    requires shape { fits_row tables.now (shapes_of owners.old.layouts) (new_mapping new.now) ≡ true }
    ensures layouts { OnOk result (owners.new.layouts ≡ remapped (remappings (mappings_of tables.now) (new_mapping new.now ∷ [])) owners.old.layouts) }
    ensures nodes { OnOk result (owners.new.nodes ≡ owners.old.nodes) }
{
    if new.map >= tables.len() {
        return Ok(());
    }
    owners.set_mapping(new.array, &tables[new.map])?;
    Ok(())
}
