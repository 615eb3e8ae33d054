//! Whether a program fits rows.

ghost use Rattle.std.specs.Prelude.{◌≡◌, ◌==◌, ◌&&◌, nat_lt, IsTrue, Some, length, map};
ghost use Rattle.std.specs.List.{list_all, slice_get};
ghost use Rattle.node_code.specs.Texts.{instruction, new_mapping};
ghost use Rattle.node_program.specs.Fits.{FitsRows, fits_row, fits_rows, is_shaped_by, shapes_of};

use hpf_base::MAX_RANK;
use node_code::{Instruction, NewMapping};
use node_program::NodeProgram;
use owner_tables::{OwnerTable, Owners};

/// Whether each instruction of a program fits the rows, and its tables are for as many nodes.
pub fn fits(program: &NodeProgram, owners: &Owners) -> bool
    ensures { IsTrue result → FitsRows program.now owners.now.layouts }
{
    are_on(&program.tables, program.nodes) & code_fits(program, owners)
}

/// Whether all tables are for so many nodes.
fn are_on(tables: &Vec<OwnerTable>, nodes: u32) -> bool
    ensures { result ≡ list_all (λ t. t.nodes == nodes) tables.now.items }
{
    tables.iter().all(|t| t.nodes() == nodes)
}

/// Whether each instruction fits the rows.
fn code_fits(program: &NodeProgram, owners: &Owners) -> bool
    ensures { result ≡ list_all (λ i. fits_rows (length program.now.shapes.items) program.now.tables.items (shapes_of owners.now.layouts) (instruction i)) program.now.code.items }
{
    program.code.iter().all(|i| instruction_fits(program.shapes.len(), &program.tables, owners, i))
}

/// Whether an instruction fits the rows, of which the first are those of so many declared names.
fn instruction_fits(
    declared: usize,
    tables: &Vec<OwnerTable>,
    owners: &Owners,
    i: &Instruction,
) -> bool
    ensures { result ≡ fits_rows declared tables.now.items (shapes_of owners.now.layouts) (instruction i.now) }
{
    match i {
        Instruction::Par(p) | Instruction::ParForall(p) => p.over.len() <= MAX_RANK,
        Instruction::ParNest(p) => p.over.len() <= MAX_RANK,
        Instruction::ParCopy { evaluation, .. }
        | Instruction::ParForallCopy { evaluation, .. }
        | Instruction::Reduce { evaluation, .. } => evaluation.over.len() <= MAX_RANK,
        Instruction::MakeCopy { copy, evaluation } => {
            (declared <= *copy) & (evaluation.over.len() <= MAX_RANK)
        }
        Instruction::MakeCopies { copy, over, .. } => {
            (declared <= *copy) & (over.len() <= MAX_RANK)
        }
        Instruction::Remap { new, .. } => mappings_fit(declared, tables, owners, new),
        _ => true,
    }
}

/// Whether these arrays are declared names whose rows have the shapes of the tables.
fn mappings_fit(
    declared: usize,
    tables: &Vec<OwnerTable>,
    owners: &Owners,
    new: &Vec<NewMapping>,
) -> bool
    ensures { result ≡ (list_all (λ n. nat_lt n.array declared) (map new_mapping new.now.items) && list_all (fits_row tables.now.items (shapes_of owners.now.layouts)) (map new_mapping new.now.items)) }
{
    are_declared(declared, new) & rows_fit(tables, owners, new)
}

/// Whether these arrays are declared names.
fn are_declared(declared: usize, new: &Vec<NewMapping>) -> bool
    ensures { result ≡ list_all (λ n. nat_lt (new_mapping n).array declared) new.now.items }
{
    new.iter().all(|n| n.array < declared)
}

/// Whether their rows have the shapes of the tables.
fn rows_fit(tables: &Vec<OwnerTable>, owners: &Owners, new: &Vec<NewMapping>) -> bool
    ensures { result ≡ list_all (λ n. fits_row tables.now.items (shapes_of owners.now.layouts) (new_mapping n)) new.now.items }
{
    new.iter().all(|n| row_fits(tables, owners, n))
}

/// Whether the row of an array has the shape of the table by which the array is mapped anew.
fn row_fits(tables: &Vec<OwnerTable>, owners: &Owners, new: &NewMapping) -> bool
    ensures { result ≡ fits_row tables.now.items (shapes_of owners.now.layouts) (new_mapping new.now) }
{
    match tables.get(new.map) {
        Some(table) => is_shaped_by(table, owners, new.array),
        None => true,
    }
}

/// Whether a row has the shape of a table.
fn is_shaped_by(table: &OwnerTable, owners: &Owners, row: usize) -> bool
    ensures { result ≡ is_shaped_by (Some table.now) (slice_get (shapes_of owners.now.layouts) row) }
{
    match owners.table(row) {
        Some(other) => other.is_shaped_as(table),
        None => true,
    }
}
