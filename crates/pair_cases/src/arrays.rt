//! The arrays of a case, and how they lie on its nodes.

ghost use Rattle.std.specs.Prelude.{◌≡◌, ◌≤◌, All, IfOk, IfSome, length};
ghost use Rattle.hpf_base.specs.declared.limits.TheConstants.{MAX_NODES};
ghost use Rattle.hpf_base.specs.ElementOrder.{elements, product};
ghost use Rattle.hpf_base.specs.Shape.{IsShape};
ghost use Rattle.mappings.specs.Mapping.{IsMapping, MapsInside};

use crate::bounds::dims_of;
use crate::words::line_of;
use case_mappings::{Mapped, mapped_of};
use expression_rules::Dims;
use hpf_base::{MAX_NODES, OutOfMemory, Shape};
use owner_tables::{OwnerTable, Owners};
use std::alloc::Global;

/// Arrays with their mappings, in the order of their lines; their dimensions, their tables of owners, and whether all lines were well.
#[derive(Drop)]
pub struct Arrays {
    pub mapped: Vec<Mapped>,
    pub shapes: Vec<Dims>,
    pub owners: Owners,
    pub are_well: bool,
}

/// Those of the lines of a case that begin with a word.
pub fn arrays_of(alloc: Global, case: &[String], word: &str) -> Arrays {
    let nodes = nodes_of(line_of(case, "nodes"));
    let mut arrays = Arrays {
        mapped: Vec::new(alloc),
        shapes: Vec::new(alloc),
        owners: Owners::new(alloc, nodes.unwrap_or(1)),
        are_well: nodes.is_some(),
    };
    for line in case {
        let (first, rest) = line.as_str().split_once(' ').unwrap_or(("", ""));
        if first == word {
            let is_well = add_array(alloc, &mut arrays, rest);
            arrays.are_well = arrays.are_well & is_well;
        }
    }
    arrays
}

/// The number of nodes that is written so.
pub(crate) fn nodes_of(written: &str) -> Option<u32>
    ensures some { IfSome result (λ nodes. 1 ≤ nodes) }
    ensures few { IfSome result (λ nodes. nodes ≤ MAX_NODES) }
{
    let nodes = written.parse::<u32>().ok()?;
    if 1 <= nodes && nodes <= MAX_NODES {
        Some(nodes)
    } else {
        None
    }
}

/// Adds the array that is written so, and says whether it could.
fn add_array(alloc: Global, arrays: &mut Arrays, written: &str) -> bool {
    match mapped_of(alloc, written) {
        Ok(mapped) => {
            let has_table = add_table(alloc, &mut arrays.owners, &mapped);
            let has_dims = add_dims(alloc, &mut arrays.shapes, &mapped.shape);
            let is_kept = arrays.mapped.push(mapped).is_ok();
            has_table & has_dims & is_kept
        }
        Err(_) => false,
    }
}

/// Adds the dimensions of an array.
fn add_dims(alloc: Global, shapes: &mut Vec<Dims>, shape: &Shape) -> bool {
    match dims_of(alloc, shape) {
        Some(dims) => shapes.push(dims).is_ok(),
        None => false,
    }
}

/// Adds the table of an array whose grid has all nodes.
fn add_table(alloc: Global, owners: &mut Owners, mapped: &Mapped) -> bool
    requires shape { IsShape mapped.now.shape }
    requires mapping { IsMapping (length mapped.now.shape.lower) mapped.now.mapping }
    requires inside { All (MapsInside mapped.now.mapping) (elements mapped.now.shape) }
{
    let nodes = owners.nodes();
    if mapped.mapping.grid.node_count() != nodes {
        return false;
    }
    match table_of(alloc, nodes, mapped) {
        Ok(table) => owners.push(table).is_ok(),
        Err(_) => false,
    }
}

/// The table of an array.
fn table_of(alloc: Global, nodes: u32, mapped: &Mapped) -> Result<OwnerTable, OutOfMemory>
    requires some { 1 ≤ nodes }
    requires few { nodes ≤ MAX_NODES }
    requires shape { IsShape mapped.now.shape }
    requires mapping { IsMapping (length mapped.now.shape.lower) mapped.now.mapping }
    requires inside { All (MapsInside mapped.now.mapping) (elements mapped.now.shape) }
    requires grid { product mapped.now.mapping.grid ≡ nodes }
    ensures { IfOk result (λ t. t.nodes ≡ nodes) }
{
    let mapping = mapped.mapping.copy(alloc)?;
    OwnerTable::new(alloc, nodes, mapped.shape.copy(alloc), mapping)
}
