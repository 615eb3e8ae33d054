//! The program that all nodes run.

use expression_rules::Dims;
use node_code::Instruction;
use owner_tables::OwnerTable;

/// Node code, with the dimensions of the declared arrays, by the places of their names, and the number of nodes, from 1 to 64.
#[derive(Drop)]
pub struct NodeProgram {
    pub nodes: u32,
    pub shapes: Vec<Dims>,
    /// The mappings that instructions give to arrays, by their numbers: of each the table of the arrays that get it, which have one shape.
    pub tables: Vec<OwnerTable>,
    pub code: Vec<Instruction>,
}
