//! How the rows lie on the nodes.

ghost use Rattle.std.specs.Prelude.{◌≡◌, ◌≤◌, All, IfOk};
ghost use Rattle.hpf_base.specs.declared.limits.TheConstants.{MAX_NODES};
ghost use Rattle.hpf_base.specs.Shape.{IsShape};
ghost use Rattle.array_maps.specs.Maps.{AreMaps, AreNewMaps, IsArrayMap, IsMapOf, IsNewMap};

use array_maps::{ArrayMap, Maps, NewMap, NewMaps, Redistribution};
use hpf_base::{OutOfMemory, Shape};
use mappings::Mapping;
use node_code::NewMapping;
use owner_tables::{OwnerTable, Owners};
use std::alloc::Global;
use std::collections::VecDeque;

/// The tables of the arrays with these mappings, and after them those of so many copies without elements.
pub fn owners_of(
    alloc: Global,
    maps: &[ArrayMap],
    copies: usize,
    nodes: u32,
) -> Result<Owners, OutOfMemory>
    requires some { 1 ≤ nodes }
    requires few { nodes ≤ MAX_NODES }
    requires valid { All (IsArrayMap nodes) maps.now }
{
    let mut owners = Owners::new(alloc, nodes);
    for map in maps {
        owners.push(table(alloc, &map.shape, &map.start, nodes)?)?;
    }
    for _copy in 0..copies {
        owners.push(OwnerTable::of_copy(alloc, nodes, &[0])?)?;
    }
    Ok(owners)
}

/// The new mappings of each REDISTRIBUTE, in the order of the text, and the tables of these mappings, by their numbers.
#[derive(Drop)]
pub struct Moves {
    pub moves: VecDeque<Vec<NewMapping>>,
    pub tables: Vec<OwnerTable>,
}

/// Those of the text. Mappings are numbered in its order.
pub fn moves_of(alloc: Global, maps: &Maps, nodes: u32) -> Result<Moves, OutOfMemory>
    requires some { 1 ≤ nodes }
    requires few { nodes ≤ MAX_NODES }
    requires valid { AreMaps nodes maps.now }
{
    all_moves(alloc, maps, maps.moves.as_slice(), nodes)
}

/// Those of these redistributions.
fn all_moves(
    alloc: Global,
    maps: &Maps,
    all: &[Redistribution],
    nodes: u32,
) -> Result<Moves, OutOfMemory>
    requires some { 1 ≤ nodes }
    requires few { nodes ≤ MAX_NODES }
    requires maps { AreMaps nodes maps.now }
    requires all { All (λ r. AreNewMaps nodes maps.now.arrays r.maps) all.now }
{
    let mut moves = VecDeque::new(alloc);
    let mut tables = Vec::new(alloc);
    for one in all {
        moves.push_back(new_mappings(alloc, maps, &one.maps, nodes, &mut tables)?)?;
    }
    Ok(Moves { moves, tables })
}

/// The new mappings of one REDISTRIBUTE, whose tables come after the others.
fn new_mappings(
    alloc: Global,
    maps: &Maps,
    new: &NewMaps,
    nodes: u32,
    tables: &mut Vec<OwnerTable>,
) -> Result<Vec<NewMapping>, OutOfMemory>
    requires some { 1 ≤ nodes }
    requires few { nodes ≤ MAX_NODES }
    requires maps { AreMaps nodes maps.now }
    requires new { AreNewMaps nodes maps.now.arrays new.now }
{
    let mut mappings = Vec::new(alloc);
    for map in new.as_slice() {
        let table = new_table(alloc, maps.arrays.as_slice(), map, nodes)?;
        mappings.push(NewMapping {
            array: map.array.0 as usize,
            map: tables.len(),
        })?;
        tables.push(table)?;
    }
    Ok(mappings)
}

/// The table of an array with its new mapping.
fn new_table(
    alloc: Global,
    arrays: &[ArrayMap],
    new: &NewMap,
    nodes: u32,
) -> Result<OwnerTable, OutOfMemory>
    requires some { 1 ≤ nodes }
    requires few { nodes ≤ MAX_NODES }
    requires arrays { All (IsArrayMap nodes) arrays.now }
    requires new { IsNewMap nodes arrays.now new.now }
{
    table(alloc, &arrays[new.array.0 as usize].shape, &new.map, nodes)
}

/// The table of an array of this shape with this mapping.
fn table(
    alloc: Global,
    shape: &Shape,
    mapping: &Mapping,
    nodes: u32,
) -> Result<OwnerTable, OutOfMemory>
    requires some { 1 ≤ nodes }
    requires few { nodes ≤ MAX_NODES }
    requires shape { IsShape shape.now }
    requires mapping { IsMapOf nodes shape.now mapping.now }
    ensures { IfOk result (λ t. t.nodes ≡ nodes) }
{
    let mapping = mapping.copy(alloc)?;
    OwnerTable::new(alloc, nodes, shape.copy(alloc), mapping)
}
