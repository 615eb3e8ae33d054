//! How the arrays of a program lie at the start.

ghost use Rattle.std.specs.Prelude.{◌≡◌, ◌<◌, ◌≤◌, ◌++◌, All, IfOk, OnOk, Some, drop, length, replicate, slice_get};
ghost use Rattle.hpf_base.specs.declared.limits.TheConstants.{MAX_NODES};
ghost use Rattle.array_maps.specs.Maps.{IsArrayMap};
ghost use Rattle.nodes_lowered.specs.ProgramLayouts.{empty_layout, layout_by, maps_after, program_layouts};
ghost use Rattle.compiled_program.specs.Starts.{first_layout};

use array_maps::ArrayMap;
use hpf_base::OutOfMemory;
use name_table::{Entry, Names, What};
use owner_tables::{OwnerTable, Owners};
use std::alloc::Global;

/// The tables of the declared names, by their places, and after them those of so many copies before they are made. These are the mappings
/// of the arrays among the names; what is no array has no elements.
pub(crate) fn program_owners(
    alloc: Global,
    names: &Names,
    maps: &[ArrayMap],
    copies: usize,
    nodes: u32,
) -> Result<Owners, OutOfMemory>
    requires some { 1 ≤ nodes }
    requires few { nodes ≤ MAX_NODES }
    requires valid { All (IsArrayMap nodes) maps.now }
    ensures { IfOk result (λ owners. owners ≡ record { layouts = program_layouts nodes copies names.now maps.now; nodes = nodes }) }
{
    let mut owners = Owners::new(alloc, nodes);
    let mut rest = maps;
    for place in 0..names.len() {
        let what = &entry_at(names, place).what;
        owners.push(table_by(alloc, what, rest, nodes)?)?;
        rest = maps_after(what, rest);
    }
    push_copies(alloc, &mut owners, copies, nodes)?;
    Ok(owners)
}

/// Puts the tables of so many copies after the others.
fn push_copies(
    alloc: Global,
    owners: &mut Owners,
    copies: usize,
    nodes: u32,
) -> Result<(), OutOfMemory>
    requires some { 1 ≤ nodes }
    requires few { nodes ≤ MAX_NODES }
    requires nodes { owners.old.nodes ≡ nodes }
    ensures { OnOk result (owners.new ≡ record { layouts = owners.old.layouts ++ replicate copies (empty_layout nodes); nodes = nodes }) }
{
    for copy in 0..copies {
        owners.push(empty_table(alloc, nodes)?)?;
    }
    Ok(())
}

/// The entry at a place.
pub(crate) fn entry_at(names: &Names, place: usize) -> &Entry
    requires { place < length names.now }
    ensures { slice_get names.now place ≡ Some result.now }
{
    match names.get(place) {
        Some(entry) => entry,
        None => unreachable!(),
    }
}

/// The table of a name: an array has the first of these mappings.
fn table_by(
    alloc: Global,
    what: &What,
    maps: &[ArrayMap],
    nodes: u32,
) -> Result<OwnerTable, OutOfMemory>
    requires some { 1 ≤ nodes }
    requires few { nodes ≤ MAX_NODES }
    requires valid { All (IsArrayMap nodes) maps.now }
    ensures { IfOk result (λ table. table ≡ record { layout = layout_by nodes what.now maps.now; nodes = nodes }) }
{
    match what {
        What::Array(_, _) => first_table(alloc, maps, nodes),
        _ => empty_table(alloc, nodes),
    }
}

/// The table of an array with the first of these mappings; without a mapping it has no elements.
fn first_table(alloc: Global, maps: &[ArrayMap], nodes: u32) -> Result<OwnerTable, OutOfMemory>
    requires some { 1 ≤ nodes }
    requires few { nodes ≤ MAX_NODES }
    requires valid { All (IsArrayMap nodes) maps.now }
    ensures { IfOk result (λ table. table ≡ record { layout = first_layout nodes maps.now; nodes = nodes }) }
{
    match maps.first() {
        Some(map) => array_table(alloc, map, nodes),
        None => empty_table(alloc, nodes),
    }
}

/// The table of an array with its mapping.
fn array_table(alloc: Global, map: &ArrayMap, nodes: u32) -> Result<OwnerTable, OutOfMemory>
    requires some { 1 ≤ nodes }
    requires few { nodes ≤ MAX_NODES }
    requires valid { IsArrayMap nodes map.now }
    ensures { IfOk result (λ table. table ≡ record { layout = record { shape = map.now.shape; mapping = map.now.start }; nodes = nodes }) }
{
    let mapping = map.start.copy(alloc)?;
    OwnerTable::new(alloc, nodes, map.shape.copy(alloc), mapping)
}

/// The table of what has no elements.
fn empty_table(alloc: Global, nodes: u32) -> Result<OwnerTable, OutOfMemory>
    requires some { 1 ≤ nodes }
    requires few { nodes ≤ MAX_NODES }
    ensures { IfOk result (λ table. table ≡ record { layout = empty_layout nodes; nodes = nodes }) }
{
    OwnerTable::of_copy(alloc, nodes, &[0])
}

/// The mappings of the arrays after the name.
fn maps_after<'a>(what: &What, maps: &'a [ArrayMap]) -> &'a [ArrayMap]
    ensures { result.now ≡ maps_after what.now maps.now }
{
    match what {
        What::Array(_, _) => after_first(maps),
        _ => maps,
    }
}

/// All but the first.
fn after_first(maps: &[ArrayMap]) -> &[ArrayMap]
    ensures { result.now ≡ drop 1 maps.now }
{
    if maps.is_empty() { maps } else { &maps[1..] }
}
