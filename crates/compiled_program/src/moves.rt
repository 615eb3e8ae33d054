//! The mappings that arrays get while a program runs (HPF 2.0, 8.3), by their numbers.

ghost use Rattle.std.specs.Prelude.{◌≡◌, ◌≤◌, ◌++◌, ℕ, suc, [], All, IfOk, OnOk, map};
ghost use Rattle.hpf_base.specs.declared.limits.TheConstants.{MAX_NODES};
ghost use Rattle.array_maps.specs.Maps.{AreMaps, AreNewMaps, IsArrayMap, IsNewMap};
ghost use Rattle.node_code.specs.Texts.{new_mapping};
ghost use Rattle.node_codegen.specs.Moves.{moves_by};
ghost use Rattle.node_program.specs.Programs.{mappings_of};
ghost use Rattle.nodes_lowered.specs.NewMappings.{array_place, array_places, new_mappings, numbered, numbered_at, with_place};
ghost use Rattle.compiled_program.specs.NewTables.{new_table, new_tables};

use crate::rows::entry_at;
use array_maps::{ArrayMap, Maps, NewMap, Redistribution};
use hpf_base::OutOfMemory;
use name_table::{Names, What};
use node_code::NewMapping;
use node_codegen::LineMoves;
use owner_tables::OwnerTable;
use std::alloc::Global;

/// What the REDISTRIBUTEs of a program do.
#[derive(Drop)]
pub(crate) struct ProgramMoves {
    /// Of each new mapping, by its number, the table of the array that gets it.
    pub(crate) tables: Vec<OwnerTable>,
    /// Of each REDISTRIBUTE, in the order of the text, its line and the arrays that it moves.
    pub(crate) moves: Vec<LineMoves>,
}

/// What the REDISTRIBUTEs of a program do, on so many nodes: the number of a new mapping is its place among all of them, in the order of the
/// text.
pub(crate) fn program_moves(
    alloc: Global,
    names: &Names,
    maps: &Maps,
    nodes: u32,
) -> Result<ProgramMoves, OutOfMemory>
    requires some { 1 ≤ nodes }
    requires few { nodes ≤ MAX_NODES }
    requires valid { AreMaps nodes maps.now }
    ensures tables { IfOk result (λ m. m.tables.items ≡ new_tables nodes maps.now.arrays maps.now.moves) }
    ensures mappings { IfOk result (λ m. mappings_of m.tables.items ≡ new_mappings maps.now.moves) }
    ensures moves { IfOk result (λ m. (line : ℕ) → moves_by m.moves.items line ≡ numbered_at (array_places 0 names.now) 0 maps.now.moves line) }
{
    let places = array_places(alloc, names)?;
    let arrays = maps.arrays.as_slice();
    let moves = maps.moves.as_slice();
    let made = numbered_moves(alloc, nodes, &places, arrays, moves)?;
    Ok(made)
}

/// What these redistributions do, where the arrays have these places.
fn numbered_moves(
    alloc: Global,
    nodes: u32,
    places: &[usize],
    arrays: &[ArrayMap],
    all: &[Redistribution],
) -> Result<ProgramMoves, OutOfMemory>
    requires some { 1 ≤ nodes }
    requires few { nodes ≤ MAX_NODES }
    requires shapes { All (IsArrayMap nodes) arrays.now }
    requires valid { All (λ r. AreNewMaps nodes arrays.now r.maps) all.now }
    ensures tables { IfOk result (λ m. m.tables.items ≡ new_tables nodes arrays.now all.now) }
    ensures moves { IfOk result (λ m. (line : ℕ) → moves_by m.moves.items line ≡ numbered_at places.now 0 all.now line) }
{
    let mut tables = Vec::new(alloc);
    let mut moves = Vec::new(alloc);
    for one in all {
        let news = one.maps.as_slice();
        let maps = numbered(alloc, places, tables.len(), news)?;
        push_tables(alloc, nodes, arrays, news, &mut tables)?;
        moves.push(LineMoves {
            line: one.line,
            maps,
        })?;
    }
    Ok(ProgramMoves { tables, moves })
}

/// The places of the arrays among the declared names, in order.
fn array_places(alloc: Global, names: &Names) -> Result<Vec<usize>, OutOfMemory>
    ensures { IfOk result (λ places. places.items ≡ array_places 0 names.now) }
{
    let mut places = Vec::new(alloc);
    for place in 0..names.len() {
        push_place(&entry_at(names, place).what, place, &mut places)?;
    }
    Ok(places)
}

/// The place of a name after the others, if it is an array.
fn push_place(what: &What, place: usize, places: &mut Vec<usize>) -> Result<(), OutOfMemory>
    ensures { OnOk result (places.new.items ≡ places.old.items ++ with_place place what.now []) }
{
    match what {
        What::Array(_, _) => Ok(places.push(place)?),
        _ => Ok(()),
    }
}

/// These arrays with the numbers of their mappings, from the first on, where arrays have these places.
fn numbered(
    alloc: Global,
    places: &[usize],
    first: usize,
    news: &[NewMap],
) -> Result<Vec<NewMapping>, OutOfMemory>
    ensures { IfOk result (λ made. map new_mapping made.items ≡ numbered places.now first news.now) }
{
    let mut made = Vec::new(alloc);
    let mut number = first;
    for one in news {
        made.push(NewMapping {
            array: array_place(places, one),
            map: number,
        })?;
        number = after(number)?;
    }
    Ok(made)
}

/// The place of the array that moves.
fn array_place(places: &[usize], moved: &NewMap) -> usize
    ensures { result ≡ array_place places.now moved.now.array.0 }
{
    match places.get(moved.array.0 as usize) {
        Some(place) => *place,
        None => 0,
    }
}

/// The next number. One past 64 bits is answered as want of memory.
fn after(number: usize) -> Result<usize, OutOfMemory>
    ensures { IfOk result (λ n. n ≡ suc number) }
{
    match number.checked_add(1) {
        Some(next) => Ok(next),
        None => Err(OutOfMemory),
    }
}

/// The tables of these new mappings after the others.
fn push_tables(
    alloc: Global,
    nodes: u32,
    arrays: &[ArrayMap],
    news: &[NewMap],
    tables: &mut Vec<OwnerTable>,
) -> Result<(), OutOfMemory>
    requires some { 1 ≤ nodes }
    requires few { nodes ≤ MAX_NODES }
    requires shapes { All (IsArrayMap nodes) arrays.now }
    requires valid { All (IsNewMap nodes arrays.now) news.now }
    ensures { OnOk result (tables.new.items ≡ tables.old.items ++ map (new_table nodes arrays.now) news.now) }
{
    for one in news {
        tables.push(new_table(alloc, nodes, arrays, one)?)?;
    }
    Ok(())
}

/// The table of an array with its new mapping.
fn new_table(
    alloc: Global,
    nodes: u32,
    arrays: &[ArrayMap],
    moved: &NewMap,
) -> Result<OwnerTable, OutOfMemory>
    requires some { 1 ≤ nodes }
    requires few { nodes ≤ MAX_NODES }
    requires shapes { All (IsArrayMap nodes) arrays.now }
    requires valid { IsNewMap nodes arrays.now moved.now }
    ensures { IfOk result (λ table. table ≡ new_table nodes arrays.now moved.now) }
{
    let array = &arrays[moved.array.0 as usize];
    let mapping = moved.map.copy(alloc)?;
    let table = OwnerTable::new(alloc, nodes, array.shape.copy(alloc), mapping)?;
    Ok(table)
}
