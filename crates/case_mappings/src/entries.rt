//! The distributed dimensions of mappings, as cases write them.

ghost use Rattle.std.specs.Prelude.{◌≡◌, ◌≢◌, IfOk, IsTrue, Some, slice_get};
ghost use Rattle.mappings.specs.Mapping.{IsAlign, IsMapDim, IsMapping, MoveApart, moves_along};

use crate::lines::{form_of, is_distributed, is_line, read_line};
use crate::parts::{first_part, numbers};
use case_texts::TextError;
use hpf_base::Grid;
use mappings::{AlignDim, Form, MapDim, MapDims, Mapping};
use std::alloc::Global;

/// The mapping that is written so, of an array of so many dimensions.
pub fn mapping_of(alloc: Global, rank: usize, written: &str) -> Result<Mapping, TextError>
    ensures { IfOk result (IsMapping rank) }
{
    let (extents, entries) = first_part(written);
    let grid = grid_of(alloc, extents)?;
    let dims = dims_of(alloc, &grid, rank, entries)?;
    Ok(Mapping {
        grid,
        dims: MapDims::new(dims),
    })
}

/// The distributed dimensions that are written so.
#[tactic(auto, using(crate::proofs::MappingLaws::two_entries))]
fn dims_of(alloc: Global, grid: &Grid, rank: usize, entries: &str) -> Result<Vec<MapDim>, TextError>
    ensures { IfOk result (λ dims. IsMapping rank (record { grid = grid.now; dims = dims.items })) }
{
    let (first, second) = first_part(entries);
    if first.is_empty() {
        return Ok(Vec::new(alloc));
    }
    let entry = entry_of(alloc, grid, rank, first)?;
    if second.is_empty() {
        let mut dims = Vec::new(alloc);
        dims.push(entry)?;
        return Ok(dims);
    }
    let next = entry_of(alloc, grid, rank, second)?;
    if !are_apart(&entry, &next) {
        return Err(TextError::Malformed);
    }
    let mut dims = Vec::new(alloc);
    dims.push(entry)?;
    dims.push(next)?;
    Ok(dims)
}

/// The grid with these extents.
fn grid_of(alloc: Global, text: &str) -> Result<Grid, TextError> {
    let numbers = numbers(alloc, text)?;
    grid_with(alloc, &numbers)
}

/// The grid with these numbers as its extents.
fn grid_with(alloc: Global, numbers: &[i64]) -> Result<Grid, TextError> {
    let mut extents = Vec::new(alloc);
    for number in numbers {
        match u32::try_from(*number) {
            Ok(extent) => extents.push(extent)?,
            Err(_) => return Err(TextError::Malformed),
        }
    }
    Grid::new(alloc, &extents).ok_or(TextError::Malformed)
}

/// The entry that is written so.
fn entry_of(alloc: Global, grid: &Grid, rank: usize, text: &str) -> Result<MapDim, TextError>
    ensures { IfOk result (IsMapDim grid.now rank) }
{
    let entry = read_entry(alloc, grid, rank, text)?;
    if is_entry(grid, rank, &entry) {
        Ok(entry)
    } else {
        Err(TextError::Malformed)
    }
}

/// The entry with these numbers, which may not be those of one.
fn read_entry(alloc: Global, grid: &Grid, rank: usize, text: &str) -> Result<MapDim, TextError> {
    let numbers = numbers(alloc, text)?;
    let (form, rest) = form_of(alloc, text, &numbers)?;
    match place_of(grid, rank, rest) {
        Ok(place) => entry_at(form, place),
        Err(error) => Err(error),
    }
}

/// What the numbers after a format say of an entry.
#[derive(Clone, Copy)]
struct Place {
    lower: i64,
    extent: i64,
    procs: u32,
    grid_dim: u32,
    align: AlignDim,
}

/// What these numbers say.
fn place_of(grid: &Grid, rank: usize, numbers: &[i64]) -> Result<Place, TextError> {
    let [lower, extent, dim, align @ ..] = numbers else {
        return Err(TextError::Malformed);
    };
    let grid_dim = u32::try_from(*dim).ok().ok_or(TextError::Malformed)?;
    let procs = *grid
        .dims()
        .get(grid_dim as usize)
        .ok_or(TextError::Malformed)?;
    Ok(Place {
        lower: *lower,
        extent: *extent,
        procs,
        grid_dim,
        align: align_of(rank, align)?,
    })
}

/// The entry with this format.
fn entry_at(form: Form, place: Place) -> Result<MapDim, TextError> {
    match read_line(form, place.lower, place.extent, place.procs) {
        Some(line) => Ok(MapDim {
            line,
            grid_dim: place.grid_dim,
            align: place.align,
        }),
        None => Err(TextError::Malformed),
    }
}

/// Whether it is an entry of a mapping onto the grid, of an array of so many dimensions.
fn is_entry(grid: &Grid, rank: usize, entry: &MapDim) -> bool
    ensures { IsTrue result → IsMapDim grid.now rank entry.now }
{
    is_line(&entry.line)
        && is_distributed(&entry.line)
        && is_on_grid(grid, entry)
        && is_align(rank, &entry.align)
}

/// Whether the dimension of the grid has as many processors as the line.
fn is_on_grid(grid: &Grid, entry: &MapDim) -> bool
    ensures { IsTrue result → slice_get grid.now entry.now.grid_dim ≡ Some entry.now.line.procs }
{
    match grid.dims().get(entry.grid_dim as usize) {
        Some(procs) => *procs == entry.line.procs,
        None => false,
    }
}

/// Whether the alignment is one of an array of so many dimensions.
fn is_align(rank: usize, align: &AlignDim) -> bool
    ensures { IsTrue result → IsAlign rank align.now }
{
    match *align {
        AlignDim::Linear { dim, .. } => (dim as usize) < rank,
        AlignDim::At(_) | AlignDim::Every => true,
    }
}

/// The alignment with these numbers, of an array of so many dimensions.
pub fn align_of(rank: usize, numbers: &[i64]) -> Result<AlignDim, TextError>
    ensures { IfOk result (IsAlign rank) }
{
    match numbers {
        [] => Ok(AlignDim::Every),
        [subscript] => Ok(AlignDim::At(*subscript)),
        [dim, a, b] => match u32::try_from(*dim) {
            Ok(dim) if (dim as usize) < rank => Ok(AlignDim::Linear { dim, a: *a, b: *b }),
            _ => Err(TextError::Malformed),
        },
        _ => Err(TextError::Malformed),
    }
}

/// Whether two entries lie on two dimensions of the grid and move along two of the array.
fn are_apart(one: &MapDim, other: &MapDim) -> bool
    ensures grid_dim { IsTrue result → one.now.grid_dim ≢ other.now.grid_dim }
    ensures align { IsTrue result → MoveApart one.now.align other.now.align }
{
    one.grid_dim != other.grid_dim
        && match (moves_along(&one.align), moves_along(&other.align)) {
            (Some(dim), Some(other)) => dim != other,
            _ => true,
        }
}

/// The dimension of the array along which the alignment moves.
fn moves_along(align: &AlignDim) -> Option<u32>
    ensures { result ≡ moves_along align.now }
{
    match *align {
        AlignDim::Linear { dim, a, .. } if a != 0 => Some(dim),
        _ => None,
    }
}
