//! The arrays of a text on a grid.

ghost use Rattle.std.specs.Prelude.{IfSome};
ghost use Rattle.hpf_base.specs.ElementOrder.{product};
ghost use Rattle.array_maps.specs.Maps.{AreMaps};

use array_maps::Maps;
use directive_check::check_mapping;
use expression_rules::Dims;
use hpf_base::Grid;
use hpf_reader::read_program;
use name_table::{Program, What, resolve};
use std::alloc::Global;

/// The arrays of a program before its first statement, in the order of their declaration.
#[derive(Drop)]
pub struct Arrays {
    /// The dimensions of each.
    pub shapes: Vec<Dims>,
    /// The value that all elements of each have.
    pub starts: Vec<i64>,
    /// How each lies on the nodes, and how after each REDISTRIBUTE (HPF 2.0, 3 and 8.3).
    pub maps: Maps,
}

/// The grid that is written so, as `4` or `2x2`.
pub fn grid_of(alloc: Global, written: &str) -> Option<Grid> {
    let mut extents = Vec::new(alloc);
    for extent in written.split('x') {
        extents.push(extent.parse::<u32>().ok()?).ok()?;
    }
    Grid::new(alloc, &extents)
}

/// The arrays of a text on a grid; None where the text is refused, or memory is wanting. The rules of bodies aren't asked.
pub fn arrays_of(alloc: Global, text: &[u8], grid: &Grid) -> Option<Arrays>
    ensures { IfSome result (λ a. AreMaps (product grid.now) a.maps) }
{
    match read_program(alloc, text) {
        Ok(tree) => match resolve(alloc, tree) {
            Ok(program) => match check_mapping(alloc, &program, grid) {
                Ok(maps) => match held_by(alloc, &program) {
                    Some((shapes, starts)) => Some(Arrays {
                        shapes,
                        starts,
                        maps,
                    }),
                    None => None,
                },
                Err(_) => None,
            },
            Err(_) => None,
        },
        Err(_) => None,
    }
}

/// The dimensions and the values of the arrays of a program.
fn held_by(alloc: Global, program: &Program) -> Option<(Vec<Dims>, Vec<i64>)> {
    let shapes = shapes_of(alloc, program)?;
    let starts = starts_of(alloc, program)?;
    Some((shapes, starts))
}

fn shapes_of(alloc: Global, program: &Program) -> Option<Vec<Dims>> {
    let mut shapes = Vec::new(alloc);
    for place in 0..program.names.len() {
        if let What::Array(dims, _) = &program.names.get(place)?.what {
            shapes.push(dims.copy(alloc).ok()?).ok()?;
        }
    }
    Some(shapes)
}

fn starts_of(alloc: Global, program: &Program) -> Option<Vec<i64>> {
    let mut starts = Vec::new(alloc);
    for place in 0..program.names.len() {
        if let What::Array(_, value) = &program.names.get(place)?.what {
            starts.push(*value).ok()?;
        }
    }
    Some(starts)
}
