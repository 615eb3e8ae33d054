//! Mappings: how the dimensions of an array lie on the dimensions of a grid of processors.

ghost use Rattle.std.specs.Prelude.{◌≡◌, IfOk};

use crate::gen_block::BlockSizes;
use hpf_base::Grid;
use std::alloc::{AllocError, Global};
use std::marker::Model;

/// The distribution format of a dimension (HPF 2.0, DISTRIBUTE).
#[derive(Drop)]
pub enum Form {
    /// The dimension isn't distributed.
    Whole,
    /// Blocks of so many positions, one block a processor.
    Block(u64),
    /// Blocks of so many positions, dealt out to the processors in turn.
    Cyclic(u64),
    /// Blocks of these sizes, one a processor, in their order (HPF 2.0, approved extensions, GEN_BLOCK).
    Gen(BlockSizes),
}

impl Form {
    /// The same format once more. An `Err` is want of memory, here and below.
    pub fn copy(&self, alloc: Global) -> Result<Form, AllocError>
        ensures { IfOk result (λ copy. copy ≡ self.now) }
    {
        match self {
            Form::Whole => Ok(Form::Whole),
            Form::Block(size) => Ok(Form::Block(*size)),
            Form::Cyclic(size) => Ok(Form::Cyclic(*size)),
            Form::Gen(sizes) => Ok(Form::Gen(sizes.copy(alloc)?)),
        }
    }
}

/// A dimension with its distribution. Its positions are 1 to `extent`; position 1 is index `lower`.
#[derive(Drop)]
pub struct Line {
    pub lower: i64,
    pub extent: u64,
    pub form: Form,
    pub procs: u32,
}

impl Line {
    /// The same line once more.
    pub fn copy(&self, alloc: Global) -> Result<Line, AllocError>
        ensures { IfOk result (λ copy. copy ≡ self.now) }
    {
        let form = self.form.copy(alloc)?;
        Ok(Line {
            lower: self.lower,
            extent: self.extent,
            form,
            procs: self.procs,
        })
    }
}

/// What a dimension of the template is given for an element with subscripts `i` (HPF 2.0, ALIGN).
#[derive(Clone, Copy, PartialEq, Eq)]
pub enum AlignDim {
    /// The subscript `a * i[dim] + b`; dimensions count from 0.
    Linear { dim: u32, a: i64, b: i64 },
    /// This subscript for every element.
    At(i64),
    /// Every subscript: the element is replicated over the dimension.
    Every,
}

/// One distributed dimension of the template: its line, the dimension of the grid on which it lies, counted from
/// 0, and what it is given for an element.
#[derive(Drop)]
pub struct MapDim {
    pub line: Line,
    pub grid_dim: u32,
    pub align: AlignDim,
}

impl MapDim {
    /// The same dimension once more.
    pub fn copy(&self, alloc: Global) -> Result<MapDim, AllocError>
        ensures { IfOk result (λ copy. copy ≡ self.now) }
    {
        let line = self.line.copy(alloc)?;
        Ok(MapDim {
            line,
            grid_dim: self.grid_dim,
            align: self.align,
        })
    }
}

/// The distributed dimensions of a mapping. Contracts see the list.
#[derive(Drop)]
pub struct MapDims {
    entries: Vec<MapDim>,
}

impl Model for MapDims {
    ghost use Rattle.std.specs.Prelude.{List};
    ghost use Rattle.mappings.specs.declared.mapping.MapDim.{MapDim};

    ghost Value = { List MapDim };

    ghost view = { λ d. d.entries.items };
}

impl MapDims {
    /// These dimensions, in their order. It takes no memory.
    pub fn new(entries: Vec<MapDim>) -> MapDims
        ensures { result ≡ entries.items }
    {
        MapDims { entries }
    }

    /// The dimensions in order.
    pub fn as_slice(&self) -> &[MapDim]
        ensures { result.now ≡ self.now }
    {
        &self.entries
    }

    /// The dimensions in order. It takes no memory.
    pub fn into_vec(self) -> Vec<MapDim>
        ensures { result.items ≡ self }
    {
        self.entries
    }

    /// The same dimensions once more.
    pub fn copy(&self, alloc: Global) -> Result<MapDims, AllocError>
        ensures { IfOk result (λ copy. copy ≡ self.now) }
    {
        let mut entries = Vec::new(alloc);
        for entry in self.entries.as_slice() {
            entries.push(entry.copy(alloc)?)?;
        }
        Ok(MapDims { entries })
    }
}

/// Where the elements of an array lie: a node owns an element where, in every entry that is given a subscript for
/// it, the node's coordinate in `grid_dim` is the coordinate of that subscript's position (HPF 2.0, DISTRIBUTE
/// and ALIGN).
#[derive(Drop)]
pub struct Mapping {
    pub grid: Grid,
    pub dims: MapDims,
}

impl Mapping {
    /// The same mapping once more.
    pub fn copy(&self, alloc: Global) -> Result<Mapping, AllocError>
        ensures { IfOk result (λ copy. copy ≡ self.now) }
    {
        let dims = self.dims.copy(alloc)?;
        Ok(Mapping {
            grid: self.grid.copy(alloc),
            dims,
        })
    }
}
