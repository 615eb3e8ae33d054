//! What is assigned at a tuple of a space: an array, and its subscripts by the tuple's positions.

ghost use Rattle.std.specs.Prelude.{◌≡◌, map};
ghost use Rattle.copy_anchors.specs.Anchors.{align_of};

use std::marker::Model;

/// A subscript by the positions of a tuple, which count from 1. Its numbers may be of any size that 128 bits have.
#[derive(Clone, Copy)]
pub struct Subscript {
    /// The axis of the space along which it moves, from 0; None where it is the same everywhere.
    pub axis: Option<u32>,
    /// Its value at position 1.
    pub first: i128,
    /// How much more it is at each next position.
    pub step: i128,
}

/// The row of an array, from 0, and its subscripts, the first dimension first. Contracts see the subscripts as alignments.
#[derive(Drop)]
pub struct Anchor {
    row: usize,
    subscripts: Vec<Subscript>,
}

impl Model for Anchor {
    ghost use Rattle.std.specs.Prelude.{map};
    ghost use Rattle.aligned_copies.specs.Beside.{Anchor};
    ghost use Rattle.copy_anchors.specs.Anchors.{align_of};

    ghost Value = { Anchor };

    ghost view = { λ a. record { row = a.row; subscripts = map align_of a.subscripts.items } };
}

impl Anchor {
    /// The row with these subscripts. It takes no memory.
    pub fn new(row: usize, subscripts: Vec<Subscript>) -> Anchor
        ensures { result ≡ record { row = row; subscripts = map align_of subscripts.items } }
    {
        Anchor { row, subscripts }
    }

    /// The row.
    pub fn row(&self) -> usize
        ensures { result ≡ self.now.row }
    {
        self.row
    }

    /// The subscripts, the first dimension first.
    pub fn subscripts(&self) -> &[Subscript]
        ensures { map align_of result.now ≡ self.now.subscripts }
    {
        self.subscripts.as_slice()
    }
}
