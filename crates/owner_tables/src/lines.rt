//! Elements of a row at equal distances.

ghost use Rattle.std.specs.Prelude.{◌≡◌, ℕ, ◌+◌, ◌*◌, ◌^◌, ◌<◌, ◌≤◌, All, IfSome, IsTrue, length, slice_index_or};
ghost use Rattle.hpf_base.specs.ElementOrder.{product};
ghost use Rattle.owner_tables.specs.Columns.{AreRanked, IsFilled, extents_along};
ghost use Rattle.owner_tables.specs.Stretches.{AreEven, IsStretch};

use crate::columns::{Column, split_by};
use periodic_runs::{Place, Places};

/// How many elements at the front of a line the node owns, and where they lie in its piece.
#[derive(Clone, Copy)]
pub struct HeldLine {
    /// How many they are.
    pub count: usize,
    /// The local address of the first.
    pub first: usize,
    /// How far apart one and the next lie.
    pub step: usize,
}

impl HeldLine {
    /// No elements.
    pub(crate) fn none() -> HeldLine
        ensures { result.count ≡ 0 }
    {
        HeldLine {
            count: 0,
            first: 0,
            step: 0,
        }
    }
}

/// How many of a line's elements after the first have its owners, and how far apart one and the next lie in the piece of a node.
#[derive(Clone, Copy)]
pub(crate) struct Stretch {
    /// How many they are.
    pub(crate) others: usize,
    /// How far apart they lie.
    pub(crate) apart: usize,
}

/// How many of a line's elements after that at the position have its owners and lie at equal distances in a node's piece: a front of `others`,
/// each `step` positions after the one before. It goes along the first dimension on which their places differ.
pub(crate) fn stretch_in(
    columns: &[Column],
    node: u32,
    at: u32,
    step: u32,
    others: usize,
) -> Stretch
    requires columns { (nodes : ℕ) × (node < nodes) × All (IsFilled nodes) columns.now }
    requires ranks { All (λ column. AreRanked column.places) columns.now }
    requires at { at < product (extents_along columns.now) }
    ensures few { result.others ≤ others }
    ensures line { IsStretch columns.now node at step result.others result.apart }
{
    let mut number = at;
    let mut beyond = step;
    for column in columns {
        let here = split_by(number, column.extent());
        let Some(next) = step_beyond(beyond, column.extent()) else {
            return stretch_along(column, node, here.place, beyond, others);
        };
        number = here.rest;
        beyond = next;
    }
    Stretch {
        others: 0,
        apart: 0,
    }
}

/// The step in what a dimension leaves for the others, where each step ends at the same place of the dimension.
fn step_beyond(step: u32, extent: u32) -> Option<u32>
    requires { 1 ≤ extent }
    ensures { IfSome result (λ next. step ≡ next * extent) }
{
    if step < extent || step % extent != 0 {
        None
    } else {
        Some(step / extent)
    }
}

/// The same along one dimension, from a place of it.
fn stretch_along(column: &Column, node: u32, place: u32, step: u32, others: usize) -> Stretch
    requires place { place < column.now.extent }
    requires places { length column.now.places ≡ column.now.extent }
    requires node { node < length column.now.strides }
    requires ranks { AreRanked column.now.places }
    ensures few { result.others ≤ others }
    ensures inside { place + result.others * step < column.now.extent }
    ensures even { (apart : ℕ) × (AreEven column.now.places place step result.others apart)
        × (result.apart ≡ apart * slice_index_or column.now.strides node 0) }
{
    let others = steps_within(column.extent() - 1 - place, step, others);
    let even = even_places(column.places(), place as usize, step, others);
    Stretch {
        others: even.others,
        apart: even.apart as usize * column.stride(node) as usize,
    }
}

/// How many steps stay within so much room, of at most `most`.
fn steps_within(room: u32, step: u32, most: usize) -> usize
    ensures few { result ≤ most }
    ensures within { result * step ≤ room }
{
    if step == 0 {
        most
    } else {
        most.min(quotient(room, step) as usize)
    }
}

/// A number by another one. It doesn't divide by 1.
fn quotient(number: u32, by: u32) -> u32
    requires { 1 ≤ by }
    ensures { result * by ≤ number }
{
    if by == 1 { number } else { number / by }
}

/// How many places at equal distances after a first one add the same as it, and how far apart their ranks lie.
#[derive(Clone, Copy)]
struct EvenPlaces {
    others: usize,
    apart: u32,
}

/// How many of the places after a first one add the same as it, with ranks at equal distances: a front of `others`, each `step` places after the
/// one before. Where all lie in one block, it asks the last alone.
fn even_places(places: &Places, first: usize, step: u32, others: usize) -> EvenPlaces
    requires inside { first + others * step < length places.now }
    requires few { length places.now < 2 ^ 32 }
    requires ranks { AreRanked places.now }
    ensures few { result.others ≤ others }
    ensures even { AreEven places.now first step result.others result.apart }
{
    let distance = others * step as usize;
    if is_one_block(places.at(first), places.at(first + distance), distance) {
        EvenPlaces {
            others,
            apart: step,
        }
    } else {
        walk(places, first, step as usize, others)
    }
}

/// Whether two places at a distance add the same, and all between them too.
fn is_one_block(one: Place, other: Place, distance: usize) -> bool
    ensures part { IsTrue result → other.part ≡ one.part }
    ensures rank { IsTrue result → other.rank ≡ one.rank + distance }
{
    one.part == other.part && one.rank <= other.rank && (other.rank - one.rank) as usize == distance
}

/// The same place by place, as far as it goes.
fn walk(places: &Places, first: usize, step: usize, others: usize) -> EvenPlaces
    requires inside { first + others * step < length places.now }
    requires few { length places.now < 2 ^ 32 }
    ensures few { result.others ≤ others }
    ensures even { AreEven places.now first step result.others result.apart }
{
    if others == 0 || places.at(first + step).rank < places.at(first).rank {
        return EvenPlaces {
            others: 0,
            apart: 0,
        };
    }
    let apart = places.at(first + step).rank - places.at(first).rank;
    EvenPlaces {
        others: walk_by(places, first, step, others, apart),
        apart,
    }
}

/// The same where the ranks lie so far apart.
fn walk_by(places: &Places, first: usize, step: usize, others: usize, apart: u32) -> usize
    requires inside { first + others * step < length places.now }
    requires few { length places.now < 2 ^ 32 }
    ensures few { result ≤ others }
    ensures even { AreEven places.now first step result apart }
{
    let part = places.at(first).part;
    let mut at = first;
    let mut rank = places.at(first).rank as usize;
    for done in 0..others {
        at += step;
        rank += apart as usize;
        if !adds(places.at(at), part, rank) {
            return done;
        }
    }
    others
}

/// Whether a place adds so much, and has this rank.
fn adds(place: Place, part: u32, rank: usize) -> bool
    ensures part { IsTrue result → place.part ≡ part }
    ensures rank { IsTrue result → place.rank ≡ rank }
    ensures small { IsTrue result → rank < 2 ^ 32 }
{
    (place.part == part) & (place.rank as usize == rank)
}
