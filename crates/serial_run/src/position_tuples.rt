//! The tuples of positions of a space, one after the other.

ghost use Rattle.std.specs.Prelude.{◌≡◌, ◌+◌, ◌≤◌, ◌<◌, IfOk, IsTrue, OnOk, pos, suc};
ghost use Rattle.array_meaning.specs.declared.limits.TheConstants.{MAX_TUPLES};
ghost use Rattle.array_meaning.specs.Sections.{positions};
ghost use Rattle.serial_run.specs.PositionTuples.{ArePositions, first_position, has_next};

use std::alloc::{AllocError, Global};
use term_values::{divided, positions};

/// The positions of a tuple, and the first of them once more, from 0. The first one is the fastest.
#[derive(Drop)]
pub(crate) struct PositionTuple {
    pub place: usize,
    pub values: Vec<i64>,
}

/// The tuple with a number, from 0.
pub(crate) fn tuple_at(
    alloc: Global,
    extents: &[u128],
    t: usize,
) -> Result<PositionTuple, AllocError>
    ensures { IfOk result (ArePositions extents.now t) }
{
    let x = positions(alloc, extents, t)?;
    let mut values = Vec::new(alloc);
    values.extend_from_slice(x.as_slice())?;
    Ok(PositionTuple {
        place: first_position(extents, t),
        values,
    })
}

/// Goes on from the tuple with a number to the next one.
pub(crate) fn advance(
    alloc: Global,
    extents: &[u128],
    t: usize,
    x: &mut PositionTuple,
) -> Result<(), AllocError>
    requires few { t < MAX_TUPLES }
    requires tuple { ArePositions extents.now t x.old }
    ensures { OnOk result (ArePositions extents.now (t + 1) x.new) }
{
    if has_next(extents, x.place) {
        step_first(extents, t, x);
        return Ok(());
    }
    *x = tuple_at(alloc, extents, t + 1)?;
    Ok(())
}

/// Whether the first dimension has a position after one.
fn has_next(extents: &[u128], place: usize) -> bool
    ensures { result ≡ has_next extents.now place }
{
    !extents.is_empty() && place as u128 + 1 < extents[0]
}

/// Takes the next position of the first dimension.
#[tactic(auto, using(crate::proofs::PositionTuples::place_within))]
fn step_first(extents: &[u128], t: usize, x: &mut PositionTuple)
    requires next { IsTrue (has_next extents.now x.old.place) }
    requires few { t < MAX_TUPLES }
    requires tuple { ArePositions extents.now t x.old }
    ensures { ArePositions extents.now (t + 1) x.new }
{
    x.place += 1;
    let v = position_of(x.place);
    x.values[0] = v;
}

/// The position that a number from 0 is.
fn position_of(place: usize) -> i64
    requires { place ≤ MAX_TUPLES }
    ensures { result ≡ pos (suc place) }
{
    place as i64 + 1
}

/// The first position, from 0, of the tuple with a number.
fn first_position(extents: &[u128], t: usize) -> usize
    ensures value { result ≡ first_position extents.now t }
    ensures few { result ≤ t }
{
    if extents.is_empty() {
        return 0;
    }
    divided(t, extents[0]).rest
}
