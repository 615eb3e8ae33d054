//! Lists of places that are expected to repeat.

ghost use Rattle.std.specs.Prelude.{◌≡◌, ◌+◌, ◌++◌, ◌∷◌, [], ◌≤◌, ◌<◌, ◌^◌, IfOk, OnOk, length, map, slice_index_or};
ghost use Rattle.std.specs.List.{range_with_len};
ghost use Rattle.periodic_runs.specs.Runs.{capped, no_place};
ghost use Rattle.periodic_runs.specs.Periods.{expected};

use crate::runs::{Place, Runs, is_same};
use hpf_base::OutOfMemory;
use std::alloc::Global;
use std::marker::Model;

/// More places than a list has.
const NO_PERIOD: u32 = u32::MAX;

/// Places of which those of the first period stand as runs. Of each part it has how many places of the first period have it: by so much
/// a place of a later period has a greater rank than the one a period before.
#[derive(Drop)]
pub(crate) struct Repeated {
    front: Runs,
    gains: Vec<u32>,
    period: u32,
    len: u32,
}

impl Model for Repeated {
    ghost use Rattle.std.specs.Prelude.{List, map};
    ghost use Rattle.std.specs.List.{range_with_len};
    ghost use Rattle.periodic_runs.specs.declared.runs.Place.{Place};
    ghost use Rattle.periodic_runs.specs.Periods.{IsRepeated, expected};

    ghost Value = { List Place };

    ghost view = { λ r. map (expected r.front r.gains.items r.period) (range_with_len 0 r.len) };

    ghost invariant = { λ r. IsRepeated r.front r.period r.len };
}

impl Repeated {
    /// No places, expected to repeat after so many.
    pub(crate) fn new(alloc: Global, period: u32) -> Repeated
        requires { 1 ≤ period }
        ensures { result ≡ [] }
    {
        Repeated {
            front: Runs::new(alloc),
            gains: Vec::new(alloc),
            period,
            len: 0,
        }
    }

    /// A place by its number.
    pub(crate) fn at(&self, number: usize) -> Place
        requires { number < length self.now }
        ensures { result ≡ slice_index_or self.now number no_place }
    {
        // A number below this fits into 32 bits.
        let _len = self.len;
        expected(&self.front, &self.gains, self.period, number as u32)
    }

    /// One place more. It takes memory where it begins a run or has a new part; where it isn't the one that the period lets expect, all places
    /// stand as runs from now on.
    pub(crate) fn push(&mut self, alloc: Global, place: Place) -> Result<(), OutOfMemory>
        requires { length self.old < 2 ^ 31 }
        ensures { OnOk result (self.new ≡ self.old ++ place ∷ []) }
    {
        if self.len < self.period {
            count(&mut self.gains, place.part)?;
            self.front.push(place)?;
            self.len += 1;
            return Ok(());
        }
        if is_same(
            expected(&self.front, &self.gains, self.period, self.len),
            place,
        ) {
            self.len += 1;
            return Ok(());
        }
        let mut all = unpacked(alloc, &self.front, &self.gains, self.period, self.len)?;
        all.push(place)?;
        self.front = all;
        self.period = NO_PERIOD;
        self.len += 1;
        Ok(())
    }
}

/// The place of a number, where the places in front repeat. It doesn't divide a number of the first period.
fn expected(front: &Runs, gains: &[u32], period: u32, number: u32) -> Place
    requires { 1 ≤ period }
    ensures { result ≡ expected front.now gains.now period number }
{
    if number < period {
        return front.at(number);
    }
    let place = front.at(number % period);
    let gain = gain_of(gains, place.part);
    Place {
        part: place.part,
        rank: place
            .rank
            .saturating_add((number / period).saturating_mul(gain)),
    }
}

/// How many places of the first period have a part.
fn gain_of(gains: &[u32], part: u32) -> u32
    ensures { result ≡ slice_index_or gains.now part 0 }
{
    if (part as usize) < gains.len() {
        gains[part as usize]
    } else {
        0
    }
}

/// Counts one place more of a part. What is expected is compared with what comes, so nothing rests on these counts.
fn count(gains: &mut Vec<u32>, part: u32) -> Result<(), OutOfMemory>
    ensures { OnOk result (slice_index_or gains.new.items part 0 ≡ capped (slice_index_or gains.old.items part 0 + 1)) }
{
    reach(gains, part)?;
    gains[part as usize] = gains[part as usize].saturating_add(1);
    Ok(())
}

/// Has a count of a part, from now on.
fn reach(gains: &mut Vec<u32>, part: u32) -> Result<(), OutOfMemory>
    ensures there { OnOk result (part < length gains.new.items) }
    ensures same { OnOk result (slice_index_or gains.new.items part 0 ≡ slice_index_or gains.old.items part 0) }
{
    if (part as usize) >= gains.len() {
        gains.resize(part as usize + 1, 0)?;
    }
    Ok(())
}

/// So many places of these that repeat, as runs.
fn unpacked(
    alloc: Global,
    front: &Runs,
    gains: &[u32],
    period: u32,
    len: u32,
) -> Result<Runs, OutOfMemory>
    requires period { 1 ≤ period }
    requires len { len ≤ 2 ^ 31 }
    ensures { IfOk result (λ all. all ≡ map (expected front.now gains.now period) (range_with_len 0 len)) }
{
    let mut all = Runs::new(alloc);
    for number in 0..len {
        all.push(expected(front, gains, period, number))?;
    }
    Ok(all)
}
