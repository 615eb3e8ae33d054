//! Elements of lines.

ghost use Rattle.std.specs.Prelude.{◌≡◌, ◌+◌, ◌-◌, ◌*◌, ◌^◌, ◌<◌, true};
ghost use Rattle.storage.specs.Spots.{spot_of};
ghost use Rattle.tuple_values.specs.Strips.{line_spot};

use comm_sets::Spot;
use tuple_values::ElementLine;

/// The element of a line at a place.
pub(crate) fn spot_in(line: ElementLine, place: usize) -> Spot
    requires { line.first.at + place * line.step < 2 ^ 64 }
    ensures { spot_of result ≡ line_spot line place }
{
    Spot {
        row: line.first.row,
        at: line.first.at + place * line.step,
    }
}

/// Whether the positions of so many elements of a line are numbers of 64 bits.
pub(crate) fn is_near(line: ElementLine, count: usize) -> bool
    ensures { result ≡ true → line.first.at + (count - 1) * line.step < 2 ^ 64 }
{
    let places = count.saturating_sub(1);
    match places.checked_mul(line.step) {
        None => false,
        Some(way) => line.first.at.checked_add(way).is_some(),
    }
}
