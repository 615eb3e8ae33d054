//! Values by their elements.

ghost use Rattle.std.specs.Prelude.{◌≡◌, map, pos, slice_index_or};
ghost use Rattle.machine_steps.specs.Message.{lookup};
ghost use Rattle.storage.specs.Spots.{spot_of};
ghost use Rattle.message_elements.specs.Ascending.{Ascends};

use storage::Spot;

/// The value of the element, by the elements of a message and the values that came for them, in order; 0 where it is none of them.
/// It is found by a search, since the elements stand row by row, each in array-element order.
pub fn value_in(spots: &[Spot], values: &[i64], spot: Spot) -> i64
    requires { Ascends (map spot_of spots.now) }
    ensures { result ≡ lookup (map spot_of spots.now) values.now (spot_of spot) }
{
    match spots.binary_search(&spot) {
        Ok(place) => value_at(values, place),
        Err(_) => 0,
    }
}

/// The value at the place; 0 where there is none.
fn value_at(values: &[i64], place: usize) -> i64
    ensures { result ≡ slice_index_or values.now place (pos 0) }
{
    match values.get(place) {
        Some(value) => *value,
        None => 0,
    }
}
