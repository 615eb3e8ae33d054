//! Lists of elements.

ghost use Rattle.std.specs.Prelude.{OnOk, map};
ghost use Rattle.storage.specs.Spots.{spot_of};
ghost use Rattle.message_elements.specs.Ascending.{Ascends};
ghost use Rattle.message_elements.specs.Elements.{OneMore, SameAmong};

use hpf_base::OutOfMemory;
use storage::Spot;

/// Adds the element to the list. Repetitions are dropped before the list grows, so that its memory goes with its elements, however often
/// they are added.
pub fn note(list: &mut Vec<Spot>, spot: Spot) -> Result<(), OutOfMemory>
    ensures { OnOk result (OneMore (spot_of spot) (map spot_of list.old.items) (map spot_of list.new.items)) }
{
    if list.len() == list.capacity() {
        make_room(list)?;
    }
    list.push(spot)?;
    Ok(())
}

/// Drops repetitions, and makes room for at least as many elements as are left.
fn make_room(list: &mut Vec<Spot>) -> Result<(), OutOfMemory>
    ensures { OnOk result (SameAmong (map spot_of list.old.items) (map spot_of list.new.items)) }
{
    arrange_list(list);
    let room = list.len() + 1;
    list.reserve(room)?;
    Ok(())
}

/// Puts the list in order, and drops repetitions.
pub fn arrange_list(list: &mut Vec<Spot>)
    ensures ascends { Ascends (map spot_of list.new.items) }
    ensures among { SameAmong (map spot_of list.old.items) (map spot_of list.new.items) }
{
    list.sort_unstable();
    list.dedup();
}
