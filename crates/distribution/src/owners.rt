//! The owner of a position.

ghost use Rattle.std.specs.Prelude.{◌≡◌, ◌<◌, ◌≤◌};
ghost use Rattle.mappings.specs.Mapping.{IsLine};
ghost use Rattle.mappings.specs.Owner.{coordinate};

use mappings::{Form, Line};

/// The coordinate, from 0, of the processor that owns the position `pos`, which is counted from 1 and at most the
/// extent (HPF 2.0, DISTRIBUTE): 0 in a dimension that isn't distributed; under BLOCK(m) one less than
/// ceil(pos / m); under CYCLIC(k) the remainder of one less than ceil(pos / k) by the number of processors; under GEN_BLOCK
/// the least for which the sizes up to and with its own have a sum that is at least `pos`.
pub fn owner(line: &Line, pos: u64) -> u32
    requires line { IsLine line.now }
    requires from { 1 ≤ pos }
    requires upto { pos ≤ line.now.extent }
    ensures value { result ≡ coordinate line.now pos }
    ensures below { result < line.now.procs }
{
    match &line.form {
        Form::Whole => 0,
        Form::Block(m) => (pos.div_ceil(*m) - 1) as u32,
        Form::Cyclic(k) => ((pos.div_ceil(*k) - 1) % line.procs as u64) as u32,
        Form::Gen(sizes) => sizes.owner(pos) as u32,
    }
}
