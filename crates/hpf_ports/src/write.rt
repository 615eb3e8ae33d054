//! Writing all bytes to a sink.

ghost use Rattle.std.specs.Prelude.{ℕ, ◌<◌, ◌≤◌, length, take, OnOk, OnErr};
ghost use Rattle.hpf_ports.specs.Ports.{AreAppended, Rose};

use crate::sink::Sink;
use crate::source::Failed;

/// Writes all of `bytes`, in order. It answers `Failed` where a write failed, and the sink then holds what it
/// held before and a front of `bytes` that isn't all of them. It takes no memory, and no bytes need no call of
/// the sink.
pub fn write_all<O: Sink>(out: &mut O, bytes: &[u8]) -> Result<(), Failed>
    ensures ok { OnOk result (AreAppended (O.held out.old) (O.held out.new) bytes.now) }

    // A failure is answered only where the count rose, and a proper prefix was written.
    ensures failed { OnErr result (Rose (O.faults out.old) (O.faults out.new)) }
    ensures prefix { OnErr result ((n : ℕ) × (n < length bytes.now) × AreAppended (O.held out.old) (O.held out.new) (take n bytes.now)) }

    ensures count { O.faults out.old ≤ O.faults out.new }
{
    let mut done = 0;
    while done < bytes.len() {
        done += out.write(&bytes[done..])?;
    }
    Ok(())
}
