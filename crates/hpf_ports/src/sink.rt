//! Where bytes go.

ghost use Rattle.std.specs.Prelude.{◌≡◌, ℕ, ◌<◌, ◌≤◌, List, length, take, Option, IfOk, OnErr};
ghost use Rattle.hpf_ports.specs.Ports.{AreAppended, Rose};

use crate::source::Failed;

/// A sink for bytes, written from front to end.
pub trait Sink {
    /// The bytes that it holds, where the sink tells them.
    ghost held: { Self → Option (List ℕ) };

    /// How many writes failed so far. The count stands once it has come to the greatest 64-bit number.
    ghost faults: { Self → ℕ };

    /// Writes the first bytes of `bytes`, at least one, and answers how many.
    fn write(&mut self, bytes: &[u8]) -> Result<usize, Failed>
        requires { 0 < length bytes.now }
        ensures some { IfOk result (λ n. 0 < n) }
        ensures fits { IfOk result (λ n. n ≤ length bytes.now) }
        ensures took { IfOk result (λ n. AreAppended (held self.old) (held self.new) (take n bytes.now)) }

        // A failure has raised the count and written nothing.
        ensures failed { OnErr result (Rose (faults self.old) (faults self.new)) }
        ensures stays { OnErr result (held self.new ≡ held self.old) }

        ensures count { faults self.old ≤ faults self.new };
}
