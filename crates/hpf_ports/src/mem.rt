//! Sources and sinks over memory, for tests: they give and take in pieces, and fail where they are told to.

ghost use Rattle.std.specs.Prelude.{◌≡◌, ◌<◌, ◌≤◌, [], length, take, drop, min, Some, IsErr, IsOk, is_err, IfOk, OnOk, OnErr, vec_capacity};
ghost use Rattle.hpf_ports.specs.Ports.{Gave, IsAtEnd, Rose, AreAppended, next_count};
ghost use Rattle.hpf_ports.specs.Mem.{SourceState, SinkState, read_fails, write_fails, read_len, write_len};

use crate::sink::Sink;
use crate::source::{Failed, Source};
use hpf_base::OutOfMemory;
use std::alloc::Global;
use std::marker::Model;

/// A source that gives bytes from memory, at most a piece a call, and fails at chosen calls. The counts of its
/// calls and its faults stand once they have come to the greatest 64-bit number.
#[derive(Drop)]
pub struct MemSource {
    bytes: Vec<u8>,
    // how many of the bytes were given
    given: usize,
    piece: usize,
    fails: Vec<u64>,
    calls: u64,
    faults: u64,
}

impl Model for MemSource {
    ghost Value = { SourceState };

    ghost view = { λ s. record { left = drop s.given s.bytes.items; piece = s.piece; fails = s.fails.items; calls = s.calls; faults = s.faults } };

    ghost invariant = { λ s. (s.given ≤ length s.bytes.items) × (0 < s.piece) };
}

impl MemSource {
    /// A source that has all of `bytes` left, gives at most `piece` bytes a call, and fails at the calls
    /// whose numbers, counted from 1, stand in `fails`. It takes no memory.
    pub fn new(bytes: Vec<u8>, piece: usize, fails: Vec<u64>) -> MemSource
        requires { 0 < piece }
        ensures left { result.left ≡ bytes.items }
        ensures piece { result.piece ≡ piece }
        ensures fails { result.fails ≡ fails.items }
        ensures calls { result.calls ≡ 0 }
        ensures faults { result.faults ≡ 0 }
    {
        MemSource {
            bytes,
            given: 0,
            piece,
            fails,
            calls: 0,
            faults: 0,
        }
    }
}

impl Source for MemSource {
    ghost left = { λ s. Some s.left };

    ghost faults = { λ s. s.faults };

    /// Reads the next bytes: a piece, as far as the buffer and what is left go.
    fn read(&mut self, buf: &mut [u8]) -> Result<usize, Failed>
        requires { 0 < length buf.old }
        ensures fits { IfOk result (λ n. n ≤ length buf.new) }
        ensures gave { IfOk result (λ n. Gave (Some self.old.left) (Some self.new.left) (take n buf.new)) }
        ensures end { IfOk result (λ n. n ≡ 0 → IsAtEnd (Some self.old.left)) }
        ensures failed { OnErr result (Rose self.old.faults self.new.faults) }
        ensures stays { OnErr result (Some self.new.left ≡ Some self.old.left) }
        ensures count { self.old.faults ≤ self.new.faults }

        // When it fails, and how many bytes it gives.
        ensures fails { is_err result ≡ read_fails self.old }
        ensures never { self.old.fails ≡ [] → IsOk result }
        ensures len { IfOk result (λ n. n ≡ read_len self.old (length buf.old)) }

        // The counts. What was chosen stays.
        ensures calls { self.new.calls ≡ next_count self.old.calls }
        ensures raised { OnErr result (self.new.faults ≡ next_count self.old.faults) }
        ensures same_faults { OnOk result (self.new.faults ≡ self.old.faults) }
        ensures same_piece { self.new.piece ≡ self.old.piece }
        ensures same_fails { self.new.fails ≡ self.old.fails }
    {
        self.calls = self.calls.saturating_add(1);
        if self.fails.as_slice().contains(&self.calls) {
            self.faults = self.faults.saturating_add(1);
            return Err(Failed);
        }
        let rest = &self.bytes.as_slice()[self.given..];
        let len = self.piece.min(buf.len()).min(rest.len());
        buf[..len].copy_from_slice(&rest[..len]);
        self.given += len;
        Ok(len)
    }
}

/// A sink that holds bytes in memory, takes at most a piece a call and never more than its room, and fails
/// at chosen calls and where no room is left. Its counts stand as those of a `MemSource` do.
#[derive(Drop)]
pub struct MemSink {
    bytes: Vec<u8>,
    room: usize,
    piece: usize,
    fails: Vec<u64>,
    calls: u64,
    faults: u64,
}

impl Model for MemSink {
    ghost Value = { SinkState };

    ghost view = { λ s. record { held = s.bytes.items; room = s.room; piece = s.piece; fails = s.fails.items; calls = s.calls; faults = s.faults } };

    ghost invariant = { λ s. (length s.bytes.items ≤ s.room) × (s.room ≤ vec_capacity s.bytes) × (0 < s.piece) };
}

impl MemSink {
    /// A sink that holds nothing, with room for `room` bytes. It takes at most `piece` bytes a call, and
    /// fails at the calls whose numbers, counted from 1, stand in `fails`, and where no room is left.
    /// The memory for the whole room is taken here, and `OutOfMemory` is answered where it is refused.
    pub fn new(
        alloc: Global,
        room: usize,
        piece: usize,
        fails: Vec<u64>,
    ) -> Result<MemSink, OutOfMemory>
        requires { 0 < piece }
        ensures held { IfOk result (λ sink. sink.held ≡ []) }
        ensures room { IfOk result (λ sink. sink.room ≡ room) }
        ensures piece { IfOk result (λ sink. sink.piece ≡ piece) }
        ensures fails { IfOk result (λ sink. sink.fails ≡ fails.items) }
        ensures calls { IfOk result (λ sink. sink.calls ≡ 0) }
        ensures faults { IfOk result (λ sink. sink.faults ≡ 0) }
    {
        let bytes = Vec::with_capacity(alloc, room)?;
        Ok(MemSink {
            bytes,
            room,
            piece,
            fails,
            calls: 0,
            faults: 0,
        })
    }

    /// The bytes that it holds, in the order in which they were written.
    pub fn bytes(&self) -> &[u8]
        ensures { result.now ≡ self.now.held }
    {
        self.bytes.as_slice()
    }
}

impl Sink for MemSink {
    ghost held = { λ s. Some s.held };

    ghost faults = { λ s. s.faults };

    /// Takes the first bytes: a piece, as far as they and the room go. It takes no memory.
    fn write(&mut self, bytes: &[u8]) -> Result<usize, Failed>
        requires { 0 < length bytes.now }
        ensures some { IfOk result (λ n. 0 < n) }
        ensures fits { IfOk result (λ n. n ≤ length bytes.now) }
        ensures took { IfOk result (λ n. AreAppended (Some self.old.held) (Some self.new.held) (take n bytes.now)) }
        ensures failed { OnErr result (Rose self.old.faults self.new.faults) }
        ensures stays { OnErr result (Some self.new.held ≡ Some self.old.held) }
        ensures count { self.old.faults ≤ self.new.faults }

        // When it fails, and how many bytes it takes.
        ensures fails { is_err result ≡ write_fails self.old }
        ensures only_full { self.old.fails ≡ [] → IsErr result → self.old.room ≤ length self.old.held }
        ensures len { IfOk result (λ n. n ≡ write_len self.old (length bytes.now)) }

        // The counts. What was chosen stays.
        ensures calls { self.new.calls ≡ next_count self.old.calls }
        ensures raised { OnErr result (self.new.faults ≡ next_count self.old.faults) }
        ensures same_faults { OnOk result (self.new.faults ≡ self.old.faults) }
        ensures same_room { self.new.room ≡ self.old.room }
        ensures same_piece { self.new.piece ≡ self.old.piece }
        ensures same_fails { self.new.fails ≡ self.old.fails }
    {
        self.calls = self.calls.saturating_add(1);
        let room = self.room - self.bytes.len();
        if self.fails.as_slice().contains(&self.calls) || room == 0 {
            self.faults = self.faults.saturating_add(1);
            return Err(Failed);
        }
        let len = self.piece.min(bytes.len()).min(room);
        self.bytes.extend_from_slice(&bytes[..len]).unwrap();
        Ok(len)
    }
}
