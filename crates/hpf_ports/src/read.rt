//! Reading a source to its end.

ghost use Rattle.std.specs.Prelude.{◌≡◌, ◌≢◌, ◌+◌, ◌<◌, ◌≤◌, List, ◌++◌, ℕ, length, take, IfOk, IsErrOf, OnErr, vec_len};
ghost use Rattle.hpf_ports.specs.Ports.{Gave, IsAtEnd, Rose};

use crate::limits::MAX_SOURCE_BYTES;
use crate::source::{Failed, Source};
use std::alloc::{AllocError, Global};
use thiserror::Error;

// The most bytes that one call of a source is asked for.
const CHUNK: usize = 65_536;

/// Why a source was not read to its end.
#[derive(Clone, Copy, Debug, PartialEq, Eq, Error)]
pub enum ReadAll {
    /// A read of the source failed.
    #[error("read fault")]
    Fault,
    /// The source has more than `MAX_SOURCE_BYTES` bytes.
    #[error("source too long")]
    TooLong,
    /// A growth was refused.
    #[error("out of memory")]
    Memory,
}

/// Reads the source to its end, and answers its bytes in their order. It takes at most one byte past
/// `MAX_SOURCE_BYTES`, and answers `TooLong` where it took that byte. It answers `Fault` where a read failed,
/// and `Memory` where a growth was refused; in both cases what it took before is lost to the caller, and is
/// no longer than `MAX_SOURCE_BYTES`.
pub fn read_all<S: Source>(alloc: Global, src: &mut S) -> Result<Vec<u8>, ReadAll>
    // All that was left, and no more is.
    ensures whole { IfOk result (λ text. Gave (S.left src.old) (S.left src.new) text.items) }
    ensures end { IfOk result (λ text. IsAtEnd (S.left src.new)) }
    ensures short { IfOk result (λ text. length text.items ≤ MAX_SOURCE_BYTES) }

    // A fault is answered only where the count rose, and `TooLong` exactly where a byte past the limit was taken.
    ensures fault { IsErrOf result ReadAll.Fault → Rose (S.faults src.old) (S.faults src.new) }
    ensures too_long { IsErrOf result ReadAll.TooLong
        → (bytes : List ℕ) × (length bytes ≡ MAX_SOURCE_BYTES + 1) × Gave (S.left src.old) (S.left src.new) bytes }
    ensures in_time { OnErr result (result ≢ Err ReadAll.TooLong
        → (bytes : List ℕ) × (length bytes ≤ MAX_SOURCE_BYTES) × Gave (S.left src.old) (S.left src.new) bytes) }

    ensures count { S.faults src.old ≤ S.faults src.new }
{
    let mut chunk = match zeroed_chunk(alloc) {
        Ok(chunk) => chunk,
        Err(_) => return Err(ReadAll::Memory),
    };
    let mut text = Vec::new(alloc);
    while text.len() <= MAX_SOURCE_BYTES {
        match read_piece(src, chunk.as_mut_slice(), &mut text) {
            Ok(0) => return Ok(text),
            Ok(_) => {}
            Err(error) => return Err(error),
        }
    }
    Err(ReadAll::TooLong)
}

// A buffer for the bytes of one call.
fn zeroed_chunk(alloc: Global) -> Result<Vec<u8>, AllocError>
    ensures { IfOk result (λ chunk. vec_len chunk ≡ CHUNK) }
{
    vec![in alloc; 0; CHUNK]
}

// Reads the source's next bytes after `text`, at most up to one byte past `MAX_SOURCE_BYTES`, and answers how
// many. The room is made before the read, so that an error has taken nothing.
fn read_piece<S: Source>(
    src: &mut S,
    chunk: &mut [u8],
    text: &mut Vec<u8>,
) -> Result<usize, ReadAll>
    requires some { 0 < length chunk.old }
    requires short { vec_len text.old ≤ MAX_SOURCE_BYTES }
    ensures fits { IfOk result (λ n. n ≤ length chunk.new) }
    ensures gave { IfOk result (λ n. Gave (S.left src.old) (S.left src.new) (take n chunk.new)) }
    ensures text { IfOk result (λ n. text.new.items ≡ text.old.items ++ take n chunk.new) }
    ensures limit { IfOk result (λ n. vec_len text.old + n ≤ MAX_SOURCE_BYTES + 1) }
    ensures end { IfOk result (λ n. n ≡ 0 → IsAtEnd (S.left src.old)) }
    ensures stays { OnErr result (S.left src.new ≡ S.left src.old) }
    ensures fault { IsErrOf result ReadAll.Fault → Rose (S.faults src.old) (S.faults src.new) }
    ensures in_time { result ≢ Err ReadAll.TooLong }
    ensures count { S.faults src.old ≤ S.faults src.new }
{
    let most = chunk.len().min(MAX_SOURCE_BYTES + 1 - text.len());
    match text.reserve(most) {
        Ok(()) => {}
        Err(_) => return Err(ReadAll::Memory),
    }
    match src.read(&mut chunk[..most]) {
        Ok(len) => {
            text.extend_from_slice(&chunk[..len]).unwrap();
            Ok(len)
        }
        Err(Failed) => Err(ReadAll::Fault),
    }
}
