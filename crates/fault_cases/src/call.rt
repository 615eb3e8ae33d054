//! One call of the program, over streams in memory.

use hpf_ports::{MemSink, MemSource, OpenGate, Source};
use hpf_run::hpf_top;
use std::alloc::{AllocError, Global};
use std::sync::Wait;
use std::thread::Threads;

/// How many bytes a sink holds at most, more than what any case writes.
const ROOM: usize = 65_536;

/// How many bytes a stream gives or takes in a call at most, and the number of the call that fails, from 1; 0 where none does.
#[derive(Clone, Copy)]
pub struct Stream {
    pub piece: usize,
    pub fails: u64,
}

/// How the three streams behave.
#[derive(Clone, Copy)]
pub struct Streams {
    pub source: Stream,
    pub out: Stream,
    pub err: Stream,
}

/// What the program comes to: its status, how many bytes the source has left, and what it wrote.
#[derive(Drop)]
pub struct Answer {
    pub status: u8,
    pub left: usize,
    pub out: MemSink,
    pub err: MemSink,
}

impl Streams {
    /// Streams of which none fails.
    pub fn plain() -> Streams {
        let stream = Stream {
            piece: 4096,
            fails: 0,
        };
        Streams {
            source: stream,
            out: stream,
            err: stream,
        }
    }
}

impl Stream {
    /// The numbers of the calls that fail.
    fn numbers(self, alloc: Global) -> Result<Vec<u64>, AllocError> {
        let mut numbers = Vec::new(alloc);
        numbers.push(self.fails)?;
        Ok(numbers)
    }

    /// A source that gives a text so.
    fn source(self, alloc: Global, text: &[u8]) -> Result<MemSource, AllocError> {
        let bytes = Vec::from_slice(alloc, text)?;
        let numbers = self.numbers(alloc)?;
        Ok(MemSource::new(bytes, self.piece.max(1), numbers))
    }

    /// A sink that takes bytes so.
    fn sink(self, alloc: Global) -> Result<MemSink, AllocError> {
        let numbers = self.numbers(alloc)?;
        match MemSink::new(alloc, ROOM, self.piece.max(1), numbers) {
            Ok(sink) => Ok(sink),
            Err(_) => Err(AllocError),
        }
    }
}

/// Calls the program on words and a text.
pub fn call<R: Threads + Wait + Sync>(
    rt: &R,
    alloc: Global,
    words: &[String],
    text: &[u8],
    streams: Streams,
) -> Result<Answer, AllocError> {
    let mut src = streams.source.source(alloc, text)?;
    let mut out = streams.out.sink(alloc)?;
    let mut err = streams.err.sink(alloc)?;
    let answer = hpf_top(rt, alloc, words, &mut src, &mut out, &mut err, &OpenGate);
    Ok(Answer {
        status: answer.into_status().exit_code(),
        left: left_in(&mut src),
        out,
        err,
    })
}

/// How many bytes a source still gives. A read that fails takes nothing, and the next one goes on.
fn left_in(src: &mut impl Source) -> usize {
    let mut chunk = [0; 4096];
    let mut left = 0usize;
    for _ in 0..u64::MAX {
        match src.read(&mut chunk) {
            Ok(0) => return left,
            Ok(len) => left = left.saturating_add(len),
            Err(_) => {}
        }
    }
    left
}
