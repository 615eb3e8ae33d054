//! How sources and sinks behave.

use hpf_ports::{MemSink, MemSource};
use std::alloc::{AllocError, Global};

/// How a source or a sink behaves.
#[derive(Drop)]
pub struct Stream {
    /// How many bytes a sink holds at most.
    pub room: usize,
    /// How many bytes are given or taken in a call at most.
    pub piece: usize,
    /// The numbers of the calls that fail, from 1.
    pub fails: Vec<u64>,
}

/// What a number says.
#[derive(Clone, Copy)]
enum Field {
    Room,
    Piece,
    Fails,
}

/// What the numbers after a word say; None after any other word.
fn field_of(word: &str) -> Option<Field> {
    match word {
        "room" => Some(Field::Room),
        "piece" => Some(Field::Piece),
        "fails" => Some(Field::Fails),
        _ => None,
    }
}

impl Stream {
    /// A stream that doesn't fail, with room and pieces that are larger than what most cases need.
    pub fn new(alloc: Global) -> Stream {
        Stream {
            room: 65536,
            piece: 4096,
            fails: Vec::new(alloc),
        }
    }

    /// A source that gives these bytes so.
    pub fn source(self, bytes: Vec<u8>) -> MemSource {
        MemSource::new(bytes, self.piece.max(1), self.fails)
    }

    /// A sink that takes bytes so.
    pub fn sink(self, alloc: Global) -> Result<MemSink, AllocError> {
        match MemSink::new(alloc, self.room, self.piece.max(1), self.fails) {
            Ok(sink) => Ok(sink),
            Err(_) => Err(AllocError),
        }
    }

    /// Takes up what a line says: words, each with its numbers after it. Other words are passed over.
    pub fn set(&mut self, written: &str) -> Result<(), AllocError> {
        let mut field = None;
        for word in written.split(' ') {
            match word.parse::<u64>() {
                Ok(number) => self.set_one(field, number)?,
                Err(_) => field = field_of(word),
            }
        }
        Ok(())
    }

    fn set_one(&mut self, field: Option<Field>, number: u64) -> Result<(), AllocError> {
        match field {
            Some(Field::Room) => self.room = number as usize,
            Some(Field::Piece) => self.piece = number as usize,
            Some(Field::Fails) => self.fails.push(number)?,
            None => {}
        }
        Ok(())
    }
}
