//! Texts in the fixed source form beside texts in the free one.

use crate::draft::made;
use crate::show::write_tree;
use case_texts::write_text;
use fixed_lines::free_text;
use hpf_base::StaticError;
use hpf_reader::{read_fixed, read_program};
use std::alloc::{AllocError, Global};
use std::fmt::Write;
use syntax_tree::Tree;

/// What a text comes to: it is read, or refused for its lines, or for what stands on them.
#[derive(Clone, Copy)]
enum End {
    Read,
    BadLines,
    BadProgram,
}

/// Which ends came.
#[derive(Clone, Copy)]
struct Ends {
    read: bool,
    bad_lines: bool,
    bad_program: bool,
}

impl Ends {
    /// This end came too.
    fn note(&mut self, end: End) {
        match end {
            End::Read => self.read = true,
            End::BadLines => self.bad_lines = true,
            End::BadProgram => self.bad_program = true,
        }
    }

    /// Whether each end came.
    fn has_each(self) -> bool {
        self.read && self.bad_lines && self.bad_program
    }
}

/// Writes how many texts were made by numbers, and that each is read in fixed form as its free text is in free form; or else the first that isn't.
pub fn write_alike(alloc: Global, out: &mut String, count: usize) -> Result<(), AllocError> {
    let mut ends = Ends {
        read: false,
        bad_lines: false,
        bad_program: false,
    };
    for number in 0..count {
        let text = made(alloc, number as u64)?;
        match tried(alloc, &text)? {
            Some(end) => ends.note(end),
            None => return write_unlike(out, &text),
        }
    }
    let each = if ends.has_each() {
        "each end among them"
    } else {
        "not each end"
    };
    writeln!(out, "  texts: {count}, {each}, all alike")
}

/// Writes a text that isn't read as its free text is.
fn write_unlike(out: &mut String, text: &[u8]) -> Result<(), AllocError> {
    out.push_str("  not read as its free text is: ")?;
    write_text(out, text)?;
    out.push_str("\n")
}

/// What a text comes to, where it is read in fixed form as its free text is in free form, and refused as that can't be made.
fn tried(alloc: Global, text: &[u8]) -> Result<Option<End>, AllocError> {
    let fixed = read_fixed(alloc, text);
    match free_text(alloc, text) {
        Ok(free) => tried_free(alloc, &fixed, &free),
        Err(error) => end_of(alloc, &fixed, &Err(error), End::BadLines),
    }
}

/// What a text comes to that has a free text.
fn tried_free(
    alloc: Global,
    fixed: &Result<Tree, StaticError>,
    free: &[u8],
) -> Result<Option<End>, AllocError> {
    let program = read_program(alloc, free);
    let end = if program.is_ok() {
        End::Read
    } else {
        End::BadProgram
    };
    end_of(alloc, fixed, &program, end)
}

/// This end, where two texts have the same tree, or are refused alike.
fn end_of(
    alloc: Global,
    one: &Result<Tree, StaticError>,
    other: &Result<Tree, StaticError>,
    end: End,
) -> Result<Option<End>, AllocError> {
    if is_same(alloc, one, other)? {
        return Ok(Some(end));
    }
    Ok(None)
}

/// Whether two texts have the same tree, or are refused alike.
fn is_same(
    alloc: Global,
    one: &Result<Tree, StaticError>,
    other: &Result<Tree, StaticError>,
) -> Result<bool, AllocError> {
    let one = written(alloc, one)?;
    let other = written(alloc, other)?;
    Ok(one == other)
}

/// The tree of a text, or its refusal, as it is written.
fn written(alloc: Global, read: &Result<Tree, StaticError>) -> Result<String, AllocError> {
    if let Err(StaticError::Memory) = read {
        return Err(AllocError);
    }
    let mut out = String::new(alloc);
    write_tree(&mut out, read)?;
    Ok(out)
}
