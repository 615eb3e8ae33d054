//! The statement of a case.

use crate::words::{line_of, row_of};
use course_forms::{Course, Reference, named_element};
use expression_rules::Dims;
use std::alloc::Global;

/// The extents of a space; what is assigned at its tuples, and after it what is read there; and whether all lines were well.
#[derive(Drop)]
pub struct Statement {
    pub extents: Vec<u64>,
    pub references: Vec<Reference>,
    pub is_well: bool,
}

/// That of these lines, over arrays with these dimensions.
pub fn statement_of(alloc: Global, case: &[String], shapes: &[Dims]) -> Statement {
    let mut extents = Vec::new(alloc);
    let mut references = Vec::new(alloc);
    let has_space = add_extents(&mut extents, line_of(case, "over"));
    let has_left = add_reference(alloc, &mut references, shapes, line_of(case, "left"));
    let has_reads = add_reads(alloc, &mut references, shapes, case);
    Statement {
        extents,
        references,
        is_well: has_space & has_left & has_reads,
    }
}

/// Adds the numbers of a line, and says whether it could, here and below.
fn add_extents(extents: &mut Vec<u64>, line: &str) -> bool {
    for word in line.split(' ') {
        match word.parse::<u64>() {
            Ok(extent) => {
                if extents.push(extent).is_err() {
                    return false;
                }
            }
            Err(_) => return false,
        }
    }
    true
}

/// Adds what the case reads.
fn add_reads(
    alloc: Global,
    references: &mut Vec<Reference>,
    shapes: &[Dims],
    case: &[String],
) -> bool {
    for line in case {
        if let Some(("read", rest)) = line.as_str().split_once(' ') {
            if !add_reference(alloc, references, shapes, rest) {
                return false;
            }
        }
    }
    true
}

/// Adds the reference that is written so: an array, and a course for each dimension.
fn add_reference(
    alloc: Global,
    references: &mut Vec<Reference>,
    shapes: &[Dims],
    written: &str,
) -> bool {
    let (name, rest) = written.split_once(' ').unwrap_or((written, ""));
    let mut courses = Vec::new(alloc);
    let are_well = add_courses(&mut courses, rest);
    match row_of(name) {
        Some(array) => match named_element(alloc, shapes, array, courses) {
            Ok(Some(reference)) => references.push(reference).is_ok() & are_well,
            _ => false,
        },
        None => false,
    }
}

/// Adds the courses that are written so.
fn add_courses(courses: &mut Vec<Course>, written: &str) -> bool {
    for word in written.split(' ') {
        match course_of(word) {
            Some(course) => {
                if courses.push(course).is_err() {
                    return false;
                }
            }
            None => return false,
        }
    }
    true
}

/// The course that is written so.
fn course_of(word: &str) -> Option<Course> {
    if let Some(at) = word.strip_prefix('f') {
        return Some(Course::Fixed(at.parse::<i64>().ok()?));
    }
    let (axis, line) = word.strip_prefix('m')?.split_once(':')?;
    let (first, step) = line.split_once(':')?;
    Some(Course::Moving {
        axis: axis.parse::<usize>().ok()?,
        first: first.parse::<i64>().ok()?,
        step: step.parse::<i64>().ok()?,
    })
}
