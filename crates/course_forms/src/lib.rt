//! The courses of subscripts, computed.
//!
//! Comes in: the extents of a space, whose product is at most the limit on tuples, the slots, and selections or subscripts that are expressions
//! of indices. Goes out: their courses, and references by them: a row, its dimensions and a course for each dimension. An element whose first subscript
//! goes round its dimension, as that of a circular shift, has two.
//!
//! What holds in between: what is found is what the definitions of `courses` say. None says nothing: a subscript that may wrap or that isn't
//! linear in one index has no course, and neither has one that goes past 128 bits on the way, or an operator of three operands.
//!
//! *Proved:* The courses of subscripts, and references by them, are those of these definitions, where they are given:
//! `straight_form`, `flat_course`, `indexed_courses`, `section_courses`, `named_element`, `both_references`. None says nothing: that there
//! is a course, and that it is found, is never promised. The reference to a copy is always given: `named_copy`.
#![tactic(auto)]

mod both;
mod course;
mod indexed;
mod reference;
mod section;
mod straight;
mod turned;

pub use both::{BothReferences, both_references};
pub use course::{Course, flat_course};
pub use indexed::indexed_courses;
pub use reference::{Reference, named_copy, named_element};
pub use section::section_courses;
pub use straight::{Straight, straight_form};
