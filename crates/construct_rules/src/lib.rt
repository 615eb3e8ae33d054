//! From the statements and directives of a program to the first that stands where it may not.
//!
//! Comes in: the lines of a text as statements and directives, in order. Goes out: the first breach of the rules of
//! constructs, declarations and directives, if there is one. What holds in between: a rule speaks of a line, of what the
//! lines before it have opened, and of the lines after it.
//!
//! *Proved:* The first line that stands where it may not is found, exactly where there is one: `first_breach`.
#![tactic(auto)]

mod breaches;
mod limits;
mod nest_state;
mod open_constructs;
mod program_line;
mod role;
mod roles;
mod rules;

pub use breaches::first_breach;
pub use limits::MAX_NESTING;
pub use program_line::{LineContent, ProgramLine};
pub use role::{Clauses, Construct, Role};
pub use roles::role_of;
