//! The expressions in the bodies of FORALL and of INDEPENDENT loops, and the forms of their subscripts.
//!
//! Comes in: the expressions of statements, and what the names in a body stand for. Goes out: whether each of them, with all that is
//! inside it, passes a test, and whether subscripts are linear in at most one index. What holds in between: an expression is judged by all
//! expressions inside it, one by one.
//!
//! *Proved:* Whether all that is inside an expression, a list or a header passes a test, for any test of single
//! expressions: `all_pass`, `headers_pass` and the other walks. Whether each subscript of a reference is linear in at
//! most one index, and whether an expression has no index, are those of the definitions: `has_linear_subscripts`,
//! `is_without_index`.
#![tactic(auto)]

mod body_names;
mod expression_lists;
mod linear_forms;
mod subexpressions;

pub use body_names::BodyNames;
pub use expression_lists::{
    axis_passes, formats_pass, headers_pass, items_pass, option_passes, sides_pass,
};
pub use linear_forms::{has_linear_subscripts, is_without_index};
pub use subexpressions::{ExpressionTest, all_pass, all_pass_subscripts};
