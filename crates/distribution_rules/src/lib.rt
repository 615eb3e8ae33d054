//! The rules of templates, processor arrangements and distributions (HPF 2.0, 3.3, 3.6 and 3.7).
//!
//! Comes in: a program whose names are resolved, a processor grid, and its directives one by one. Goes out: the least reason for which a
//! TEMPLATE, PROCESSORS, DISTRIBUTE or REDISTRIBUTE breaks a rule, and the mapping that a distribution gives its object. What holds in
//! between: the setting has each array, template and arrangement with its dimensions, each dimension where both of its bounds are known,
//! and a distribution is judged by the values of its expressions.
//!
//! *Proved:* What PROCESSORS, TEMPLATE, DISTRIBUTE and REDISTRIBUTE say by themselves is right, or the least reason why
//! not; the mapping that a distribution gives; and that a distribution without a breach gives a valid one: `bad_space`,
//! `bad_distribution`, `bad_distributee`, `distributed`, `distributed_maps`.
#![tactic(auto)]

mod block_sizes;
mod blocks;
mod dimensions;
mod distributions;
mod evaluated_formats;
mod least_reason;
mod object_mapping;
mod objects;
mod processors;
mod program_objects;
mod promises;
mod setting;
mod spaces;

pub use distributions::{bad_distributee, bad_distribution, distribution_values};
pub use evaluated_formats::{
    DistributionValues, FormatValue, FormatValues, ProcessorExtents, Processors, SizeValues,
};
pub use least_reason::{lesser, reason_if};
pub use object_mapping::distributed;
pub use objects::{Object, ObjectDims, ObjectKind};
pub use promises::distributed_maps;
pub use setting::{Setting, dims_of, value_in};
pub use spaces::bad_space;
