//! The door: from words and a source to a status and the bytes of standard output and standard error.
//!
//! Comes in: the words of a command line, a source, two sinks, and for what runs on nodes the runtime's threads and a gate. Goes out: a status, and of
//! a run on nodes its code and the closed queues of its letters. What holds in between: which texts are accepted is said once, for all
//! actions, and an action sees accepted texts alone; what is printed is the meaning of the text; every answer that isn't the outcome of the text
//! has a fault that was counted in this call, or is want of memory. What waits for nobody goes through a call of its own, without a runtime.
//!
//! *Proved:* The promise of the program, for each text, grid, number of threads and order of their steps
//! (docs/CLAIM.md): `hpf_top`; for jobs that wait for nobody `hpf_alone`, which has no runtime and always returns. What
//! words with `--fixed` come to over a text whose lines break no rule of that form is what the same words without it
//! come to over its text in free form, where both have at most 1,048,576 bytes: `fixed_outcomes`. The text of the bulk
//! program: `bulk_text`.
#![tactic(auto)]

mod accept;
mod actions;
mod alone;
mod answer;
mod bulk;
mod delivery;
mod form;
mod nodes;
mod promises;
mod reading;
mod reply;
mod top;

pub use alone::hpf_alone;
pub use answer::Answer;
pub use bulk::bulk_text;
pub use distributed_run::Ran;
pub use promises::fixed_outcomes;
pub use top::hpf_top;
