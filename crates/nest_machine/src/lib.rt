//! The machine over the code of an INDEPENDENT nest: it ends as the parted order of the nest's acts over copies does.
//!
//! Comes in: the machine with whole arrays (`machine_steps`), the nest taken apart (`nest_order`), and the fault that is kept of parallel
//! statements (`node_run`). Texts of assignments and conditions are of any type, with what they read, come to and assign by the slots, the
//! iteration and the values; so are instructions, with what they mean. There is no program here and no function.
//! Goes out, in `specs/`: bodies of nests, their code by what its instructions mean, and the slots that it leaves; and laws, each the
//! contract of a function that does nothing.
//!
//! Code of a nest makes a copy for each iteration of each scalar that the nest assigns, and a row of marks for each of these that is no
//! REDUCTION variable: a mark is set where the iteration assigns the scalar. Then the body runs at all iterations at once, each text as a
//! parallel statement where its stored conditions are as asked; inner loops run as loops of the machine. The Verdict ends the run with the
//! first fault, and after it scalars get their values from their copies.
//!
//! What holds in between, from the bottom up:
//!
//! - `Slots`, `Trace`: what code does, as lists without places: the slots don't depend on rows, and the machine's rows are those that the
//!   trace makes (`bodies_run`).
//! - `ItemsAt`: a body at an iteration is statements of `nest_order`, with the slots that the machine has where each stands.
//! - `Placed`: the rows of the nest's storage lie at places among the machine's rows, since the copies of a scalar don't lie where its name
//!   does. After a body the machine has the rows of the parted order, each at its place, and keeps the fault of the least key
//!   (`bodies_are_parted`).
//! - `PlacedEnds`: the same with the copies before and the scalars after it (`nests_run`).
//! - `example`: a small nest that meets the premises, and what the law says of it.
//!
//! *Proved:* By laws alone. The machine over the code of a nest's body does what its trace says: `bodies_run`. A body
//! over the machine's rows is the parted order of its items over the nest's rows, each at its place:
//! `bodies_are_parted`. So the machine over the code of a nest comes after it with the values of the parted order, or
//! ends with the fault of the least key: `nests_run`. A small nest meets the premises: `example_meets`, `example_runs`.
#![tactic(auto)]

mod example;
mod promises;

pub use example::{example_meets, example_runs};
pub use promises::{bodies_are_parted, bodies_run, nests_run};
