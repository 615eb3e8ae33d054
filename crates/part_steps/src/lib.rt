//! What a node does in the message phase of a part: of a parallel statement, a reduction, or a section that is printed.
//!
//! Comes in: a statement once the slots are known, the tables of owners, a node's number and its pieces, and the values received. Goes
//! out: what the node sends and from whom it takes, and after the phase what is stored, the fault that is kept, the values joined, or the
//! values of a section.
//!
//! What holds in between: what the node exchanges is found first (`exchange_of`), by asking the tuples that it computes and those at its
//! border where what the statement names tells them axis by axis (`visiting`), and else all tuples; all else goes by what was found:
//! values are asked of the tuples alone that the node computes; all values are taken before any is stored, so that want of
//! memory leaves a node as it was; what is stored at last takes no memory. What a node exchanges for an instruction is kept from one run of
//! it to the next (`KeptExchanges`): it depends on the slots that the instruction mentions and on no others, so where these are the same and
//! the rows lie alike, it is the same. What its copies lie beside counts as mentioned.
//!
//! Words of the field: tuples are iterations, and which node computes an iteration is told by the *owner-computes*
//! rule: in an assignment the owners of the element that is assigned, in a reduction the least owner of the first
//! element that is read (`Who`). `exchange_of` is the *inspector* of a part, which finds what to send and to take, and
//! what goes by its answer is the *executor*; `KeptExchanges` keeps what the inspector found.
//!
//! *Proved:* What a node sends and takes in a message phase, what it stores, which fault it keeps, and what it joins:
//! `exchange_of`, `outbox`, `inbox`, `par_values`, `reduce_values`, `section_values`. What it exchanges for an
//! instruction is what it exchanged before, where the slots agree on all that the instruction mentions and the rows lie
//! as before; so it may be kept, and what is found is right; that anything is found is never promised: `same_parts`,
//! `agrees`, `KeptExchanges::keep`, `KeptExchanges::find`. By such slots its copies lie beside the same: `same_anchors`.
#![tactic(auto)]

mod agreement;
mod computing;
mod gathered;
mod kept_exchange;
mod kept_exchanges;
mod lines;
mod making;
mod opening;
mod parallel;
mod part;
mod promises;
mod reductions;
mod sections;
mod stores;
mod strips;
mod values;
mod visiting;
mod who;

pub use agreement::agrees;
pub use kept_exchanges::KeptExchanges;
pub use opening::{exchange_of, inbox, outbox};
pub use parallel::{ParValues, par_values};
pub use part::Part;
pub use promises::{same_anchors, same_parts};
pub use reductions::{ReduceValues, reduce_values};
pub use sections::section_values;
pub use stores::Stores;
pub use who::Who;
