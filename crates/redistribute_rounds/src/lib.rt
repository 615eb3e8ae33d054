//! The rounds of a redistribution: in which order the pairs of nodes exchange their letters.
//!
//! Comes in: the number of nodes, and the ordered pairs of nodes of which the first sends to the second. Goes out: the
//! pairs in rounds, and the node that needs so many. What holds in between: each pair stands in exactly one round, in a
//! round a node sends at most one letter and takes at most one, and no rounds of which this holds are fewer. The pairs of
//! a round are those of one colour, by the colours of `round_color`.
//!
//! *Proved:* Pairs of nodes are put into rounds, in which each node sends once at most and takes once at most. There
//! are as many as the busiest node sends, or takes, which is named: `rounds`. No such rounds are fewer:
//! `law_of_fewest_rounds`. None is empty: `law_of_full_rounds`.
#![tactic(auto)]

mod color_rounds;
mod promises;
mod round_list;

pub use color_rounds::rounds;
pub use hpf_base::{NodeId, OutOfMemory};
pub use letters::Pair;
pub use promises::{law_of_fewest_rounds, law_of_full_rounds, law_of_legal_rounds};
pub use round_list::Rounds;
