//! Rounds of a prefix scan over nodes, after which every node has the values of the nodes up to it, joined: the parallel prefix by doubling
//! of Hillis and Steele, for functions such as SUM_PREFIX (HPF 2.0, 7).
//!
//! Comes in: a number of nodes, a round and a node; or a fold and the values of all nodes. Goes out: to whom the node sends in that round and
//! from whom it takes; and the values of the nodes below it, joined from the left. What holds in between: in round r node p sends what it has
//! to node p + 2^r and takes from node p - 2^r, and joins what it takes before what it has. So after k rounds it has the values of the last
//! 2^k nodes up to it, or of all of these where they are fewer, in their order, and what it took alone are those but its own.
//!
//! *Proved:* What a node sends and takes in a round: `scan_act`. In each round one node sends exactly where another takes from it. After
//! ceil(log2 N) rounds nobody sends or takes, and in each of these rounds somebody sends: `scan_acts_match`. After them each node has the
//! values of the nodes up to it, joined in the order of the nodes, and what it took alone are those of the nodes below it: `scans_fold`. The
//! plain fold of the latter: `scan_fold`.
#![tactic(auto)]

mod act;
mod fold;
mod promises;

pub use act::{ScanAct, scan_act};
pub use fold::scan_fold;
pub use hpf_base::NodeId;
pub use promises::{scan_acts_match, scans_fold};
