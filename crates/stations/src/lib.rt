//! Stations: the nodes of a run, each with the ends of its queues (*process endpoints*), stepped one at a time in any
//! order.
//!
//! Comes in: nodes at their openings, which number their letters. `open_stations` gives each of them its ends of the queues between all
//! ordered pairs. A step of a station is one local step of its node, one push of a letter, one pop of a letter, or nothing where the
//! node is Done. Where the node makes several local steps in one call, so does the station: that is as many steps. Goes out: once all
//! stations have ended, `close_stations` gives the last nodes and the closed queues. Where the nodes are phased, these are the last
//! nodes and the letters of their lockstep run.
//!
//! What holds in between: a station's type keeps that some moves lead from the node's opening to the node, with the letters that its ends
//! have taken, and that these moves made the letters that its ends have sent, and then the one that is kept. A letter is kept where its
//! queue was full when the node made it, and it is pushed before anything else. No step changes what `fixed` says: the station's
//! number, its opening and the queues of its ends. So whoever steps the stations between opening and closing has to keep `fixed` and
//! nothing else, and the order of the steps has no effect: that is the law of stations.
//!
//! Nothing here starts a thread. A step may wait, since a step of a queue may spin, and no clause says that a step ever moves.
//!
//! *Proved:* A station is a node with its ends and at most one letter that is made and not sent yet. Its type keeps,
//! whoever steps the others: the node is where some moves lead from its opening with the letters that its ends have
//! taken, and the letters that these moves made are those that its ends have sent, and then the one that is kept. A
//! step is one local step, one push or one pop, or none where a push or a pop was refused: `Station::step`. Several
//! local steps in one call are moves like others: `Station::run_local`. Stations of phased nodes that have all ended
//! have the last nodes of the lockstep run, and on each queue exactly the letters of that run were sent, in order, and
//! taken: `law_of_stations`, `open_stations`, `close_stations`. Not that a step ever moves, nor that a run ends.
#![tactic(auto)]

mod closing;
mod opening;
mod promises;
mod station;

pub use closing::{all_ended, close_stations};
pub use hpf_base::{NodeId, OutOfMemory};
pub use letters::{Body, Letter};
pub use node_law::{Act, LocalRuns, PhasedNode, Stepped};
pub use opening::open_stations;
pub use pair_mailbox::{Closed, InEnd, OutEnd};
pub use promises::law_of_stations;
pub use station::{Kept, Station};
