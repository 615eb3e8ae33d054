//! Letters.

use crate::body::Body;
use hpf_base::NodeId;

/// What one node sends to another in one phase of one run.
#[derive(Drop)]
pub struct Letter {
    /// The run.
    pub run: u64,
    /// The phase, from 1, modulo 2^64.
    pub phase: u64,
    /// The source.
    pub from: NodeId,
    /// The target.
    pub to: NodeId,
    /// Which letter of the pair it is in this run, from 1, modulo 2^64.
    pub number: u64,
    /// Its values.
    pub body: Body,
}
