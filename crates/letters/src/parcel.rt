//! What is still to be sent of a phase.

use crate::body::Body;
use std::marker::Model;

/// The values that a node is to send to another.
#[derive(Drop)]
pub struct Parcel {
    /// The number of the target, from 0.
    pub to: u32,
    pub body: Body,
}

impl Model for Parcel {
    ghost use Rattle.letters.specs.Parcel.{Parcel as ParcelView};

    ghost Value = { ParcelView };

    ghost view = { λ p. record { to = p.to; body = p.body } };
}
