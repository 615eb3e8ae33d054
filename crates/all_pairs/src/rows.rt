//! Rows of ends.

ghost use Rattle.std.specs.Prelude.{◌≡◌};

use pair_mailbox::{InEnd, OutEnd};
use std::marker::Model;

/// The ends at which one node sends, by the number of the target. Contracts see their list.
#[derive(Drop)]
pub struct OutRow {
    pub(crate) ends: Vec<OutEnd>,
}

impl Model for OutRow {
    ghost use Rattle.std.specs.Prelude.{List};
    ghost use Rattle.pair_mailbox.specs.Ends.{Outgoing};

    ghost Value = { List Outgoing };

    ghost view = { λ r. r.ends.items };
}

impl OutRow {
    /// The row of these ends.
    pub fn new(ends: Vec<OutEnd>) -> OutRow
        ensures { result ≡ ends.items }
    {
        OutRow { ends }
    }

    /// The ends of the row.
    pub fn into_ends(self) -> Vec<OutEnd>
        ensures { result.items ≡ self }
    {
        self.ends
    }
}

/// The ends at which one node takes, by the number of the source. Contracts see their list.
#[derive(Drop)]
pub struct InRow {
    pub(crate) ends: Vec<InEnd>,
}

impl Model for InRow {
    ghost use Rattle.std.specs.Prelude.{List};
    ghost use Rattle.pair_mailbox.specs.Ends.{Incoming};

    ghost Value = { List Incoming };

    ghost view = { λ r. r.ends.items };
}

impl InRow {
    /// The row of these ends.
    pub fn new(ends: Vec<InEnd>) -> InRow
        ensures { result ≡ ends.items }
    {
        InRow { ends }
    }

    /// The ends of the row.
    pub fn into_ends(self) -> Vec<InEnd>
        ensures { result.items ≡ self }
    {
        self.ends
    }
}
