//! What a call of the program answers.

ghost use Rattle.std.specs.Prelude.{◌≡◌};

use distributed_run::Ran;
use hpf_base::Status;

/// The status of a call, and what a run on nodes leaves: that is there exactly where the action is `run` or `bulk` and the status is `Done` or
/// `Fault`.
#[derive(Drop)]
pub struct Answer {
    pub status: Status,
    pub ran: Option<Ran>,
}

impl Answer {
    /// The status alone. What a run on nodes leaves is dropped. It takes no memory.
    pub fn into_status(self) -> Status
        ensures { result ≡ self.status }
    {
        self.status
    }
}
