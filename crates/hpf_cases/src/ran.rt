//! What a run on nodes leaves.

use hpf_run::Ran;
use std::alloc::{AllocError, Global};
use std::fmt::Write;

/// A line for each queue on which letters were sent, with how many, and how many of them were left; and how many queues there are. Where
/// no run is kept it says so.
pub fn queues_text(alloc: Global, ran: &Option<Ran>) -> Result<String, AllocError> {
    let mut text = String::new(alloc);
    match ran {
        None => text.push_str("  no run is kept\n")?,
        Some(ran) => write_queues(&mut text, ran)?,
    }
    Ok(text)
}

fn write_queues(answer: &mut String, ran: &Ran) -> Result<(), AllocError> {
    for queue in ran.closed.iter() {
        if queue.sent() > 0 {
            writeln!(
                answer,
                "  {} -> {}: {} letters, {} left",
                queue.from().0,
                queue.to().0,
                queue.sent(),
                queue.left()
            )?;
        }
    }
    writeln!(answer, "  {} queues", ran.closed.len())
}
