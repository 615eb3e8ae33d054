//! The stages of a phase.

ghost use Rattle.std.specs.Prelude.{◌↔◌, IsTrue};
ghost use Rattle.node_core.specs.Stage.{IsOfStage};

use node_law::Act;

/// A stage of a phase: its local steps, then its sends, then its takes.
#[derive(Clone, Copy)]
pub enum Stage {
    Steps,
    Sends,
    Takes,
}

/// Whether the act belongs to the stage.
pub(crate) fn is_of_stage(act: Act, stage: Stage) -> bool
    ensures { IsTrue result ↔ IsOfStage stage act }
{
    match stage {
        Stage::Steps => matches!(act, Act::Local),
        Stage::Sends => matches!(act, Act::Send(_)),
        Stage::Takes => matches!(act, Act::Take(_)),
    }
}
