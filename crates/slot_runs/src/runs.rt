//! Runs.

ghost use Rattle.std.specs.Prelude.{◌≡◌, ◌<◌, ◌^◌, ℕ, length, true, false};
ghost use Rattle.machine_steps.specs.Instr.{Running};
ghost use Rattle.node_code.specs.Texts.{instructions};
ghost use Rattle.slot_values.specs.Controls.{control_of};
ghost use Rattle.slot_runs.specs.Runs.{AreRun, IsRunOne};

use crate::instructions::run_one;
use node_code::Instruction;
use slot_values::Control;

/// How many instructions one call runs at most, so that others come to their turn.
const MOST: u32 = 4096;

/// Runs instructions of the code from where the run stands, as many as it likes: each touches no array and doesn't end the run. It takes no
/// memory.
pub fn run_known(code: &[Instruction], c: &mut Control)
    requires running { (control_of c.old).status ≡ Running }
    ensures { (count : ℕ) × AreRun (instructions code.now) count (control_of c.old) (control_of c.new) }
{
    for _ in 0..MOST {
        if !run_next(code, c) {
            return;
        }
    }
}

/// Runs the instruction at the run's place, and says whether it did; else nothing changes.
#[inline(always)]
fn run_next(code: &[Instruction], c: &mut Control) -> bool
    requires running { (control_of c.old).status ≡ Running }
    ensures run { result ≡ true → IsRunOne (instructions code.now) (control_of c.old) (control_of c.new) }
    ensures rest { result ≡ false → c.new ≡ c.old }
{
    if c.at < code.len() {
        run_one(&code[c.at], c)
    } else {
        false
    }
}
