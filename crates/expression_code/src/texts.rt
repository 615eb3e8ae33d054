//! Code put after other code. An `Err` is want of memory here.

ghost use Rattle.std.specs.Prelude.{◌≡◌, ◌++◌, OnOk};

use hpf_base::OutOfMemory;
use node_code::Instruction;

/// Puts code after other code.
pub fn joined(code: &mut Vec<Instruction>, more: Vec<Instruction>) -> Result<(), OutOfMemory>
    ensures { OnOk result (code.new.items ≡ code.old.items ++ more.items) }
{
    for instruction in more {
        code.push(instruction)?;
    }
    Ok(())
}
