//! The header of a FORALL (Fortran 95, 7.5.4.1), as the subscripts of a section of its space.

ghost use Rattle.std.specs.Prelude.{◌≡◌, ◌+◌, [], ◌∷◌, ◌++◌, IfOk, OnOk, map};
ghost use Rattle.node_code.specs.Instructions.{TestStride};
ghost use Rattle.node_code.specs.Texts.{instructions, subs};
ghost use Rattle.resolved_program.specs.Resolved.{control};
ghost use Rattle.program_code.specs.ExpressionCode.{control_code, control_slots, subs_of, subscripts_code, subscripts_slots};
ghost use Rattle.program_code.specs.StatementCode.{triplets};

use expression_code::{control_code, control_slots, joined, plus};
use hpf_base::OutOfMemory;
use node_code::{Instruction, Sub};
use resolved_program::Control;
use std::alloc::Global;

/// How many slots the code of a header takes.
pub(crate) fn header_slots(controls: &[Control]) -> Result<usize, OutOfMemory>
    ensures { IfOk result (λ n. n ≡ subscripts_slots (triplets (map control controls.now))) }
{
    let mut sum = 0;
    for c in controls {
        sum = plus(sum, plus(control_slots(c)?, 3)?)?;
    }
    Ok(sum)
}

/// The indices of a header.
pub(crate) fn header_subs(
    alloc: Global,
    b: usize,
    controls: &[Control],
) -> Result<Vec<Sub>, OutOfMemory>
    ensures { IfOk result (λ ds. subs ds.items ≡ subs_of b (triplets (map control controls.now))) }
{
    let mut over = Vec::new(alloc);
    let mut at = b;
    for c in controls {
        let first = plus(at, control_slots(c)?)?;
        over.push(Sub::Along(first))?;
        at = plus(first, 3)?;
    }
    Ok(over)
}

/// Puts the code of a header.
pub(crate) fn add_header(
    alloc: Global,
    code: &mut Vec<Instruction>,
    line: u32,
    b: usize,
    controls: &[Control],
) -> Result<(), OutOfMemory>
    ensures { OnOk result (instructions code.new.items ≡ instructions code.old.items ++ subscripts_code line b (triplets (map control controls.now))) }
{
    let mut at = b;
    for c in controls {
        add_index(alloc, code, line, at, c)?;
        at = plus(plus(at, control_slots(c)?)?, 3)?;
    }
    Ok(())
}

/// Puts the code of an index: a step of 0 is a fault where it stands.
fn add_index(
    alloc: Global,
    code: &mut Vec<Instruction>,
    line: u32,
    b: usize,
    c: &Control,
) -> Result<(), OutOfMemory>
    ensures { OnOk result (instructions code.new.items ≡ instructions code.old.items
        ++ (control_code line b (control c.now) ++ TestStride line (b + control_slots (control c.now) + 2) ∷ [])) }
{
    let slot = plus(plus(b, control_slots(c)?)?, 2)?;
    joined(code, control_code(alloc, line, b, c)?)?;
    code.push(Instruction::TestStride { line, slot })?;
    Ok(())
}
