//! Assignments of scalars and of elements (Fortran 95, 7.5.1).

ghost use Rattle.std.specs.Prelude.{◌≡◌, ◌+◌, [], ◌∷◌, ◌++◌, IfOk, OnOk};
ghost use Rattle.node_code.specs.Instructions.{Set, Store, TestBounds};
ghost use Rattle.node_code.specs.Texts.{instructions};
ghost use Rattle.resolved_program.specs.Resolved.{term, terms_of};
ghost use Rattle.program_code.specs.ExpressionCode.{all_slots_of, code_of, codes_of, flat_of, flats_of};

use crate::sequences::with_last;
use expression_code::{all_slots_of, code_of, codes_of, flat_of, flats_of, joined, plus};
use hpf_base::OutOfMemory;
use node_code::Instruction;
use resolved_program::Term;
use std::alloc::Global;

/// The code that gives a slot the value of an expression.
pub(crate) fn scalar_code(
    alloc: Global,
    line: u32,
    b: usize,
    slot: usize,
    right: &Term,
) -> Result<Vec<Instruction>, OutOfMemory>
    ensures { IfOk result (λ v. instructions v.items ≡ code_of line b (term right.now) ++ Set line slot (flat_of b (term right.now)) ∷ []) }
{
    with_last(
        code_of(alloc, line, b, right)?,
        Instruction::Set {
            line,
            slot,
            value: flat_of(alloc, b, right)?,
        },
    )
}

/// The code of an assignment of an element: its bounds are tested before the right side is evaluated.
pub(crate) fn element_code(
    alloc: Global,
    line: u32,
    b: usize,
    array: usize,
    subscripts: &[Term],
    right: &Term,
) -> Result<Vec<Instruction>, OutOfMemory>
    ensures { IfOk result (λ v. instructions v.items ≡
        codes_of line b (terms_of subscripts.now) ++ TestBounds line array (flats_of b (terms_of subscripts.now))
        ∷ (code_of line (b + all_slots_of (terms_of subscripts.now)) (term right.now)
        ++ Store line array (flats_of b (terms_of subscripts.now)) (flat_of (b + all_slots_of (terms_of subscripts.now)) (term right.now)) ∷ [])) }
{
    let mut code = codes_of(alloc, line, b, subscripts)?;
    add_store(alloc, &mut code, line, b, array, subscripts, right)?;
    Ok(code)
}

/// Puts the test of the bounds, the right side and the store, after the code of the subscripts.
fn add_store(
    alloc: Global,
    code: &mut Vec<Instruction>,
    line: u32,
    b: usize,
    array: usize,
    subscripts: &[Term],
    right: &Term,
) -> Result<(), OutOfMemory>
    ensures { OnOk result (instructions code.new.items ≡ instructions code.old.items ++ TestBounds line array (flats_of b (terms_of subscripts.now))
        ∷ (code_of line (b + all_slots_of (terms_of subscripts.now)) (term right.now)
        ++ Store line array (flats_of b (terms_of subscripts.now)) (flat_of (b + all_slots_of (terms_of subscripts.now)) (term right.now)) ∷ [])) }
{
    let b1 = plus(b, all_slots_of(subscripts)?)?;
    code.push(Instruction::TestBounds {
        line,
        array,
        subscripts: flats_of(alloc, b, subscripts)?,
    })?;
    joined(code, code_of(alloc, line, b1, right)?)?;
    code.push(Instruction::Store {
        line,
        array,
        subscripts: flats_of(alloc, b, subscripts)?,
        value: flat_of(alloc, b1, right)?,
    })?;
    Ok(())
}
