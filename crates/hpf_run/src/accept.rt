//! Which texts are accepted.

ghost use Rattle.std.specs.Prelude.{◌≡◌, IfErr, IfOk};
ghost use Rattle.syntax_tree.specs.MainProgram.{main_program};
ghost use Rattle.hpf_run.specs.Accepted.{IsAccepted, IsError};

use accepted_program::{AcceptedProgram, accept_program};
use hpf_base::{Grid, StaticError};
use hpf_reader::{SourceForm, read_in_form};
use std::alloc::Global;

/// What a text in a source form means that is accepted on a grid. An `Err` is the first breach of the first of these stages that has one: lines, tokens,
/// statements and directives, and the nest, as `read_in_form` says; names, and ranks; mappings onto the grid; bodies, as `accept_program`
/// says. Or it is want of memory.
pub(crate) fn accept<'a>(
    alloc: Global,
    form: SourceForm,
    grid: &'a Grid,
    text: &[u8],
) -> Result<AcceptedProgram<'a>, StaticError>
    ensures accepted { IfOk result (λ a. IsAccepted form grid.now text.now (main_program a.program.tree)) }
    ensures grid { IfOk result (λ a. a.grid.now ≡ grid.now) }
    ensures refused { IfErr result (IsError form grid.now text.now) }
{
    let tree = read_in_form(alloc, form, text)?;
    let accepted = accept_program(alloc, grid, tree)?;
    Ok(accepted)
}
