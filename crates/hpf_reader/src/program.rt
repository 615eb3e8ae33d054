//! Reading a text as a program.

ghost use Rattle.std.specs.Prelude.{◌≡◌, ◌≤◌, All, IfOk, IfErr, OnOk, length};
ghost use Rattle.source_lines.specs.declared.limits.TheConstants.{MAX_LOGICAL_LINE_BYTES};
ghost use Rattle.hpf_base.specs.Refusal.{IsRefusalBy, NoBreach};
ghost use Rattle.source_lines.specs.PhysicalLines.{physical_lines};
ghost use Rattle.syntax_tree.specs.MainProgram.{main_program};
ghost use Rattle.construct_rules.specs.Breaches.{IsNestBreach};
ghost use Rattle.construct_rules.specs.ProgramLine.{lines_of};
ghost use Rattle.construct_reader.specs.Formed.{IsProgram};
ghost use Rattle.construct_reader.specs.ProgramLines.{IsSpelled};
ghost use Rattle.construct_reader.specs.Views.{spelled_program};
ghost use Rattle.hpf_reader.specs.ProgramText.{HasNoBreach, IsMeantBy, IsProgramRefusal, IsProgramText, LinesBreak, lines_in};
ghost use Rattle.hpf_reader.specs.declared.source_form.SourceForm.TheVariants.{Fixed, Free};

use crate::forms::forms;
use crate::scan::scan;
use crate::source_form::SourceForm;
use construct_reader::read_nest;
use construct_rules::{ProgramLine, first_breach};
use fixed_lines::fixed_lines as fixed_logical_lines;
use hpf_base::StaticError;
use source_lines::{LogicalLines, logical_lines};
use std::alloc::Global;
use syntax_tree::Tree;

/// The tree of the one program that a text in the free source form spells (Fortran 95, 2, 3 and 3.3.1; HPF 2.0, 2.3): `read_in_form` says which.
pub fn read_program(alloc: Global, text: &[u8]) -> Result<Tree, StaticError>
    ensures read { IfOk result (λ t. IsProgramText Free text.now (spelled_program t)) }
    ensures meant { IfOk result (λ t. IsMeantBy Free text.now (main_program t)) }
    ensures fine { OnOk result (HasNoBreach Free text.now) }
    ensures refused { IfErr result (IsProgramRefusal Free text.now) }
{
    read_in_form(alloc, SourceForm::Free, text)
}

/// The tree of the one program that a text in the fixed source form spells (Fortran 95, 2, 3 and 3.3.2; HPF 2.0, 2.3): `read_in_form` says which.
pub fn read_fixed(alloc: Global, text: &[u8]) -> Result<Tree, StaticError>
    ensures read { IfOk result (λ t. IsProgramText Fixed text.now (spelled_program t)) }
    ensures meant { IfOk result (λ t. IsMeantBy Fixed text.now (main_program t)) }
    ensures fine { OnOk result (HasNoBreach Fixed text.now) }
    ensures refused { IfErr result (IsProgramRefusal Fixed text.now) }
{
    read_in_form(alloc, SourceForm::Fixed, text)
}

/// The tree of the one program that a text spells in a source form (Fortran 95, 2 and 3; HPF 2.0, 2.3). Its abstract syntax
/// is the one program that the text means.
///
/// The text is refused exactly where it has a breach: with the first one of the first stage that has any, which is that of
/// the least line and, on one line, of the least reason. The stages are:
///
/// - The lines (`BadLine`, `Limit`), as `logical_lines` says of the free form and `fixed_lines` of the fixed one.
/// - Their tokens (`BadLine`, `Limit`), as `tokens` says.
/// - Each statement (`NotAStatement`, `Limit`, `LeftOut`) and each directive (`BadDirective`, `Limit`, `LeftOut`) alone, as
///   `read_statement` and `read_directive` say.
/// - The nest (`BadNest`, `BadDirective`, `Limit`, `LeftOut`), as `first_breach` says.
///
/// `Memory` comes only where a growth was refused.
pub fn read_in_form(alloc: Global, form: SourceForm, text: &[u8]) -> Result<Tree, StaticError>
    ensures read { IfOk result (λ t. IsProgramText form text.now (spelled_program t)) }
    ensures meant { IfOk result (λ t. IsMeantBy form text.now (main_program t)) }
    ensures fine { OnOk result (HasNoBreach form text.now) }
    ensures refused { IfErr result (IsProgramRefusal form text.now) }
{
    let text_lines = match lines_in(alloc, form, text) {
        Ok(found) => found,
        Err(error) => return Err(error),
    };
    let scanned = match scan(alloc, &text_lines.lines) {
        Ok(scanned) => scanned,
        Err(error) => return Err(error),
    };
    let forms = match forms(alloc, &scanned) {
        Ok(forms) => forms,
        Err(error) => return Err(error),
    };
    match nest(alloc, text_lines.line_count, forms) {
        Ok(tree) => Ok(tree),
        Err(error) => Err(error),
    }
}

/// The logical lines of a text, and the number of its lines.
fn lines_in(alloc: Global, form: SourceForm, text: &[u8]) -> Result<LogicalLines, StaticError>
    ensures lines { IfOk result (λ found. found.lines.items ≡ lines_in form text.now) }
    ensures count { IfOk result (λ found. found.line_count ≡ length (physical_lines text.now)) }
    ensures short { IfOk result (λ found. All (λ line. length line.bytes ≤ MAX_LOGICAL_LINE_BYTES) found.lines.items) }
    ensures fine { OnOk result (NoBreach (LinesBreak form text.now)) }
    ensures refused { IfErr result (IsRefusalBy (LinesBreak form text.now)) }
{
    match form {
        SourceForm::Free => logical_lines(alloc, text),
        SourceForm::Fixed => fixed_logical_lines(alloc, text),
    }
}

/// The tree of a text whose lines are these statements and directives; `last` is the number of its last line.
fn nest(alloc: Global, last: u32, forms: Vec<ProgramLine>) -> Result<Tree, StaticError>
    ensures spelled { IfOk result (λ t. IsSpelled (lines_of forms.items) (spelled_program t)) }
    ensures formed { IfOk result (λ t. IsProgram (spelled_program t)) }
    ensures fine { OnOk result (NoBreach (IsNestBreach last (lines_of forms.items))) }
    ensures refused { IfErr result (IsRefusalBy (IsNestBreach last (lines_of forms.items))) }
{
    if let Some(refusal) = first_breach(alloc, last, &forms)? {
        return Err(StaticError::Refused(refusal));
    }
    Ok(read_nest(alloc, forms)?)
}
