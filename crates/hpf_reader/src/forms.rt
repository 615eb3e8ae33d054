//! The statements and directives of all lines.

ghost use Rattle.std.specs.Prelude.{◌≡◌, IfErr, IfNone, IfOk, OnOk};
ghost use Rattle.hpf_base.specs.FirstBreach.{IsFirstOrNone};
ghost use Rattle.hpf_base.specs.Refusal.{IsRefusalBy, NoBreach};
ghost use Rattle.construct_rules.specs.ProgramLine.{line_of, lines_of};
ghost use Rattle.hpf_reader.specs.OneMore.{IsRead};
ghost use Rattle.hpf_reader.specs.ProgramText.{AreLinesOf, FormBreaks, FormsBreak, IsLineOf};

use crate::scan::TokenLine;
use construct_rules::{LineContent, ProgramLine};
use directive_reader::read_directive;
use hpf_base::{Refusal, StaticError, earlier};
use source_lines::LineKind;
use statement_reader::read_statement;
use std::alloc::{AllocError, Global};

/// The statement or the directive that a line is.
fn form(alloc: Global, line: &TokenLine) -> Result<ProgramLine, StaticError>
    ensures read { IfOk result (λ s. IsLineOf line.now (line_of s)) }
    ensures fine { OnOk result (NoBreach (FormBreaks line.now)) }
    ensures refused { IfErr result (IsRefusalBy (FormBreaks line.now)) }
{
    let number = line.number;
    match line.kind {
        LineKind::Statement => match read_statement(alloc, number, &line.tokens) {
            Ok(statement) => Ok(ProgramLine {
                number,
                what: LineContent::Statement(statement),
            }),
            Err(error) => Err(error),
        },
        LineKind::Directive => match read_directive(alloc, number, &line.tokens) {
            Ok(directive) => Ok(ProgramLine {
                number,
                what: LineContent::Directive(directive),
            }),
            Err(error) => Err(error),
        },
    }
}

/// The statement or the directive that a line is, after those before it; or why it is none.
fn add_form(
    alloc: Global,
    line: &TokenLine,
    forms: &mut Vec<ProgramLine>,
) -> Result<Option<Refusal>, AllocError>
    ensures first { IfOk result (IsFirstOrNone (FormBreaks line.now)) }
    ensures added { IfOk result (λ first. IfNone first (IsRead line.now forms.old.items forms.new.items)) }
{
    match form(alloc, line) {
        Ok(read) => {
            forms.push(read)?;
            Ok(None)
        }
        Err(StaticError::Refused(refusal)) => Ok(Some(refusal)),
        Err(StaticError::Memory) => Err(AllocError),
    }
}

/// The statements and directives that lines are; else the refusal is that of the first one that is none.
pub(crate) fn forms(alloc: Global, lines: &[TokenLine]) -> Result<Vec<ProgramLine>, StaticError>
    ensures read { IfOk result (λ v. AreLinesOf lines.now (lines_of v.items)) }
    ensures fine { OnOk result (NoBreach (FormsBreak lines.now)) }
    ensures refused { IfErr result (IsRefusalBy (FormsBreak lines.now)) }
{
    let mut forms = Vec::new(alloc);
    let mut first = None;
    for line in lines {
        first = earlier(first, add_form(alloc, line, &mut forms)?);
    }
    match first {
        Some(refusal) => Err(StaticError::Refused(refusal)),
        None => Ok(forms),
    }
}
