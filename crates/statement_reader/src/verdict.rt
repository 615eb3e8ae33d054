//! The statement of a line, or the breach of the line.

ghost use Rattle.std.specs.Prelude.{◌≡◌, ◌≢◌, List, IfOk, IfErr};
ghost use Rattle.hpf_base.specs.Refusal.{IsRefusalBy};
ghost use Rattle.hpf_base.specs.declared.refusal.Reason.{Reason};
ghost use Rattle.line_forms.specs.declared.read_error.ReadError.TheVariants.{Memory as NoMemory};
ghost use Rattle.line_forms.specs.Reading.{Stopped};
ghost use Rattle.statement_reader.specs.Breaches.{IsBreachOn, IsStatement, IsStatementBreach};
ghost use Rattle.statement_reader.specs.Gives.{Tells};
ghost use Rattle.statement_reader.specs.LeftOut.{IsConstantArray, IsLeftOut};
ghost use Rattle.statement_reader.specs.Reading.{statement};
ghost use Rattle.statement_reader.specs.Views.{form_of};
ghost use Rattle.syntax_tree.specs.Lexeme.{Lexeme, lexemes};

use crate::constant_array::constant_array;
use crate::left_out::begins_left_out;
use crate::reading::statement;
use crate::statement::Statement;
use hpf_base::{Reason, StaticError};
use line_forms::{ReadError, names_shape};
use source_lines::Token;
use std::alloc::{AllocError, Global};

/// The statement that a line is, by the tokens of the whole line.
///
/// It is refused, at the given line, for the least of these reasons that holds: NotAStatement where no statement is
/// spelled by it and none of the others holds; Limit where a front of it is that of a statement up to and with its first
/// expression deeper than `MAX_DEPTH`; LeftOut where the language leaves it out.
pub fn read_statement(alloc: Global, line: u32, tokens: &[Token]) -> Result<Statement, StaticError>
    ensures read { IfOk result (λ s. IsStatement (lexemes tokens.now) (form_of s)) }
    ensures fine { IfOk result (λ s. (reason : Reason) → IsStatementBreach (lexemes tokens.now) reason → ⊥) }
    ensures refused { IfErr result (IsRefusalBy (IsBreachOn line (lexemes tokens.now))) }
{
    let Ok(left_out) = is_left_out(alloc, tokens) else {
        return Err(StaticError::Memory);
    };
    let read = match statement(alloc, tokens) {
        Ok(read) => read,
        Err(error) => return Err(unread(line, left_out, error)),
    };
    if left_out {
        drop(read);
        return Err(StaticError::at(line, Reason::LeftOut));
    }
    Ok(read)
}

/// Whether the language leaves the line out.
fn is_left_out(alloc: Global, tokens: &[Token]) -> Result<bool, AllocError>
    ensures { IfOk result (λ b. Tells b (IsLeftOut (lexemes tokens.now))) }
{
    if begins_left_out(tokens) {
        return Ok(true);
    }
    if names_shape(tokens) {
        return Ok(true);
    }
    is_constant_array(alloc, tokens)
}

/// Whether the line declares constants that are arrays.
fn is_constant_array(alloc: Global, tokens: &[Token]) -> Result<bool, AllocError>
    ensures { IfOk result (λ b. Tells b (IsConstantArray (lexemes tokens.now))) }
{
    match constant_array(alloc, tokens) {
        Ok(array) => Ok(array),
        Err(ReadError::Malformed) => Ok(false),
        Err(ReadError::TooDeep) => Ok(false),
        Err(ReadError::Memory) => Err(AllocError),
    }
}

/// Why a line is refused in which no statement was read.
fn unread(line: u32, left_out: bool, error: ReadError) -> StaticError
    ensures { (ts : List Lexeme) → ((error ≢ NoMemory) → statement ts ≡ Stopped error) → Tells left_out (IsLeftOut ts) → IsRefusalBy (IsBreachOn line ts) result }
{
    match error {
        ReadError::Memory => StaticError::Memory,
        ReadError::TooDeep => StaticError::at(line, Reason::Limit),
        ReadError::Malformed => {
            if left_out {
                return StaticError::at(line, Reason::LeftOut);
            }
            StaticError::at(line, Reason::NotAStatement)
        }
    }
}
