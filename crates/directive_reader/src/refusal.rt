//! Why a line is no directive.

ghost use Rattle.std.specs.Prelude.{◌≡◌, ◌≢◌, true, false};
ghost use Rattle.hpf_base.specs.Refusal.{IsRefusalBy};
ghost use Rattle.syntax_tree.specs.Lexeme.{lexemes};
ghost use Rattle.line_forms.specs.declared.depths.Depths.TheVariants.{Limited};
ghost use Rattle.line_forms.specs.declared.read_error.ReadError.TheVariants.{Memory, TooDeep};
ghost use Rattle.line_forms.specs.Reading.{Stopped};
ghost use Rattle.directive_reader.specs.Breach.{IsBreachAt, WhyNotRead, is_left_out};
ghost use Rattle.directive_reader.specs.Reading.{directive};

use crate::read::directive;
use hpf_base::{Reason, StaticError};
use line_forms::{Depths, ReadError, is_word, names_shape};
use source_lines::Token;
use std::alloc::Global;

/// Whether the line begins with REALIGN or names PROCESSORS_SHAPE.
pub(crate) fn is_left_out(tokens: &[Token]) -> bool
    ensures { result ≡ is_left_out (lexemes tokens.now) }
{
    is_word(tokens, b"REALIGN") || names_shape(tokens)
}

/// Why a line isn't read as a directive, if it isn't.
fn why_not_read(alloc: Global, depths: Depths, tokens: &[Token]) -> Option<ReadError>
    ensures { WhyNotRead result (directive depths (lexemes tokens.now)) }
{
    match directive(alloc, depths, tokens) {
        Ok(_) => None,
        Err(why) => Some(why),
    }
}

/// The refusal of a directive that is left out.
pub(crate) fn left_out(alloc: Global, line: u32, tokens: &[Token]) -> StaticError
    requires { is_left_out (lexemes tokens.now) ≡ true }
    ensures { IsRefusalBy (IsBreachAt line (lexemes tokens.now)) result }
{
    match why_not_read(alloc, Depths::Limited, tokens) {
        None => StaticError::at(line, Reason::LeftOut),
        Some(ReadError::Malformed) => StaticError::at(line, Reason::LeftOut),
        Some(ReadError::TooDeep) => StaticError::at(line, Reason::Limit),
        Some(ReadError::Memory) => StaticError::Memory,
    }
}

/// The refusal of a line that isn't read as a directive.
pub(crate) fn not_read(alloc: Global, line: u32, why: ReadError, tokens: &[Token]) -> StaticError
    requires known { is_left_out (lexemes tokens.now) ≡ false }
    requires why { why ≢ Memory → directive Limited (lexemes tokens.now) ≡ Stopped why }
    ensures { IsRefusalBy (IsBreachAt line (lexemes tokens.now)) result }
{
    match why {
        ReadError::Malformed => StaticError::at(line, Reason::BadDirective),
        ReadError::TooDeep => too_deep(alloc, line, tokens),
        ReadError::Memory => StaticError::Memory,
    }
}

/// The refusal of a line that has an expression deeper than 200 in front of all that may not stand there.
fn too_deep(alloc: Global, line: u32, tokens: &[Token]) -> StaticError
    requires known { is_left_out (lexemes tokens.now) ≡ false }
    requires deep { directive Limited (lexemes tokens.now) ≡ Stopped TooDeep }
    ensures { IsRefusalBy (IsBreachAt line (lexemes tokens.now)) result }
{
    match why_not_read(alloc, Depths::Any, tokens) {
        None => StaticError::at(line, Reason::Limit),
        Some(ReadError::Malformed) => StaticError::at(line, Reason::BadDirective),
        Some(ReadError::TooDeep) => StaticError::at(line, Reason::BadDirective),
        Some(ReadError::Memory) => StaticError::Memory,
    }
}
