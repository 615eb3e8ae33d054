//! Whole lines.

ghost use Rattle.std.specs.Prelude.{true, false, codes, option_map, map};
ghost use Rattle.syntax_tree.specs.Lexeme.{lexemes};
ghost use Rattle.syntax_tree.specs.Expression.{expression};
ghost use Rattle.line_forms.specs.declared.depths.Depths.TheVariants.{Limited};
ghost use Rattle.line_forms.specs.Grammar.{Suffixed};
ghost use Rattle.line_forms.specs.Marks.{key};
ghost use Rattle.statement_reader.specs.Forms.{condition};
ghost use Rattle.statement_reader.specs.Reading.{end_program, whole, whole_of};
ghost use Rattle.statement_reader.specs.Gives.{GivesWhole};
ghost use Rattle.statement_reader.specs.Views.{assignment_of, constant_of, declaration_of, do_of, end_of, forall_of, items_of};
ghost use Rattle.statement_reader.specs.declared.kind.Kind.TheVariants.{Assign, Do, ElseIf, End, Forall, Integer, Parameter, Print, Program, Where};

use crate::declaration::declaration;
use crate::headers::{do_head, forall_parts, where_parts};
use crate::lists::{Constants, optional_items};
use crate::parts::{assignment, condition};
use crate::statement::{Assignment, DoHead, ForallHead};
use crate::word_lines::{finish, is_end};
use hpf_base::Name;
use line_forms::{Depths, ReadError, after_sign, after_word, enclosed, is_word, name, skip};
use source_lines::Token;
use std::alloc::Global;
use syntax_tree::{ConstDef, Expr, IntegerDecl, Item, Sign};

/// PROGRAM and the name.
pub(crate) fn program(tokens: &[Token]) -> Result<Name, ReadError>
    ensures { GivesWhole (λ x. x) result (whole Limited Program (lexemes tokens.now)) }
{
    let rest = after_word(tokens, b"PROGRAM")?;
    match name(rest) {
        Ok((name, rest)) => {
            finish(rest)?;
            Ok(name)
        }
        Err(error) => Err(error),
    }
}

/// INTEGER with its attributes and entities.
pub(crate) fn integer(alloc: Global, tokens: &[Token]) -> Result<IntegerDecl, ReadError>
    ensures { GivesWhole declaration_of result (whole Limited Integer (lexemes tokens.now)) }
{
    let rest = after_word(tokens, b"INTEGER")?;
    let (declared, rest) = declaration(alloc, rest)?;
    if !is_end(rest) {
        return Err(ReadError::Malformed);
    }
    Ok(declared)
}

/// PARAMETER and its constants.
pub(crate) fn parameter(alloc: Global, tokens: &[Token]) -> Result<Vec<ConstDef>, ReadError>
    ensures { GivesWhole (λ x. map constant_of x.items) result (whole Limited Parameter (lexemes tokens.now)) }
{
    let rest = after_word(tokens, b"PARAMETER")?;
    let (constants, rest) = enclosed::<Constants>(alloc, Depths::Limited, rest)?;
    if !is_end(rest) {
        return Err(ReadError::Malformed);
    }
    Ok(constants)
}

/// An assignment.
pub(crate) fn assign(alloc: Global, tokens: &[Token]) -> Result<Assignment, ReadError>
    ensures { GivesWhole assignment_of result (whole Limited Assign (lexemes tokens.now)) }
{
    let (one, rest) = assignment(alloc, tokens)?;
    if !is_end(rest) {
        return Err(ReadError::Malformed);
    }
    Ok(one)
}

/// A condition and THEN.
fn then(alloc: Global, tokens: &[Token]) -> Result<Expr, ReadError>
    ensures { GivesWhole expression result (whole_of Limited (Suffixed condition (key (codes "THEN"))) (lexemes tokens.now)) }
{
    let (cond, rest) = condition(alloc, tokens)?;
    let rest = after_word(rest, b"THEN")?;
    if !is_end(rest) {
        return Err(ReadError::Malformed);
    }
    Ok(cond)
}

/// ELSEIF with its condition.
pub(crate) fn else_if_glued(alloc: Global, tokens: &[Token]) -> Result<Expr, ReadError>
    ensures { GivesWhole expression result (whole Limited (ElseIf true) (lexemes tokens.now)) }
{
    let rest = after_word(tokens, b"ELSEIF")?;
    then(alloc, rest)
}

/// ELSE IF with its condition.
pub(crate) fn else_if(alloc: Global, tokens: &[Token]) -> Result<Expr, ReadError>
    ensures { GivesWhole expression result (whole Limited (ElseIf false) (lexemes tokens.now)) }
{
    let rest = after_word(tokens, b"ELSE")?;
    let rest = after_word(rest, b"IF")?;
    then(alloc, rest)
}

/// DO with its index and values.
pub(crate) fn do_line(alloc: Global, tokens: &[Token]) -> Result<DoHead, ReadError>
    ensures { GivesWhole do_of result (whole Limited Do (lexemes tokens.now)) }
{
    let rest = after_word(tokens, b"DO")?;
    let (head, rest) = do_head(alloc, rest)?;
    if !is_end(rest) {
        return Err(ReadError::Malformed);
    }
    Ok(head)
}

/// WHERE with its mask, and its assignment if it has one.
pub(crate) fn where_line(
    alloc: Global,
    tokens: &[Token],
) -> Result<(Expr, Option<Assignment>), ReadError>
    ensures { GivesWhole (λ x. (expression x.0, option_map assignment_of x.1)) result (whole Limited Where (lexemes tokens.now)) }
{
    let rest = after_word(tokens, b"WHERE")?;
    let (parts, rest) = where_parts(alloc, rest)?;
    if !is_end(rest) {
        return Err(ReadError::Malformed);
    }
    Ok(parts)
}

/// FORALL with its head, and its assignment if it has one.
pub(crate) fn forall_line(
    alloc: Global,
    tokens: &[Token],
) -> Result<(ForallHead, Option<Assignment>), ReadError>
    ensures { GivesWhole (λ x. (forall_of x.0, option_map assignment_of x.1)) result (whole Limited Forall (lexemes tokens.now)) }
{
    let rest = after_word(tokens, b"FORALL")?;
    let (parts, rest) = forall_parts(alloc, rest)?;
    if !is_end(rest) {
        return Err(ReadError::Malformed);
    }
    Ok(parts)
}

/// PRINT and its items.
pub(crate) fn print(alloc: Global, tokens: &[Token]) -> Result<Vec<Item>, ReadError>
    ensures { GivesWhole (λ x. items_of x.items) result (whole Limited Print (lexemes tokens.now)) }
{
    let rest = after_word(tokens, b"PRINT")?;
    let rest = after_sign(rest, Sign::Star)?;
    let (items, rest) = optional_items(alloc, rest)?;
    if !is_end(rest) {
        return Err(ReadError::Malformed);
    }
    Ok(items)
}

/// END, whether PROGRAM stands after it, and the name after that.
pub(crate) fn end(tokens: &[Token]) -> Result<(bool, Option<Name>), ReadError>
    ensures { GivesWhole (λ x. end_of x.0 x.1) result (whole Limited End (lexemes tokens.now)) }
{
    let rest = after_word(tokens, b"END")?;
    if !is_word(rest, b"PROGRAM") {
        finish(rest)?;
        return Ok((false, None));
    }
    end_name(skip(rest, 1))
}

/// The name after END PROGRAM, if one stands there.
fn end_name(tokens: &[Token]) -> Result<(bool, Option<Name>), ReadError>
    ensures { GivesWhole (λ x. end_of x.0 x.1) result (end_program (lexemes tokens.now)) }
{
    if tokens.is_empty() {
        return Ok((true, None));
    }
    match name(tokens) {
        Ok((name, rest)) => {
            finish(rest)?;
            Ok((true, Some(name)))
        }
        Err(error) => Err(error),
    }
}
