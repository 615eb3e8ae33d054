//! The statement of a line.

ghost use Rattle.std.specs.Prelude.{true, false, codes};
ghost use Rattle.syntax_tree.specs.Lexeme.{lexemes};
ghost use Rattle.syntax_tree.specs.Expression.{expression};
ghost use Rattle.statement_reader.specs.FirstWords.{statement_kind};
ghost use Rattle.statement_reader.specs.Reading.{acted, acting, if_line, if_rest, line, said, statement};
ghost use Rattle.line_forms.specs.declared.depths.Depths.TheVariants.{Limited};
ghost use Rattle.line_forms.specs.Grammar.{Prefixed, Nothing};
ghost use Rattle.line_forms.specs.Marks.{key};
ghost use Rattle.statement_reader.specs.declared.kind.Kind.TheVariants.{Assign, ElseIf, End, Forall, Print, Where};
ghost use Rattle.statement_reader.specs.Gives.{GivesWhole};
ghost use Rattle.statement_reader.specs.Views.{action_of, form_of};
ghost use Rattle.statement_reader.specs.Words.{worded, worded_action};

use crate::first_words::statement_kind;
use crate::kind::Kind;
use crate::parts::condition;
use crate::statement::{Action, Statement};
use crate::whole_lines::{
    assign, do_line, else_if, else_if_glued, end, forall_line, integer, parameter, print, program,
    where_line,
};
use crate::word_lines::{alone, finish, is_end, pair, worded_action};
use line_forms::{ReadError, after_word, is_word, skip};
use source_lines::Token;
use std::alloc::Global;
use syntax_tree::Expr;

/// The statement that a line is.
pub(crate) fn statement(alloc: Global, tokens: &[Token]) -> Result<Statement, ReadError>
    ensures { GivesWhole form_of result (statement (lexemes tokens.now)) }
{
    match statement_kind(tokens) {
        Kind::Program => Ok(Statement::Program(program(tokens)?)),
        Kind::ImplicitNone => pair(tokens, b"IMPLICIT", b"NONE", Kind::ImplicitNone),
        Kind::Integer => Ok(Statement::Integer(integer(alloc, tokens)?)),
        Kind::Parameter => Ok(Statement::Parameter(parameter(alloc, tokens)?)),
        Kind::Assign => Ok(Statement::Action(Action::Assign(assign(alloc, tokens)?))),
        Kind::IfThen => if_line(alloc, tokens),
        Kind::ElseIf(true) => one_word_else_if(alloc, tokens),
        Kind::ElseIf(false) => two_word_else_if(alloc, tokens),
        Kind::Else => alone(tokens, b"ELSE", Kind::Else),
        Kind::EndIf(true) => alone(tokens, b"ENDIF", Kind::EndIf(true)),
        Kind::EndIf(false) => end_of(tokens, b"IF", Kind::EndIf(false)),
        Kind::Do => Ok(Statement::Do(do_line(alloc, tokens)?)),
        Kind::EndDo(true) => alone(tokens, b"ENDDO", Kind::EndDo(true)),
        Kind::EndDo(false) => end_of(tokens, b"DO", Kind::EndDo(false)),
        Kind::Where => where_statement(alloc, tokens),
        Kind::ElseWhere(true) => alone(tokens, b"ELSEWHERE", Kind::ElseWhere(true)),
        Kind::ElseWhere(false) => pair(tokens, b"ELSE", b"WHERE", Kind::ElseWhere(false)),
        Kind::EndWhere(true) => alone(tokens, b"ENDWHERE", Kind::EndWhere(true)),
        Kind::EndWhere(false) => end_of(tokens, b"WHERE", Kind::EndWhere(false)),
        Kind::Forall => forall_statement(alloc, tokens),
        Kind::EndForall(true) => alone(tokens, b"ENDFORALL", Kind::EndForall(true)),
        Kind::EndForall(false) => end_of(tokens, b"FORALL", Kind::EndForall(false)),
        Kind::Print => Ok(Statement::Action(Action::Print(print(alloc, tokens)?))),
        Kind::Stop => alone(tokens, b"STOP", Kind::Stop),
        Kind::Exit => alone(tokens, b"EXIT", Kind::Exit),
        Kind::Cycle => alone(tokens, b"CYCLE", Kind::Cycle),
        Kind::Continue => alone(tokens, b"CONTINUE", Kind::Continue),
        Kind::End => end_statement(tokens),
    }
}

/// A line of END and another word, which is the statement of this kind.
fn end_of(tokens: &[Token], word: &[u8], kind: Kind) -> Result<Statement, ReadError>
    ensures { GivesWhole form_of result (said (Prefixed (key (codes "END")) (Prefixed (key word.now) Nothing)) (form_of (worded kind)) (lexemes tokens.now)) }
{
    pair(tokens, b"END", word, kind)
}

/// An ELSEIF.
fn one_word_else_if(alloc: Global, tokens: &[Token]) -> Result<Statement, ReadError>
    ensures { GivesWhole form_of result (line Limited (ElseIf true) (lexemes tokens.now)) }
{
    let cond = else_if_glued(alloc, tokens)?;
    Ok(Statement::ElseIf { cond, glued: true })
}

/// An ELSE IF.
fn two_word_else_if(alloc: Global, tokens: &[Token]) -> Result<Statement, ReadError>
    ensures { GivesWhole form_of result (line Limited (ElseIf false) (lexemes tokens.now)) }
{
    let cond = else_if(alloc, tokens)?;
    Ok(Statement::ElseIf { cond, glued: false })
}

/// A WHERE, with or without an assignment.
fn where_statement(alloc: Global, tokens: &[Token]) -> Result<Statement, ReadError>
    ensures { GivesWhole form_of result (line Limited Where (lexemes tokens.now)) }
{
    let (mask, one) = where_line(alloc, tokens)?;
    match one {
        Some(one) => Ok(Statement::Action(Action::Where { mask, one })),
        None => Ok(Statement::Where(mask)),
    }
}

/// A FORALL, with or without an assignment.
fn forall_statement(alloc: Global, tokens: &[Token]) -> Result<Statement, ReadError>
    ensures { GivesWhole form_of result (line Limited Forall (lexemes tokens.now)) }
{
    let (head, one) = forall_line(alloc, tokens)?;
    match one {
        Some(one) => Ok(Statement::Action(Action::Forall { head, one })),
        None => Ok(Statement::Forall(head)),
    }
}

/// An END.
fn end_statement(tokens: &[Token]) -> Result<Statement, ReadError>
    ensures { GivesWhole form_of result (line Limited End (lexemes tokens.now)) }
{
    let (word, name) = end(tokens)?;
    Ok(Statement::End { word, name })
}

/// An IF, with THEN or an action after its condition.
fn if_line(alloc: Global, tokens: &[Token]) -> Result<Statement, ReadError>
    ensures { GivesWhole form_of result (if_line Limited (lexemes tokens.now)) }
{
    let rest = after_word(tokens, b"IF")?;
    let (cond, rest) = condition(alloc, rest)?;
    if_rest(alloc, cond, rest)
}

/// An IF after its condition.
fn if_rest(alloc: Global, cond: Expr, tokens: &[Token]) -> Result<Statement, ReadError>
    ensures { GivesWhole form_of result (if_rest Limited (expression cond) (lexemes tokens.now)) }
{
    if is_word(tokens, b"THEN") {
        if !is_end(skip(tokens, 1)) {
            return Err(ReadError::Malformed);
        }
        return Ok(Statement::IfThen(cond));
    }
    let action = action(alloc, tokens)?;
    Ok(Statement::IfOne { cond, action })
}

/// The action of an IF.
fn action(alloc: Global, tokens: &[Token]) -> Result<Action, ReadError>
    ensures { GivesWhole action_of result (acting Limited (statement_kind (lexemes tokens.now)) (lexemes tokens.now)) }
{
    match statement_kind(tokens) {
        Kind::Assign => assign_action(alloc, tokens),
        Kind::Where => where_action(alloc, tokens),
        Kind::Forall => forall_action(alloc, tokens),
        Kind::Print => print_action(alloc, tokens),
        Kind::Stop => word_action(tokens, b"STOP", Kind::Stop),
        Kind::Exit => word_action(tokens, b"EXIT", Kind::Exit),
        Kind::Cycle => word_action(tokens, b"CYCLE", Kind::Cycle),
        Kind::Continue => word_action(tokens, b"CONTINUE", Kind::Continue),
        _ => Err(ReadError::Malformed),
    }
}

/// An assignment as an action.
fn assign_action(alloc: Global, tokens: &[Token]) -> Result<Action, ReadError>
    ensures { GivesWhole action_of result (acting Limited Assign (lexemes tokens.now)) }
{
    let one = assign(alloc, tokens)?;
    Ok(Action::Assign(one))
}

/// A PRINT as an action.
fn print_action(alloc: Global, tokens: &[Token]) -> Result<Action, ReadError>
    ensures { GivesWhole action_of result (acting Limited Print (lexemes tokens.now)) }
{
    let items = print(alloc, tokens)?;
    Ok(Action::Print(items))
}

/// A WHERE with its assignment.
fn where_action(alloc: Global, tokens: &[Token]) -> Result<Action, ReadError>
    ensures { GivesWhole action_of result (acting Limited Where (lexemes tokens.now)) }
{
    let (mask, one) = where_line(alloc, tokens)?;
    match one {
        Some(one) => Ok(Action::Where { mask, one }),
        None => Err(ReadError::Malformed),
    }
}

/// A FORALL with its assignment.
fn forall_action(alloc: Global, tokens: &[Token]) -> Result<Action, ReadError>
    ensures { GivesWhole action_of result (acting Limited Forall (lexemes tokens.now)) }
{
    let (head, one) = forall_line(alloc, tokens)?;
    match one {
        Some(one) => Ok(Action::Forall { head, one }),
        None => Err(ReadError::Malformed),
    }
}

/// The action of this kind, which is one word.
fn word_action(tokens: &[Token], word: &[u8], kind: Kind) -> Result<Action, ReadError>
    ensures { GivesWhole action_of result (acted (Prefixed (key word.now) Nothing) (action_of (worded_action kind)) (lexemes tokens.now)) }
{
    let rest = after_word(tokens, word)?;
    finish(rest)?;
    Ok(worded_action(kind))
}
