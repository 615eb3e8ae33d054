//! Lines of words alone, and the end of a line.

ghost use Rattle.std.specs.Prelude.{◌≡◌};
ghost use Rattle.syntax_tree.specs.Lexeme.{lexemes};
ghost use Rattle.line_forms.specs.Grammar.{Prefixed, Nothing};
ghost use Rattle.line_forms.specs.Marks.{key};
ghost use Rattle.statement_reader.specs.Reading.{is_nothing, said};
ghost use Rattle.statement_reader.specs.Gives.{Ended, GivesWhole};
ghost use Rattle.statement_reader.specs.Views.{form_of};
ghost use Rattle.statement_reader.specs.Words.{worded, worded_action};

use crate::kind::Kind;
use crate::statement::{Action, Statement};
use line_forms::{ReadError, after_word};
use source_lines::Token;

/// The end of a line.
pub(crate) fn finish(tokens: &[Token]) -> Result<(), ReadError>
    ensures { Ended result (lexemes tokens.now) }
{
    if is_end(tokens) {
        return Ok(());
    }
    Err(ReadError::Malformed)
}

/// Whether a line ends there.
pub(crate) fn is_end(tokens: &[Token]) -> bool
    ensures { result ≡ is_nothing (lexemes tokens.now) }
{
    tokens.is_empty()
}

/// A line of one word, which is the statement of this kind.
pub(crate) fn alone(tokens: &[Token], word: &[u8], kind: Kind) -> Result<Statement, ReadError>
    ensures { GivesWhole form_of result (said (Prefixed (key word.now) Nothing) (form_of (worded kind)) (lexemes tokens.now)) }
{
    let rest = after_word(tokens, word)?;
    finish(rest)?;
    Ok(worded(kind))
}

/// A line of two words, which is the statement of this kind.
pub(crate) fn pair(
    tokens: &[Token],
    first: &[u8],
    second: &[u8],
    kind: Kind,
) -> Result<Statement, ReadError>
    ensures { GivesWhole form_of result (said (Prefixed (key first.now) (Prefixed (key second.now) Nothing)) (form_of (worded kind)) (lexemes tokens.now)) }
{
    let rest = after_word(tokens, first)?;
    let rest = after_word(rest, second)?;
    finish(rest)?;
    Ok(worded(kind))
}

/// The statement of a kind whose lines are words alone. Callers ask for no other kind.
fn worded(kind: Kind) -> Statement
    ensures { result ≡ worded kind }
{
    match kind {
        Kind::ImplicitNone => Statement::ImplicitNone,
        Kind::Else => Statement::Else,
        Kind::EndIf(glued) => Statement::EndIf { glued },
        Kind::EndDo(glued) => Statement::EndDo { glued },
        Kind::ElseWhere(_) => Statement::ElseWhere,
        Kind::EndWhere(glued) => Statement::EndWhere { glued },
        Kind::EndForall(glued) => Statement::EndForall { glued },
        kind => Statement::Action(worded_action(kind)),
    }
}

/// The action of a kind whose lines are one word. Callers ask for no other kind.
pub(crate) fn worded_action(kind: Kind) -> Action
    ensures { result ≡ worded_action kind }
{
    match kind {
        Kind::Stop => Action::Stop,
        Kind::Exit => Action::Exit,
        Kind::Cycle => Action::Cycle,
        _ => Action::Continue,
    }
}
