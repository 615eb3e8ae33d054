//! The words that tell the kind of a line.

ghost use Rattle.std.specs.Prelude.{◌≡◌};
ghost use Rattle.syntax_tree.specs.Lexeme.{lexemes};
ghost use Rattle.statement_reader.specs.FirstWords.{kind_in, statement_kind, end_words, else_words, unit_words, construct_words, action_words};
ghost use Rattle.statement_reader.specs.declared.kind.Kind.TheVariants.{Assign, Else, End};

use crate::kind::Kind;
use line_forms::{is_word, skip};
use source_lines::Token;

/// What kind of statement a line is, if it is one; it is IfThen for every IF.
pub(crate) fn statement_kind(tokens: &[Token]) -> Kind
    ensures { result ≡ statement_kind (lexemes tokens.now) }
{
    if is_word(tokens, b"END") {
        return end_kind(skip(tokens, 1));
    }
    if is_word(tokens, b"ELSE") {
        return else_kind(skip(tokens, 1));
    }
    unit_kind(tokens)
}

/// The kind of a line that begins with END, by what stands after that.
fn end_kind(tokens: &[Token]) -> Kind
    ensures { result ≡ kind_in end_words End (lexemes tokens.now) }
{
    if is_word(tokens, b"IF") {
        return Kind::EndIf(false);
    }
    if is_word(tokens, b"DO") {
        return Kind::EndDo(false);
    }
    if is_word(tokens, b"WHERE") {
        return Kind::EndWhere(false);
    }
    if is_word(tokens, b"FORALL") {
        return Kind::EndForall(false);
    }
    Kind::End
}

/// The kind of a line that begins with ELSE, by what stands after that.
fn else_kind(tokens: &[Token]) -> Kind
    ensures { result ≡ kind_in else_words Else (lexemes tokens.now) }
{
    if is_word(tokens, b"IF") {
        return Kind::ElseIf(false);
    }
    if is_word(tokens, b"WHERE") {
        return Kind::ElseWhere(false);
    }
    Kind::Else
}

/// The kind of any other line.
fn unit_kind(tokens: &[Token]) -> Kind
    ensures { result ≡ kind_in unit_words (kind_in construct_words (kind_in action_words Assign (lexemes tokens.now)) (lexemes tokens.now)) (lexemes tokens.now) }
{
    if is_word(tokens, b"PROGRAM") {
        return Kind::Program;
    }
    if is_word(tokens, b"IMPLICIT") {
        return Kind::ImplicitNone;
    }
    if is_word(tokens, b"INTEGER") {
        return Kind::Integer;
    }
    if is_word(tokens, b"PARAMETER") {
        return Kind::Parameter;
    }
    construct_kind(tokens)
}

/// The kind of a line that is no declaration.
fn construct_kind(tokens: &[Token]) -> Kind
    ensures { result ≡ kind_in construct_words (kind_in action_words Assign (lexemes tokens.now)) (lexemes tokens.now) }
{
    if is_word(tokens, b"IF") {
        return Kind::IfThen;
    }
    if is_word(tokens, b"ELSEIF") {
        return Kind::ElseIf(true);
    }
    if is_word(tokens, b"ENDIF") {
        return Kind::EndIf(true);
    }
    if is_word(tokens, b"DO") {
        return Kind::Do;
    }
    if is_word(tokens, b"ENDDO") {
        return Kind::EndDo(true);
    }
    if is_word(tokens, b"WHERE") {
        return Kind::Where;
    }
    if is_word(tokens, b"ELSEWHERE") {
        return Kind::ElseWhere(true);
    }
    if is_word(tokens, b"ENDWHERE") {
        return Kind::EndWhere(true);
    }
    if is_word(tokens, b"FORALL") {
        return Kind::Forall;
    }
    if is_word(tokens, b"ENDFORALL") {
        return Kind::EndForall(true);
    }
    action_kind(tokens)
}

/// The kind of a line that is a whole statement without a part after it.
fn action_kind(tokens: &[Token]) -> Kind
    ensures { result ≡ kind_in action_words Assign (lexemes tokens.now) }
{
    if is_word(tokens, b"PRINT") {
        return Kind::Print;
    }
    if is_word(tokens, b"STOP") {
        return Kind::Stop;
    }
    if is_word(tokens, b"EXIT") {
        return Kind::Exit;
    }
    if is_word(tokens, b"CYCLE") {
        return Kind::Cycle;
    }
    if is_word(tokens, b"CONTINUE") {
        return Kind::Continue;
    }
    Kind::Assign
}
