//! Reading a whole directive.

ghost use Rattle.std.specs.Prelude.{◌≡◌, [], IfOk, IfErr};
ghost use Rattle.hpf_base.specs.Refusal.{IsRefusalBy};
ghost use Rattle.hpf_base.specs.declared.refusal.Reason.{Reason};
ghost use Rattle.syntax_tree.specs.Lexeme.{lexemes};
ghost use Rattle.line_forms.specs.Gives.{Gives};
ghost use Rattle.directive_reader.specs.Forms.{grammar};
ghost use Rattle.directive_reader.specs.Reading.{directive, known};
ghost use Rattle.directive_reader.specs.Views.{form_of};
ghost use Rattle.directive_reader.specs.Breach.{IsBreachAt, IsDirective, IsDirectiveBreach};
ghost use Rattle.directive_reader.specs.declared.kind.Kind.TheVariants.{Processors, Template, Dynamic, Distribute, Redistribute, Align, Independent};

use crate::directive::DirectiveLine;
use crate::elements::Arrangements;
use crate::first_words::{directive_kind, is_passed};
use crate::kind::Kind;
use crate::refusal::{is_left_out, left_out, not_read};
use crate::specifications::{alignment_spec, distribution_spec, listed, names_after};
use hpf_base::StaticError;
use line_forms::{Depths, ListedNames, ReadError, after_word};
use source_lines::Token;
use std::alloc::Global;
use syntax_tree::{Directive, NameList};

/// The directive that the tokens after `!HPF$` spell, whole (HPF 2.0, 3, 5.1 and 8.5). One that begins with SEQUENCE,
/// NO, INHERIT, RANGE, SHADOW, ON, RESIDENT, TASK_REGION or END is passed over, whatever else stands there.
///
/// `line` is the number of the line, from 1, of which every refusal speaks. Its reason is the least of those that hold:
///
/// - BadDirective: the tokens begin and name nothing that is left out, and no well-formed directive is spelled so, also
///   none with an expression deeper than `MAX_DEPTH`.
/// - Limit: a front of the tokens is that of a well-formed directive up to and with its first expression deeper than
///   `MAX_DEPTH`.
/// - LeftOut: the tokens begin with REALIGN, or name PROCESSORS_SHAPE anywhere.
///
/// Want of memory is answered where a growth was refused.
pub fn read_directive(
    alloc: Global,
    line: u32,
    tokens: &[Token],
) -> Result<DirectiveLine, StaticError>
    ensures read { IfOk result (λ d. IsDirective (lexemes tokens.now) (form_of d)) }
    ensures fine { IfOk result (λ d. (reason : Reason) → IsDirectiveBreach (lexemes tokens.now) reason → ⊥) }
    ensures refused { IfErr result (IsRefusalBy (IsBreachAt line (lexemes tokens.now))) }
{
    if is_left_out(tokens) {
        return Err(left_out(alloc, line, tokens));
    }
    match directive(alloc, Depths::Limited, tokens) {
        Ok(read) => Ok(read),
        Err(why) => Err(not_read(alloc, line, why, tokens)),
    }
}

/// The directive that the whole line is, with expressions as deep as `depths` says.
pub fn directive(
    alloc: Global,
    depths: Depths,
    tokens: &[Token],
) -> Result<DirectiveLine, ReadError>
    ensures { Gives (λ d. (form_of d, [])) result (directive depths (lexemes tokens.now)) }
{
    if is_passed(tokens) {
        return Ok(DirectiveLine::Mapping(Directive::Passed));
    }
    let Some(kind) = directive_kind(tokens) else {
        return Err(ReadError::Malformed);
    };
    let (line, rest) = of_kind(alloc, depths, kind, tokens)?;
    if !rest.is_empty() {
        return Err(ReadError::Malformed);
    }
    Ok(line)
}

/// A directive of the kind in front, and the tokens after it.
fn of_kind(
    alloc: Global,
    depths: Depths,
    kind: Kind,
    tokens: &[Token],
) -> Result<(DirectiveLine, &[Token]), ReadError>
    ensures { Gives (λ x. (form_of x.0, lexemes x.1.now)) result (known depths kind (lexemes tokens.now)) }
{
    match kind {
        Kind::Processors => processors(alloc, depths, tokens),
        Kind::Template => template(alloc, depths, tokens),
        Kind::Dynamic => dynamic(alloc, depths, tokens),
        Kind::Distribute(many) => distribute(alloc, depths, many, tokens),
        Kind::Redistribute(many) => redistribute(alloc, depths, many, tokens),
        Kind::Align(many) => align(alloc, depths, many, tokens),
        Kind::Independent => independent(alloc, depths, tokens),
    }
}

fn processors(
    alloc: Global,
    depths: Depths,
    tokens: &[Token],
) -> Result<(DirectiveLine, &[Token]), ReadError>
    ensures { Gives (λ x. (form_of x.0, lexemes x.1.now)) result (known depths Processors (lexemes tokens.now)) }
{
    let rest = after_word(tokens, b"PROCESSORS")?;
    let (entities, rest) = listed::<Arrangements>(alloc, depths, rest)?;
    Ok((
        DirectiveLine::Mapping(Directive::Processors(entities)),
        rest,
    ))
}

fn template(
    alloc: Global,
    depths: Depths,
    tokens: &[Token],
) -> Result<(DirectiveLine, &[Token]), ReadError>
    ensures { Gives (λ x. (form_of x.0, lexemes x.1.now)) result (known depths Template (lexemes tokens.now)) }
{
    let rest = after_word(tokens, b"TEMPLATE")?;
    let (entities, rest) = listed::<Arrangements>(alloc, depths, rest)?;
    Ok((DirectiveLine::Mapping(Directive::Template(entities)), rest))
}

fn dynamic(
    alloc: Global,
    depths: Depths,
    tokens: &[Token],
) -> Result<(DirectiveLine, &[Token]), ReadError>
    ensures { Gives (λ x. (form_of x.0, lexemes x.1.now)) result (known depths Dynamic (lexemes tokens.now)) }
{
    let rest = after_word(tokens, b"DYNAMIC")?;
    let (names, rest) = listed::<ListedNames>(alloc, depths, rest)?;
    Ok((
        DirectiveLine::Mapping(Directive::Dynamic(NameList::new(names))),
        rest,
    ))
}

fn distribute(
    alloc: Global,
    depths: Depths,
    many: bool,
    tokens: &[Token],
) -> Result<(DirectiveLine, &[Token]), ReadError>
    ensures { Gives (λ x. (form_of x.0, lexemes x.1.now)) result (known depths (Distribute many) (lexemes tokens.now)) }
{
    let rest = after_word(tokens, b"DISTRIBUTE")?;
    let (spec, rest) = distribution_spec(alloc, depths, many, rest)?;
    Ok((DirectiveLine::Mapping(Directive::Distribute(spec)), rest))
}

fn redistribute(
    alloc: Global,
    depths: Depths,
    many: bool,
    tokens: &[Token],
) -> Result<(DirectiveLine, &[Token]), ReadError>
    ensures { Gives (λ x. (form_of x.0, lexemes x.1.now)) result (known depths (Redistribute many) (lexemes tokens.now)) }
{
    let rest = after_word(tokens, b"REDISTRIBUTE")?;
    let (spec, rest) = distribution_spec(alloc, depths, many, rest)?;
    Ok((DirectiveLine::Redistribute(spec), rest))
}

fn align(
    alloc: Global,
    depths: Depths,
    many: bool,
    tokens: &[Token],
) -> Result<(DirectiveLine, &[Token]), ReadError>
    ensures { Gives (λ x. (form_of x.0, lexemes x.1.now)) result (known depths (Align many) (lexemes tokens.now)) }
{
    let rest = after_word(tokens, b"ALIGN")?;
    let (spec, rest) = alignment_spec(alloc, depths, many, rest)?;
    Ok((DirectiveLine::Mapping(Directive::Align(spec)), rest))
}

fn independent(
    alloc: Global,
    depths: Depths,
    tokens: &[Token],
) -> Result<(DirectiveLine, &[Token]), ReadError>
    ensures { Gives (λ x. (form_of x.0, lexemes x.1.now)) result (known depths Independent (lexemes tokens.now)) }
{
    let rest = after_word(tokens, b"INDEPENDENT")?;
    let (new, rest) = names_after(alloc, depths, b"NEW", rest)?;
    let (reduction, rest) = names_after(alloc, depths, b"REDUCTION", rest)?;
    Ok((DirectiveLine::Independent { new, reduction }, rest))
}
