//! The parts of mapping directives.

ghost use Rattle.std.specs.Prelude.{◌≡◌, option_map};
ghost use Rattle.syntax_tree.specs.Lexeme.{lexemes};
ghost use Rattle.syntax_tree.specs.Expression.{expression};
ghost use Rattle.line_forms.specs.declared.depths.Depths.TheVariants.{Limited};
ghost use Rattle.line_forms.specs.Read.{read};
ghost use Rattle.line_forms.specs.Gives.{Gives};
ghost use Rattle.line_forms.specs.Grammar.{Expr as OneExpr};
ghost use Rattle.directive_reader.specs.Forms.{arrangement, format, onto, size, source, target};
ghost use Rattle.directive_reader.specs.Views.{arrangement_of, format_of, source_of, target_of};

use hpf_base::Name;
use line_forms::{
    Bounds, Depths, Element, ReadError, after_sign, after_word, enclosed, expr, is_sign, is_word,
    name, skip, subscript,
};
use source_lines::Token;
use std::alloc::Global;
use syntax_tree::{Entity, Expr, Format, Sign, Source, Target};

/// Arrangements and templates in a list, each with its bounds.
pub struct Arrangements {}

impl Element for Arrangements {
    type Part = Entity;

    ghost grammar = { arrangement };

    ghost view = { arrangement_of };

    fn read(
        alloc: Global,
        depths: Depths,
        tokens: &[Token],
    ) -> Result<(Entity, &[Token]), ReadError> {
        let (name, rest) = match name(tokens) {
            Ok(found) => found,
            Err(why) => return Err(why),
        };
        let (bounds, rest) = enclosed::<Bounds>(alloc, depths, rest)?;
        let (dims, start) = (Some(bounds), None);
        Ok((Entity { name, dims, start }, rest))
    }
}

/// Formats in a list, one a dimension.
pub struct Formats {}

impl Element for Formats {
    type Part = Format;

    ghost grammar = { format };

    ghost view = { format_of };

    fn read(
        alloc: Global,
        depths: Depths,
        tokens: &[Token],
    ) -> Result<(Format, &[Token]), ReadError> {
        if is_sign(tokens, Sign::Star) {
            return Ok((Format::Star, skip(tokens, 1)));
        }
        if is_word(tokens, b"BLOCK") {
            let (size, rest) = size(alloc, depths, skip(tokens, 1))?;
            return Ok((Format::Block(size), rest));
        }
        if is_word(tokens, b"CYCLIC") {
            let (size, rest) = size(alloc, depths, skip(tokens, 1))?;
            return Ok((Format::Cyclic(size), rest));
        }
        let rest = after_word(tokens, b"GEN_BLOCK")?;
        let (sizes, rest) = enclosed::<Sizes>(alloc, depths, rest)?;
        Ok((Format::GenBlock(sizes), rest))
    }
}

/// The sizes of blocks in a list.
pub struct Sizes {}

impl Element for Sizes {
    type Part = Expr;

    ghost grammar = { OneExpr };

    ghost view = { expression };

    fn read(
        alloc: Global,
        depths: Depths,
        tokens: &[Token],
    ) -> Result<(Expr, &[Token]), ReadError> {
        expr(alloc, depths, tokens)
    }
}

/// The size of the blocks that may stand after a format's word.
fn size(
    alloc: Global,
    depths: Depths,
    tokens: &[Token],
) -> Result<(Option<Expr>, &[Token]), ReadError>
    ensures { Gives (λ x. (option_map expression x.0, lexemes x.1.now)) result (read depths size (lexemes tokens.now)) }
{
    if !is_sign(tokens, Sign::Open) {
        return Ok((None, tokens));
    }
    let (size, rest) = expr(alloc, depths, skip(tokens, 1))?;
    let rest = after_sign(rest, Sign::Close)?;
    Ok((Some(size), rest))
}

/// The arrangement that may be named after ONTO.
pub(crate) fn onto(tokens: &[Token]) -> Result<(Option<Name>, &[Token]), ReadError>
    ensures { Gives (λ x. (x.0, lexemes x.1.now)) result (read Limited onto (lexemes tokens.now)) }
{
    if !is_word(tokens, b"ONTO") {
        return Ok((None, tokens));
    }
    match name(skip(tokens, 1)) {
        Ok((name, rest)) => Ok((Some(name), rest)),
        Err(why) => Err(why),
    }
}

/// What stands for the dimensions of an alignee.
pub struct Sources {}

impl Element for Sources {
    type Part = Source;

    ghost grammar = { source };

    ghost view = { source_of };

    fn read(
        _alloc: Global,
        _depths: Depths,
        tokens: &[Token],
    ) -> Result<(Source, &[Token]), ReadError> {
        if is_sign(tokens, Sign::Colon) {
            return Ok((Source::Colon, skip(tokens, 1)));
        }
        if is_sign(tokens, Sign::Star) {
            return Ok((Source::Star, skip(tokens, 1)));
        }
        match name(tokens) {
            Ok((dummy, rest)) => Ok((Source::Dummy(dummy), rest)),
            Err(why) => Err(why),
        }
    }
}

/// What stands for the dimensions of a target.
pub struct Targets {}

impl Element for Targets {
    type Part = Target;

    ghost grammar = { target };

    ghost view = { target_of };

    fn read(
        alloc: Global,
        depths: Depths,
        tokens: &[Token],
    ) -> Result<(Target, &[Token]), ReadError> {
        if is_sign(tokens, Sign::Star) {
            return Ok((Target::Star, skip(tokens, 1)));
        }
        let (subscript, rest) = subscript(alloc, depths, tokens)?;
        Ok((Target::Sub(subscript), rest))
    }
}
