//! Constants that are arrays.

ghost use Rattle.std.specs.Prelude.{◌≡◌, ◌||◌, is_some, map, option_map};
ghost use Rattle.std.specs.List.{list_any};
ghost use Rattle.line_forms.specs.Gives.{Gives};
ghost use Rattle.line_forms.specs.Parts.{bound_of};
ghost use Rattle.line_forms.specs.Read.{after_marks};
ghost use Rattle.statement_reader.specs.Forms.{parameter_key};
ghost use Rattle.statement_reader.specs.Gives.{GivesWhole};
ghost use Rattle.statement_reader.specs.Reading.{constant_array, has_bounds};
ghost use Rattle.statement_reader.specs.Views.{entity_of};
ghost use Rattle.syntax_tree.specs.Lexeme.{lexemes};

use crate::declaration::constants;
use crate::lists::Entities;
use crate::word_lines::is_end;
use line_forms::{Depths, ReadError, after_word, attribute, skip};
use source_lines::Token;
use std::alloc::Global;
use syntax_tree::{Bound, Entity};

/// Whether an INTEGER with PARAMETER, its values and the depth of its expressions aside, declares arrays.
pub(crate) fn constant_array(alloc: Global, tokens: &[Token]) -> Result<bool, ReadError>
    ensures { GivesWhole (λ b. b) result (constant_array (lexemes tokens.now)) }
{
    let rest = after_word(tokens, b"INTEGER")?;
    let rest = after_parameter(rest)?;
    let ((dims, entities), rest) = constants::<Entities>(alloc, Depths::Any, rest)?;
    if !is_end(rest) {
        return Err(ReadError::Malformed);
    }
    Ok(has_bounds(&dims, &entities))
}

/// The tokens after the attribute PARAMETER.
fn after_parameter(tokens: &[Token]) -> Result<&[Token], ReadError>
    ensures { Gives (λ x. (tt, lexemes x.now)) result (after_marks parameter_key (lexemes tokens.now)) }
{
    if !attribute(tokens, b"PARAMETER") {
        return Err(ReadError::Malformed);
    }
    Ok(skip(tokens, 2))
}

/// Whether bounds stand after DIMENSION or after an entity.
fn has_bounds(dims: &Option<Vec<Bound>>, entities: &[Entity]) -> bool
    ensures { result ≡ has_bounds (option_map (λ v. map bound_of v.items) dims.now, map entity_of entities.now) }
{
    dims.is_some() || any_bounds(entities)
}

/// Whether an entity has bounds of its own.
fn any_bounds(entities: &[Entity]) -> bool
    ensures { result ≡ list_any (λ e. is_some e.1.0) (map entity_of entities.now) }
{
    entities.iter().any(|entity| entity.dims.is_some())
}
