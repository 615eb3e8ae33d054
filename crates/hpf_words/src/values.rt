//! What the texts say.

ghost use Rattle.hpf_base.specs.declared.limits.TheConstants.{MAX_NODES, MAX_RANK};
ghost use Rattle.std.specs.Prelude.{◌≡◌, ◌≤◌, ◌∷◌, [], Some, All, map, IfOk, IfSome, length, option_map, IsTrue, ◌↔◌};
ghost use Rattle.std.specs.List.{slice_split, list_all};
ghost use Rattle.std.specs.Char.{is_ascii_digit};
ghost use Rattle.hpf_words.specs.Jobs.{action_of, extents_of, grid_of, has_digits, is_allowed, is_x, number_of};

use crate::job::Action;
use hpf_base::{Grid, MAX_NODES};
use std::alloc::{AllocError, Global};

/// The action of this name.
pub(crate) fn action(word: &str) -> Option<Action>
    ensures { result ≡ action_of word.now }
{
    match word {
        "run" => Some(Action::Run),
        "serial" => Some(Action::Serial),
        "check" => Some(Action::Check),
        "map" => Some(Action::Map),
        "messages" => Some(Action::Messages),
        "bulk" => Some(Action::Bulk),
        _ => None,
    }
}

/// Every byte is a digit.
fn are_digits(bytes: &[u8]) -> bool
    ensures { result ≡ list_all is_ascii_digit bytes.now }
{
    bytes.iter().all(|byte| byte.is_ascii_digit())
}

/// One digit or more, and no more than so many.
fn has_digits(most: usize, text: &str) -> bool
    ensures { IsTrue result ↔ IsTrue (has_digits most text.now) }
{
    let bytes = text.as_bytes();
    if bytes.len() < 1 {
        return false;
    }
    if bytes.len() > most {
        return false;
    }
    are_digits(bytes)
}

/// The number that at most so many digits stand for, where it lies between the bounds.
pub(crate) fn number(text: &str, digits: usize, least: u32, greatest: u32) -> Option<u32>
    ensures { result ≡ number_of digits least greatest text.now }
{
    if !has_digits(digits, text) {
        return None;
    }
    match text.parse::<u32>() {
        Ok(number) => {
            if least <= number && number <= greatest {
                Some(number)
            } else {
                None
            }
        }
        Err(_) => None,
    }
}

/// The pieces between the letters `x`.
fn pieces<'a>(alloc: Global, text: &'a str) -> Result<Vec<&'a str>, AllocError>
    ensures { IfOk result (λ v. map (λ s. s.now) v.items ≡ slice_split is_x text.entry.now) }
{
    text.split('x').collect(alloc)
}

/// The extents, where each piece is one.
fn extents(alloc: Global, pieces: &[&str]) -> Result<Option<Vec<u32>>, AllocError>
    ensures { IfOk result (λ o. option_map (λ v. v.items) o ≡ extents_of (map (λ s. s.now) pieces.now)) }
{
    let mut dims = Vec::new(alloc);
    for piece in pieces {
        match number(*piece, 2, 1, MAX_NODES) {
            Some(extent) => dims.push(extent)?,
            None => return Ok(None),
        }
    }
    Ok(Some(dims))
}

/// The grid of this text, extents joined by `x`.
pub(crate) fn grid(alloc: Global, text: &str) -> Result<Option<Grid>, AllocError>
    ensures { IfOk result (λ grid. grid ≡ grid_of text.now) }
{
    let pieces = pieces(alloc, text)?;
    match extents(alloc, pieces.as_slice())? {
        Some(dims) => Ok(Grid::new(alloc, dims.as_slice())),
        None => Ok(None),
    }
}

/// The grid of one node.
pub(crate) fn one_node(alloc: Global) -> Option<Grid>
    ensures { result ≡ Some (1 ∷ []) }
{
    Grid::new(alloc, &[1])
}

/// Each option that is given is allowed with the action.
pub(crate) fn is_allowed(
    action: Action,
    threads: bool,
    size: bool,
    arrays: bool,
    fixed: bool,
) -> bool
    ensures { result ≡ is_allowed action threads size arrays fixed }
{
    (!threads || matches!(action, Action::Run | Action::Bulk))
        && (!size || matches!(action, Action::Bulk))
        && (!arrays || matches!(action, Action::Run))
        && (!fixed || !matches!(action, Action::Bulk))
}
