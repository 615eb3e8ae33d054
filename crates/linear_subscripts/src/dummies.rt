//! The align dummies that expressions name (HPF 2.0, 3.4).

ghost use Rattle.std.specs.Prelude.{◌≡◌, ◌∷◌, ◌++◌, [], filter, IfOk, OnOk};
ghost use Rattle.syntax_tree.specs.Expression.{arguments_of, expression, parts_of, subscript};
ghost use Rattle.expression_rules.specs.Operands.{names_in_maybe, names_in_part, names_in_parts};
ghost use Rattle.expression_rules.specs.Partial.{maybe_of};
ghost use Rattle.expression_rules.specs.Symbols.{is_among};
ghost use Rattle.linear_subscripts.specs.LinearForms.{dummies_in, is_free};

use expression_rules::is_among;
use hpf_base::Name;
use std::alloc::{AllocError, Global};
use syntax_tree::{Expr, Ref, Subscript};

/// The dummies that an expression names, in the order of the text. An `Err` is want of memory.
pub fn dummies_in(alloc: Global, dummies: &[Name], e: &Expr) -> Result<Vec<Name>, AllocError>
    ensures { IfOk result (λ xs. xs.items ≡ dummies_in dummies.now (expression e.now)) }
{
    let mut found = Vec::new(alloc);
    push_dummies(&mut found, dummies, e)?;
    Ok(found)
}

/// Whether an expression names no dummy. An `Err` is want of memory.
#[tactic(auto, using(crate::proofs::FoundNames::none_found))]
pub fn is_free(alloc: Global, dummies: &[Name], e: &Expr) -> Result<bool, AllocError>
    ensures { IfOk result (λ b. b ≡ is_free dummies.now (expression e.now)) }
{
    let found = dummies_in(alloc, dummies, e)?;
    Ok(found.is_empty())
}

/// A name more, where it is a dummy.
fn push_name(found: &mut Vec<Name>, dummies: &[Name], name: &Name) -> Result<(), AllocError>
    ensures { OnOk result (found.new.items ≡ found.old.items ++ filter (λ x. is_among x dummies.now) (name.now ∷ [])) }
{
    if is_among(name, dummies) {
        found.push(*name)?;
    }
    Ok(())
}

/// The dummies of an expression after those that were found before. An `Err` is want of memory; the list is then of no use.
#[cycle(dummies)]
#[tactic(auto, using(crate::proofs::FoundNames::filter_two))]
pub fn push_dummies(found: &mut Vec<Name>, dummies: &[Name], e: &Expr) -> Result<(), AllocError>
    ensures { OnOk result (found.new.items ≡ found.old.items ++ dummies_in dummies.now (expression e.now)) }
{
    match e {
        Expr::Int(_) | Expr::Bool(_) => Ok(()),
        Expr::Ref(reference) => push_reference(found, dummies, reference),
        Expr::Unary(_, a) => push_dummies(found, dummies, a),
        Expr::Binary(_, a, b) => {
            push_dummies(found, dummies, a)?;
            push_dummies(found, dummies, b)?;
            Ok(())
        }
        Expr::Call(_, arguments) => {
            push_arguments(found, dummies, arguments)?;
            Ok(())
        }
        Expr::Paren(a) => push_dummies(found, dummies, a),
    }
}

/// The dummies of a name and the subscripts after it, after those that were found before.
#[cycle(dummies)]
fn push_reference(
    found: &mut Vec<Name>,
    dummies: &[Name],
    reference: &Ref,
) -> Result<(), AllocError>
    ensures { OnOk result (found.new.items ≡ found.old.items ++ dummies_in dummies.now (expression (Expr.Ref reference.now))) }
{
    push_name(found, dummies, &reference.name)?;
    match &reference.subs {
        None => Ok(()),
        Some(parts) => {
            push_subscripts(found, dummies, parts)?;
            Ok(())
        }
    }
}

/// The dummies of arguments after those that were found before.
#[cycle(dummies)]
fn push_arguments(
    found: &mut Vec<Name>,
    dummies: &[Name],
    arguments: &[Expr],
) -> Result<(), AllocError>
    ensures { OnOk result (found.new.items ≡ found.old.items ++ filter (λ x. is_among x dummies.now) (names_in_parts (arguments_of arguments.now))) }
{
    for argument in arguments {
        push_dummies(found, dummies, argument)?;
    }
    Ok(())
}

/// The dummies of subscripts after those that were found before.
#[cycle(dummies)]
fn push_subscripts(
    found: &mut Vec<Name>,
    dummies: &[Name],
    parts: &[Subscript],
) -> Result<(), AllocError>
    ensures { OnOk result (found.new.items ≡ found.old.items ++ filter (λ x. is_among x dummies.now) (names_in_parts (parts_of parts.now))) }
{
    for part in parts {
        push_part(found, dummies, part)?;
    }
    Ok(())
}

/// The dummies of a subscript or of a triplet after those that were found before.
#[cycle(dummies)]
fn push_part(found: &mut Vec<Name>, dummies: &[Name], part: &Subscript) -> Result<(), AllocError>
    ensures { OnOk result (found.new.items ≡ found.old.items ++ filter (λ x. is_among x dummies.now) (names_in_part (subscript part.now))) }
{
    match part {
        Subscript::One(e) => push_dummies(found, dummies, e),
        Subscript::Triplet { first, last, step } => {
            push_if_any(found, dummies, first)?;
            push_if_any(found, dummies, last)?;
            push_if_any(found, dummies, step)?;
            Ok(())
        }
    }
}

/// The dummies of an expression that may be there, after those that were found before.
#[cycle(dummies)]
fn push_if_any(found: &mut Vec<Name>, dummies: &[Name], e: &Option<Expr>) -> Result<(), AllocError>
    ensures { OnOk result (found.new.items ≡ found.old.items ++ filter (λ x. is_among x dummies.now) (names_in_maybe (maybe_of e.now))) }
{
    match e {
        None => Ok(()),
        Some(e) => push_dummies(found, dummies, e),
    }
}
