//! What stands for the dimensions of an align target, with the values of its expressions (HPF 2.0, 3.4).

ghost use Rattle.std.specs.Prelude.{◌≡◌, ◌∷◌, ◌++◌, [], map, drop, IfOk, OnOk};
ghost use Rattle.syntax_tree.specs.Directive.{alignment, target_of};
ghost use Rattle.syntax_tree.specs.Expression.{expression, subscript};
ghost use Rattle.expression_rules.specs.Partial.{maybe_of};
ghost use Rattle.declarations.specs.Declarations.{if_known};
ghost use Rattle.distribution_rules.specs.Setting.{dims_of};
ghost use Rattle.alignment_rules.specs.TargetParts.{full_value};
ghost use Rattle.linear_subscripts.specs.LinearForms.{dummies_in, linear_form};
ghost use Rattle.alignment_rules.specs.AlignmentValues.{first_dim, first_name, lower_of, part_or, part_value, target_value, target_values, upper_of, values_from};

use crate::alignment_values::{TargetValue, TargetValues};
use crate::sources::dummies;
use distribution_rules::{Setting, dims_of, value_in};
use expression_rules::{Dim, Evaluated};
use hpf_base::Name;
use linear_subscripts::{dummies_in, linear_form};
use std::alloc::{AllocError, Global};
use syntax_tree::{AlignSpec, Expr, Subscript, Target};

/// The first of names.
fn first_name(names: &[Name]) -> Option<Name>
    ensures { result ≡ first_name names.now }
{
    names.first().copied()
}

/// The lower bound of a dimension, where it is known.
fn lower_of(dim: Option<Dim>) -> Option<i64>
    ensures { result ≡ lower_of dim }
{
    match dim {
        None => None,
        Some(dim) => Some(dim.lower),
    }
}

/// The upper bound of a dimension, where it is known.
fn upper_of(dim: Option<Dim>) -> Option<i64>
    ensures { result ≡ upper_of dim }
{
    match dim {
        None => None,
        Some(dim) => Some(dim.upper),
    }
}

/// The value, where it is known.
fn if_known(value: Evaluated<i64>) -> Option<i64>
    ensures { result ≡ if_known value }
{
    match value {
        Evaluated::Known(number) => Some(number),
        Evaluated::Invalid | Evaluated::Unknown => None,
    }
}

/// A part of a triplet, where it is known; where it is left out, another number stands for it. An `Err` is want of memory, here and below.
fn part_or(
    alloc: Global,
    setting: &Setting<'_>,
    other: Option<i64>,
    e: &Option<Expr>,
) -> Result<Option<i64>, AllocError>
    ensures { IfOk result (λ n. n ≡ part_or setting.now other (maybe_of e.now)) }
{
    match e {
        None => Ok(other),
        Some(e) => {
            let value = value_in(alloc, setting, e)?;
            Ok(if_known(value))
        }
    }
}

/// What a subscript stands for.
fn subscript_value(
    alloc: Global,
    setting: &Setting<'_>,
    dummies: &[Name],
    e: &Expr,
) -> Result<TargetValue, AllocError>
    ensures { IfOk result (λ v. v ≡ TargetValue.Subscript (first_name (dummies_in dummies.now (expression e.now))) (linear_form setting.now dummies.now (expression e.now))) }
{
    let names = dummies_in(alloc, dummies, e)?;
    let form = linear_form(alloc, setting, dummies, e)?;
    Ok(TargetValue::Subscript(first_name(&names), form))
}

/// What stands for a dimension of the target of these bounds.
fn part_value(
    alloc: Global,
    setting: &Setting<'_>,
    dummies: &[Name],
    bounds: Option<Dim>,
    part: &Subscript,
) -> Result<TargetValue, AllocError>
    ensures { IfOk result (λ v. v ≡ part_value setting.now dummies.now bounds (subscript part.now)) }
{
    match part {
        Subscript::One(e) => subscript_value(alloc, setting, dummies, e),
        Subscript::Triplet { first, last, step } => {
            let first = part_or(alloc, setting, lower_of(bounds), first)?;
            let last = part_or(alloc, setting, upper_of(bounds), last)?;
            let step = part_or(alloc, setting, Some(1), step)?;
            Ok(TargetValue::Triplet(first, last, step))
        }
    }
}

/// What an entry of the target's list stands for, in a dimension of these bounds.
fn target_value(
    alloc: Global,
    setting: &Setting<'_>,
    dummies: &[Name],
    bounds: Option<Dim>,
    target: &Target,
) -> Result<TargetValue, AllocError>
    ensures { IfOk result (λ v. v ≡ target_value setting.now dummies.now bounds (target_of target.now)) }
{
    match target {
        Target::Sub(part) => part_value(alloc, setting, dummies, bounds, part),
        Target::Star => Ok(TargetValue::Every),
    }
}

/// The bounds of a dimension, where there is such a dimension and they are known.
pub(crate) fn dim_from(bounds: &[Option<Dim>], place: usize) -> Option<Dim>
    ensures { result ≡ first_dim (drop place bounds.now) }
{
    if place < bounds.len() {
        bounds[place]
    } else {
        None
    }
}

/// What stands for a dimension of the target of these bounds more.
fn push_value(
    values: &mut Vec<TargetValue>,
    alloc: Global,
    setting: &Setting<'_>,
    dummies: &[Name],
    bounds: Option<Dim>,
    target: &Target,
) -> Result<(), AllocError>
    ensures { OnOk result (values.new.items ≡ values.old.items ++ target_value setting.now dummies.now bounds (target_of target.now) ∷ []) }
{
    let value = target_value(alloc, setting, dummies, bounds, target)?;
    values.push(value)?;
    Ok(())
}

/// What stands for the dimensions of these bounds, by the entries of the target's list.
fn listed_values(
    alloc: Global,
    setting: &Setting<'_>,
    dummies: &[Name],
    bounds: &[Option<Dim>],
    targets: &[Target],
) -> Result<Vec<TargetValue>, AllocError>
    ensures { IfOk result (λ vs. vs.items ≡ values_from setting.now dummies.now bounds.now (map target_of targets.now)) }
{
    let mut values = Vec::new(alloc);
    let mut place = 0;
    for target in targets {
        let dim = dim_from(bounds, place);
        push_value(&mut values, alloc, setting, dummies, dim, target)?;
        place += 1;
    }
    Ok(values)
}

/// What stands for the dimensions of the target where its list is left out: `:` in each.
fn full_values(
    alloc: Global,
    setting: &Setting<'_>,
    target: &Name,
) -> Result<Vec<TargetValue>, AllocError>
    ensures { IfOk result (λ vs. vs.items ≡ map full_value (dims_of setting.now target.now)) }
{
    let bounds = dims_of(setting, target);
    let mut values = Vec::new(alloc);
    for dim in bounds {
        values.push(full_value(*dim))?;
    }
    Ok(values)
}

/// What `:` stands for in a dimension of these bounds.
fn full_value(dim: Option<Dim>) -> TargetValue
    ensures { result ≡ full_value dim }
{
    TargetValue::Triplet(lower_of(dim), upper_of(dim), Some(1))
}

/// What stands for each dimension of the target, with the values of its expressions. An `Err` is want of memory.
#[tactic(auto, using(crate::proofs::TargetLists::full_list))]
pub fn target_values(
    alloc: Global,
    setting: &Setting<'_>,
    spec: &AlignSpec,
) -> Result<TargetValues, AllocError>
    ensures { IfOk result (λ vs. vs ≡ target_values setting.now (alignment spec.now)) }
{
    match &spec.subs {
        None => {
            let values = full_values(alloc, setting, &spec.target)?;
            Ok(TargetValues::new(values))
        }
        Some(targets) => {
            let dummies = dummies(alloc, spec)?;
            let bounds = dims_of(setting, &spec.target);
            let values = listed_values(alloc, setting, &dummies, bounds, targets)?;
            Ok(TargetValues::new(values))
        }
    }
}
