//! The rules of ALIGN, whatever its alignees are (HPF 2.0, 3.4).

ghost use Rattle.std.specs.Prelude.{◌≡◌, ◌||◌, ◌&&◌, ◌++◌, map, not, option_copied, IfOk};
ghost use Rattle.std.specs.List.{flat_map, list_all, list_any};
ghost use Rattle.hpf_base.specs.declared.refusal.Reason.TheVariants as reason;
ghost use Rattle.syntax_tree.specs.Directive.{alignment, target_of};
ghost use Rattle.syntax_tree.specs.Expression.{expression, subscript, One, Range};
ghost use Rattle.expression_rules.specs.Partial.{maybe_of};
ghost use Rattle.declarations.specs.DeclarationRules.{is_invalid};
ghost use Rattle.declarations.specs.Declaring.{least_reason};
ghost use Rattle.declarations.specs.Reasons.{when};
ghost use Rattle.name_table.specs.Directives.{maybe_expressions};
ghost use Rattle.name_table.specs.Uses.{repeats};
ghost use Rattle.distribution_rules.specs.Setting.{has_kind, is_mapped_kind, object, value_in};
ghost use Rattle.alignment_rules.specs.AlignmentRules.{alignment_reasons, dummies_of_target, is_known_zero, is_zero_part, overlap, part_reasons, target_reasons};
ghost use Rattle.linear_subscripts.specs.LinearForms.{is_free};

use crate::repetitions::{has_overlap, repeats};
use crate::sources::dummies;
use distribution_rules::{Object, ObjectKind, Setting, lesser, reason_if, value_in};
use expression_rules::Evaluated;
use hpf_base::{Name, Reason};
use linear_subscripts::{
    are_same, dummies_in, has_invalid_part, has_invalid_value, is_free, is_linear,
};
use std::alloc::{AllocError, Global};
use syntax_tree::{AlignSpec, Expr, Subscript, Target};

/// The lesser of two reasons, each where its test holds.
#[tactic(auto, using(crate::proofs::PairReasons::least_of_two))]
pub(crate) fn lesser_of_two(first: bool, why: Reason, second: bool, other: Reason) -> Option<Reason>
    ensures { result ≡ least_reason (when first why ++ when second other) }
{
    lesser(reason_if(first, why), reason_if(second, other))
}

/// The value is known, and is 0.
fn is_known_zero(value: &Evaluated<i64>) -> bool
    ensures { result ≡ is_known_zero value.now }
{
    match value {
        Evaluated::Known(number) => *number == 0,
        Evaluated::Invalid | Evaluated::Unknown => false,
    }
}

/// Whether a part of a triplet is there, and is 0. An `Err` is want of memory, here and below.
fn is_zero_part(alloc: Global, setting: &Setting<'_>, e: &Option<Expr>) -> Result<bool, AllocError>
    ensures { IfOk result (λ b. b ≡ is_zero_part setting.now (maybe_of e.now)) }
{
    match e {
        None => Ok(false),
        Some(e) => {
            let value = value_in(alloc, setting, e)?;
            Ok(is_known_zero(&value))
        }
    }
}

/// Whether a part of a triplet, if it is there, names no dummy.
#[tactic(auto, using(crate::proofs::PairReasons::all_of_one))]
fn is_free_if_any(alloc: Global, dummies: &[Name], e: &Option<Expr>) -> Result<bool, AllocError>
    ensures { IfOk result (λ b. b ≡ list_all (is_free dummies.now) (maybe_expressions (maybe_of e.now))) }
{
    match e {
        None => Ok(true),
        Some(e) => {
            let free = is_free(alloc, dummies, e)?;
            Ok(free)
        }
    }
}

/// Whether a part of a triplet is there, and isn't constant or divides by zero.
#[tactic(auto, using(crate::proofs::PairReasons::any_of_one))]
fn is_invalid_if_any(
    alloc: Global,
    setting: &Setting<'_>,
    e: &Option<Expr>,
) -> Result<bool, AllocError>
    ensures { IfOk result (λ b. b ≡ list_any (λ x. is_invalid (value_in setting.now x)) (maybe_expressions (maybe_of e.now))) }
{
    match e {
        None => Ok(false),
        Some(e) => {
            let invalid = has_invalid_value(alloc, setting, e)?;
            Ok(invalid)
        }
    }
}

/// The least reason for which a triplet breaks a rule by itself.
#[tactic(auto, using(crate::proofs::PairReasons::any_append_three, expression_rules::proofs::Folds::all_append_three))]
fn triplet_reason(
    alloc: Global,
    setting: &Setting<'_>,
    dummies: &[Name],
    first: &Option<Expr>,
    last: &Option<Expr>,
    step: &Option<Expr>,
) -> Result<Option<Reason>, AllocError>
    ensures { IfOk result (λ r. r ≡ least_reason (part_reasons setting.now dummies.now (Range (maybe_of first.now) (maybe_of last.now) (maybe_of step.now)))) }
{
    let free_first = is_free_if_any(alloc, dummies, first)?;
    let free_last = is_free_if_any(alloc, dummies, last)?;
    let free_step = is_free_if_any(alloc, dummies, step)?;
    let zero = is_zero_part(alloc, setting, step)?;
    let bad_first = is_invalid_if_any(alloc, setting, first)?;
    let bad_last = is_invalid_if_any(alloc, setting, last)?;
    let bad_step = is_invalid_if_any(alloc, setting, step)?;
    let free = free_first && free_last && free_step;
    Ok(lesser_of_two(
        !free || zero,
        Reason::BadDirective,
        bad_first || bad_last || bad_step,
        Reason::BadConstant,
    ))
}

/// The least reason for which a subscript of the target breaks a rule.
fn subscript_reason(
    alloc: Global,
    setting: &Setting<'_>,
    dummies: &[Name],
    e: &Expr,
) -> Result<Option<Reason>, AllocError>
    ensures { IfOk result (λ r. r ≡ least_reason (part_reasons setting.now dummies.now (One (expression e.now)))) }
{
    let names = dummies_in(alloc, dummies, e)?;
    let linear = is_linear(alloc, dummies, e)?;
    let invalid = has_invalid_part(alloc, setting, dummies, e)?;
    Ok(lesser_of_two(
        !are_same(&names) || !linear,
        Reason::BadDirective,
        invalid,
        Reason::BadConstant,
    ))
}

/// The least reason for which a subscript or a triplet of the target breaks a rule.
fn part_reason(
    alloc: Global,
    setting: &Setting<'_>,
    dummies: &[Name],
    part: &Subscript,
) -> Result<Option<Reason>, AllocError>
    ensures { IfOk result (λ r. r ≡ least_reason (part_reasons setting.now dummies.now (subscript part.now))) }
{
    match part {
        Subscript::One(e) => subscript_reason(alloc, setting, dummies, e),
        Subscript::Triplet { first, last, step } => {
            triplet_reason(alloc, setting, dummies, first, last, step)
        }
    }
}

/// The least reason for which an entry of the target's list breaks a rule.
fn target_reason(
    alloc: Global,
    setting: &Setting<'_>,
    dummies: &[Name],
    target: &Target,
) -> Result<Option<Reason>, AllocError>
    ensures { IfOk result (λ r. r ≡ least_reason (target_reasons setting.now dummies.now (target_of target.now))) }
{
    match target {
        Target::Sub(part) => part_reason(alloc, setting, dummies, part),
        Target::Star => Ok(None),
    }
}

/// The least reason for which one of the entries of the target's list breaks a rule by itself.
fn targets_reason(
    alloc: Global,
    setting: &Setting<'_>,
    dummies: &[Name],
    targets: &[Target],
) -> Result<Option<Reason>, AllocError>
    ensures { IfOk result (λ r. r ≡ least_reason (flat_map (target_reasons setting.now dummies.now) (map target_of targets.now))) }
{
    let mut least = None;
    for target in targets {
        let found = target_reason(alloc, setting, dummies, target)?;
        least = lesser(least, found);
    }
    Ok(least)
}

/// It is an array or a template.
fn is_mapped(object: Option<&Object>) -> bool
    ensures { result ≡ has_kind is_mapped_kind (option_copied object.entry) }
{
    match object {
        None => false,
        Some(object) => !matches!(object.kind, ObjectKind::Arrangement),
    }
}

/// The least reason for which the target's list breaks a rule: also where a dummy stands in two of its entries, or where another
/// test fails.
#[tactic(auto, using(crate::proofs::PairReasons::least_with_test))]
fn list_reason(
    alloc: Global,
    setting: &Setting<'_>,
    dummies: &[Name],
    targets: &[Target],
    good: bool,
) -> Result<Option<Reason>, AllocError>
    ensures { IfOk result (λ r. r ≡ least_reason (flat_map (target_reasons setting.now dummies.now) (map target_of targets.now)
        ++ when (overlap (map (dummies_of_target dummies.now) (map target_of targets.now)) || not good) reason.BadDirective)) }
{
    let least = targets_reason(alloc, setting, dummies, targets)?;
    let overlapping = has_overlap(alloc, dummies, targets)?;
    Ok(lesser(least, reason_if(overlapping || !good, Reason::BadDirective)))
}

/// No dummy stands twice in a list, and the target is an array or a template.
fn is_good(setting: &Setting<'_>, dummies: &[Name], target: &Name) -> bool
    ensures { result ≡ (not (repeats dummies.now) && has_kind is_mapped_kind (object setting.now target.now)) }
{
    !repeats(dummies) && is_mapped(setting.object(target))
}

/// The least reason for which an ALIGN breaks a rule, whatever its alignees are; None exactly where it breaks none. An `Err` is want of memory.
#[tactic(auto, using(crate::proofs::PairReasons::tests_regrouped))]
pub fn bad_alignment(
    alloc: Global,
    setting: &Setting<'_>,
    spec: &AlignSpec,
) -> Result<Option<Reason>, AllocError>
    ensures { IfOk result (λ r. r ≡ least_reason (alignment_reasons setting.now (alignment spec.now))) }
{
    let dummies = dummies(alloc, spec)?;
    let good = is_good(setting, &dummies, &spec.target);
    match &spec.subs {
        None => Ok(reason_if(!good, Reason::BadDirective)),
        Some(targets) => {
            let least = list_reason(alloc, setting, &dummies, targets, good)?;
            Ok(least)
        }
    }
}
