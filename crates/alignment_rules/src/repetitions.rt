//! Align dummies that stand twice (HPF 2.0, 3.4).

ghost use Rattle.std.specs.Prelude.{◌≡◌, ◌++◌, map, IfOk, OnOk};
ghost use Rattle.std.specs.List.{flat_map, list_any};
ghost use Rattle.syntax_tree.specs.Directive.{target_of};
ghost use Rattle.syntax_tree.specs.Expression.{subscript};
ghost use Rattle.expression_rules.specs.Partial.{maybe_of};
ghost use Rattle.name_table.specs.Directives.{maybe_expressions, part_expressions};
ghost use Rattle.name_table.specs.Uses.{repeats};
ghost use Rattle.alignment_rules.specs.AlignmentRules.{dummies_of_target, overlap};
ghost use Rattle.linear_subscripts.specs.LinearForms.{dummies_in, have_common};

use expression_rules::is_among;
use hpf_base::Name;
use linear_subscripts::push_dummies;
use std::alloc::{AllocError, Global};
use std::marker::Model;
use syntax_tree::{Expr, Subscript, Target};

/// Whether a name stands twice in a list.
#[tactic(auto, using(crate::proofs::PairReasons::or_assoc))]
pub(crate) fn repeats(names: &[Name]) -> bool
    ensures { result ≡ repeats names.now }
{
    let mut found = false;
    let mut place = 0;
    for name in names {
        place += 1;
        found |= is_among(name, &names[place..]);
    }
    found
}

/// The dummies of an entry of a target's list. Contracts see their list.
#[derive(Drop)]
struct TargetDummies {
    names: Vec<Name>,
}

impl Model for TargetDummies {
    ghost use Rattle.std.specs.Prelude.{List, ℕ};

    ghost Value = { List (List ℕ) };

    ghost view = { λ t. t.names.items };
}

/// The dummies of a part of a triplet more, if it is there.
#[tactic(auto, using(crate::proofs::PairReasons::flat_one))]
fn push_if_any(found: &mut Vec<Name>, dummies: &[Name], e: &Option<Expr>) -> Result<(), AllocError>
    ensures { OnOk result (found.new.items ≡ found.old.items ++ flat_map (dummies_in dummies.now) (maybe_expressions (maybe_of e.now))) }
{
    match e {
        None => Ok(()),
        Some(e) => {
            push_dummies(found, dummies, e)?;
            Ok(())
        }
    }
}

/// The dummies of a subscript or a triplet more.
#[tactic(auto, using(crate::proofs::PairReasons::flat_one))]
fn push_part(found: &mut Vec<Name>, dummies: &[Name], part: &Subscript) -> Result<(), AllocError>
    ensures { OnOk result (found.new.items ≡ found.old.items ++ flat_map (dummies_in dummies.now) (part_expressions (subscript part.now))) }
{
    match part {
        Subscript::One(e) => {
            push_dummies(found, dummies, e)?;
            Ok(())
        }
        Subscript::Triplet { first, last, step } => {
            push_if_any(found, dummies, first)?;
            push_if_any(found, dummies, last)?;
            push_if_any(found, dummies, step)?;
            Ok(())
        }
    }
}

/// The dummies of an entry. An `Err` is want of memory, here and below.
fn target_dummies(
    alloc: Global,
    dummies: &[Name],
    target: &Target,
) -> Result<TargetDummies, AllocError>
    ensures { IfOk result (λ t. t ≡ dummies_of_target dummies.now (target_of target.now)) }
{
    let mut names = Vec::new(alloc);
    match target {
        Target::Star => Ok(TargetDummies { names }),
        Target::Sub(part) => {
            push_part(&mut names, dummies, part)?;
            Ok(TargetDummies { names })
        }
    }
}

/// Two lists have a name in common.
#[tactic(auto, using(crate::proofs::PairReasons::or_assoc))]
fn have_common(names: &[Name], others: &[Name]) -> bool
    ensures { result ≡ have_common names.now others.now }
{
    let mut found = false;
    for name in names {
        found |= is_among(name, others);
    }
    found
}

/// One of several lists has a name in common with another.
#[tactic(auto, using(crate::proofs::PairReasons::or_assoc))]
fn any_has_common(names: &[Name], lists: &[TargetDummies]) -> bool
    ensures { result ≡ list_any (have_common names.now) lists.now }
{
    let mut found = false;
    for list in lists {
        found |= have_common(names, &list.names);
    }
    found
}

/// Two of several lists have a name in common.
#[tactic(auto, using(crate::proofs::PairReasons::or_assoc))]
fn overlap(lists: &[TargetDummies]) -> bool
    ensures { result ≡ overlap lists.now }
{
    let mut found = false;
    let mut place = 0;
    for list in lists {
        place += 1;
        found |= any_has_common(&list.names, &lists[place..]);
    }
    found
}

/// Whether a dummy stands in two entries.
pub(crate) fn has_overlap(
    alloc: Global,
    dummies: &[Name],
    targets: &[Target],
) -> Result<bool, AllocError>
    ensures { IfOk result (λ b. b ≡ overlap (map (dummies_of_target dummies.now) (map target_of targets.now))) }
{
    let mut lists = Vec::new(alloc);
    for target in targets {
        let list = target_dummies(alloc, dummies, target)?;
        lists.push(list)?;
    }
    Ok(overlap(&lists))
}
