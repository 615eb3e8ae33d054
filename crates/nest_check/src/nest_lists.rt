//! The lists of INDEPENDENT (HPF 2.0, 5.1).

ghost use Rattle.std.specs.Prelude.{◌≡◌, ◌&&◌, not, IfOk};
ghost use Rattle.std.specs.List.{list_all};
ghost use Rattle.expression_rules.specs.Symbols.{is_among};
ghost use Rattle.syntax_tree.specs.Statement.{independent};
ghost use Rattle.nest_check.specs.NestRules.{are_well_listed, is_well_listed};

use crate::nest_names::NestNames;
use expression_rules::is_among;
use hpf_base::Name;
use std::alloc::{AllocError, Global};
use syntax_tree::Mark;

/// The lists of a directive keep the rules. An `Err` is want of memory.
pub(crate) fn are_well_listed(
    alloc: Global,
    names: &NestNames<'_>,
    mark: &Mark,
) -> Result<bool, AllocError>
    ensures { IfOk result (λ b. b ≡ are_well_listed names.now (independent mark.now)) }
{
    let new = names.new_with(alloc, mark)?;
    let reduction = names.reduction_with(alloc, mark)?;
    Ok(
        all_well_listed(names, &new, &reduction, mark.new.as_slice())
            && all_well_listed(names, &new, &reduction, mark.reduction.as_slice())
            && no_index(names, mark.reduction.as_slice()),
    )
}

/// Each name is a scalar variable that doesn't stand in both lists.
fn all_well_listed(names: &NestNames<'_>, new: &[Name], reduction: &[Name], listed: &[Name]) -> bool
    ensures { result ≡ list_all (is_well_listed names.now new.now reduction.now) listed.now }
{
    let mut all = true;
    for name in listed {
        all &= is_well_listed(names, new, reduction, name);
    }
    all
}

/// The name is that of a scalar variable and doesn't stand in both lists.
fn is_well_listed(names: &NestNames<'_>, new: &[Name], reduction: &[Name], name: &Name) -> bool
    ensures { result ≡ is_well_listed names.now new.now reduction.now name.now }
{
    names.is_scalar(name) && !(is_among(name, new) && is_among(name, reduction))
}

/// None of the names is an index.
fn no_index(names: &NestNames<'_>, listed: &[Name]) -> bool
    ensures { result ≡ list_all (λ x. not (is_among x names.now.indices)) listed.now }
{
    let mut all = true;
    for name in listed {
        all &= !names.is_index(name);
    }
    all
}
