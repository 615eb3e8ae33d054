//! The rules of REDISTRIBUTE (HPF 2.0, 8.3).

ghost use Rattle.std.specs.Prelude.{◌≡◌, IfOk};
ghost use Rattle.std.specs.List.{flat_map};
ghost use Rattle.hpf_base.specs.FirstBreach.{least};
ghost use Rattle.syntax_tree.specs.Directive.{distribution, names_of};
ghost use Rattle.syntax_tree.specs.Statement.{block_of};
ghost use Rattle.declarations.specs.Declaring.{least_reason};
ghost use Rattle.statement_walk.specs.Heads.{all_heads};
ghost use Rattle.statement_walk.specs.Views.{head_of};
ghost use Rattle.directive_check.specs.MappingRules.{head_reasons, redistribute_breaches_at, redistribute_reasons, redistributee_reasons};
ghost use Rattle.directive_check.specs.MappedSteps.{mapped};

use crate::chains::is_aligned;
use crate::declared_rules::{distribute_reason, unnamed};
use crate::mapped_object::MappedObject;
use distribution_rules::{Setting, lesser, reason_if};
use expression_rules::is_among;
use hpf_base::{Name, Reason, Refusal, at_line};
use statement_walk::{Head, Judge, first_bad};
use std::alloc::{AllocError, Global};
use syntax_tree::{DistSpec, Stmt};

/// Judges the REDISTRIBUTEs among the statements.
#[derive(Clone, Copy)]
struct Redistributes<'a> {
    setting: &'a Setting<'a>,
    objects: &'a [MappedObject<'a>],
    dynamic: &'a [Name],
}

impl<'a> Judge for Redistributes<'a> {
    ghost use Rattle.directive_check.specs.MappingRules.{redistribute_breaches_at};
    ghost use Rattle.directive_check.specs.MappedSteps.{mapped};

    ghost breaches = { λ j p. redistribute_breaches_at j.setting.now (mapped j.objects.now) j.dynamic.now p };

    fn judge(
        &self,
        alloc: Global,
        line: u32,
        _do_variables: &[Name],
        head: Head<'_>,
    ) -> Result<Option<Refusal>, AllocError> {
        let reason = head_reason(alloc, self.setting, self.objects, self.dynamic, head)?;
        Ok(at_line(line, reason))
    }
}

/// The first of the REDISTRIBUTEs that breaks a rule, where these objects are mapped and these are DYNAMIC. An `Err` is want of memory,
/// here and below.
pub(crate) fn first_bad_redistribute(
    alloc: Global,
    setting: &Setting<'_>,
    objects: &[MappedObject<'_>],
    dynamic: &[Name],
    stmts: &[Stmt],
) -> Result<Option<Refusal>, AllocError>
    ensures { IfOk result (λ r. r ≡ least (flat_map (redistribute_breaches_at setting.now (mapped objects.now) dynamic.now) (all_heads (block_of stmts.now)))) }
{
    let judge = Redistributes {
        setting,
        objects,
        dynamic,
    };
    first_bad(alloc, &judge, stmts)
}

/// The least reason for which a statement breaks a rule.
fn head_reason(
    alloc: Global,
    setting: &Setting<'_>,
    objects: &[MappedObject<'_>],
    dynamic: &[Name],
    head: Head<'_>,
) -> Result<Option<Reason>, AllocError>
    ensures { IfOk result (λ r. r ≡ least_reason (head_reasons setting.now (mapped objects.now) dynamic.now (head_of head.entry))) }
{
    match head {
        Head::Redistribute(spec) => { redistribute_reason(alloc, setting, objects, dynamic, spec) }
        _ => Ok(None),
    }
}

/// The least reason for which a REDISTRIBUTE breaks a rule.
#[tactic(auto, using(declarations::proofs::LeastReasons::least_reason_append))]
fn redistribute_reason(
    alloc: Global,
    setting: &Setting<'_>,
    objects: &[MappedObject<'_>],
    dynamic: &[Name],
    spec: &DistSpec,
) -> Result<Option<Reason>, AllocError>
    ensures { IfOk result (λ r. r ≡ least_reason (redistribute_reasons setting.now (mapped objects.now) dynamic.now (distribution spec.now))) }
{
    let own = distribute_reason(alloc, setting, spec)?;
    let named = redistributees_reason(objects, dynamic, spec.colons, spec.names.as_slice());
    Ok(lesser(own, named))
}

/// The reason for which one of the objects of a REDISTRIBUTE isn't redistributed: of the names after `::`, or of the one name
/// before the formats.
fn redistributees_reason(
    objects: &[MappedObject<'_>],
    dynamic: &[Name],
    colons: bool,
    names: &[Name],
) -> Option<Reason>
    ensures { result ≡ least_reason (flat_map (redistributee_reasons (mapped objects.now) dynamic.now) (names_of colons names.now)) }
{
    if colons {
        return listed_redistributees_reason(objects, dynamic, names);
    }
    match names {
        [name] => redistributee_reason(objects, dynamic, name),
        _ => {
            unnamed(dynamic);
            Some(Reason::BadDirective)
        }
    }
}

/// The reason for which one of the objects with these names isn't redistributed.
fn listed_redistributees_reason(
    objects: &[MappedObject<'_>],
    dynamic: &[Name],
    names: &[Name],
) -> Option<Reason>
    ensures { result ≡ least_reason (flat_map (redistributee_reasons (mapped objects.now) dynamic.now) names.now) }
{
    let mut least = None;
    for name in names {
        least = lesser(least, redistributee_reason(objects, dynamic, name));
    }
    least
}

/// The reason for which an object isn't redistributed.
#[tactic(auto, using(declarations::proofs::LeastReasons::least_reason_when))]
fn redistributee_reason(
    objects: &[MappedObject<'_>],
    dynamic: &[Name],
    name: &Name,
) -> Option<Reason>
    ensures { result ≡ least_reason (redistributee_reasons (mapped objects.now) dynamic.now name.now) }
{
    let bad = !is_among(name, dynamic) | is_aligned(objects, name);
    reason_if(bad, Reason::BadDirective)
}
