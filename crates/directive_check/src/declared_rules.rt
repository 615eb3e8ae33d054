//! The rules of the directives among the declarations (HPF 2.0, 3).

ghost use Rattle.std.specs.Prelude.{◌≡◌, ◌∷◌, [], false, find, bytes_eq, map, None, IfOk};
ghost use Rattle.std.specs.List.{flat_map};
ghost use Rattle.hpf_base.specs.FirstBreach.{least};
ghost use Rattle.syntax_tree.specs.Directive.{alignment, directive_of, distribution, names_of};
ghost use Rattle.syntax_tree.specs.MainProgram.{Directed, declaration, declared_of};
ghost use Rattle.expression_rules.specs.Symbols.{is_among};
ghost use Rattle.declarations.specs.Declaring.{least_reason};
ghost use Rattle.distribution_rules.specs.DistributionRules.{distribute_reasons, distributee_reasons};
ghost use Rattle.distribution_rules.specs.Setting.{object};
ghost use Rattle.alignment_rules.specs.AlignmentRules.{align_reasons, alignee_reasons};
ghost use Rattle.alignment_rules.specs.AlignmentValues.{target_values};
ghost use Rattle.directive_check.specs.MappingRules.{declared_breaches, declared_reasons};

use alignment_rules::{TargetValues, bad_alignee, bad_alignment, target_values};
use distribution_rules::{
    DistributionValues, Object, Setting, bad_distributee, bad_distribution, bad_space,
    distribution_values, lesser,
};
use hpf_base::{Name, Reason, Refusal, at_line, earlier};
use std::alloc::{AllocError, Global};
use syntax_tree::{AlignSpec, Decl, DeclKind, Directive, DistSpec};

/// The first of what is wrong with the directives among the declarations, each by itself. An `Err` is want of memory, here and below.
pub(crate) fn first_bad_directive(
    alloc: Global,
    setting: &Setting<'_>,
    decls: &[Decl],
) -> Result<Option<Refusal>, AllocError>
    ensures { IfOk result (λ r. r ≡ least (declared_breaches setting.now (map declaration decls.now))) }
{
    let mut first = None;
    for decl in decls {
        let reason = declared_reason(alloc, setting, decl)?;
        first = earlier(first, at_line(decl.line, reason));
    }
    Ok(first)
}

/// The least reason for which a declaration breaks a rule of mapping directives.
fn declared_reason(
    alloc: Global,
    setting: &Setting<'_>,
    decl: &Decl,
) -> Result<Option<Reason>, AllocError>
    ensures { IfOk result (λ r. r ≡ least_reason (declared_reasons setting.now (declared_of decl.now.what))) }
{
    match &decl.what {
        DeclKind::Directive(directive) => directive_reason(alloc, setting, directive),
        DeclKind::ImplicitNone | DeclKind::Integer(_) | DeclKind::Parameter(_) => Ok(None),
    }
}

/// The least reason for which a directive breaks a rule of mapping directives.
fn directive_reason(
    alloc: Global,
    setting: &Setting<'_>,
    directive: &Directive,
) -> Result<Option<Reason>, AllocError>
    ensures { IfOk result (λ r. r ≡ least_reason (declared_reasons setting.now (Directed (directive_of directive.now)))) }
{
    match directive {
        Directive::Distribute(spec) => distribute_reason(alloc, setting, spec),
        Directive::Align(spec) => align_reason(alloc, setting, spec),
        Directive::Processors(_)
        | Directive::Template(_)
        | Directive::Dynamic(_)
        | Directive::Passed => bad_space(alloc, setting, directive),
    }
}

/// The least reason for which a DISTRIBUTE or REDISTRIBUTE breaks a rule.
#[tactic(auto, using(declarations::proofs::LeastReasons::least_reason_append))]
pub(crate) fn distribute_reason(
    alloc: Global,
    setting: &Setting<'_>,
    spec: &DistSpec,
) -> Result<Option<Reason>, AllocError>
    ensures { IfOk result (λ r. r ≡ least_reason (distribute_reasons setting.now (distribution spec.now))) }
{
    let values = distribution_values(alloc, setting, spec)?;
    let named = distributees_reason(setting, &values, spec.colons, spec.names.as_slice());
    Ok(lesser(bad_distribution(&values), named))
}

/// The least reason for which a distributee breaks a rule: one of the names after `::`, or the one name before the formats.
fn distributees_reason(
    setting: &Setting<'_>,
    values: &DistributionValues,
    colons: bool,
    names: &[Name],
) -> Option<Reason>
    ensures { result ≡ least_reason (flat_map (λ x. distributee_reasons values.now (object setting.now x)) (names_of colons names.now)) }
{
    if colons {
        listed_distributees_reason(setting, values, names)
    } else {
        one_distributee_reason(setting, values, names)
    }
}

/// The least reason for which the one distributee of these names breaks a rule; where there isn't exactly one, as in no text,
/// that of a name without bytes.
fn one_distributee_reason(
    setting: &Setting<'_>,
    values: &DistributionValues,
    names: &[Name],
) -> Option<Reason>
    ensures { result ≡ least_reason (flat_map (λ x. distributee_reasons values.now (object setting.now x)) (names_of false names.now)) }
{
    match names {
        [name] => bad_distributee(values, setting.object(name)),
        _ => {
            unnamed_object(setting.objects());
            bad_distributee(values, None)
        }
    }
}

/// The least reason for which one of these names breaks a rule as a distributee.
fn listed_distributees_reason(
    setting: &Setting<'_>,
    values: &DistributionValues,
    names: &[Name],
) -> Option<Reason>
    ensures { result ≡ least_reason (flat_map (λ x. distributee_reasons values.now (object setting.now x)) names.now) }
{
    let mut least = None;
    for name in names {
        least = lesser(least, bad_distributee(values, setting.object(name)));
    }
    least
}

/// A name without bytes, which no text spells, is that of no object.
fn unnamed_object(objects: &[Object])
    ensures { find (λ o. bytes_eq [] o.name) objects.now ≡ None }
{
    for object in objects {
        let _ = object.name.bytes();
    }
}

/// A name without bytes is none of these names.
pub(crate) fn unnamed(names: &[Name])
    ensures { is_among [] names.now ≡ false }
{
    for name in names {
        let _ = name.bytes();
    }
}

/// The least reason for which an ALIGN breaks a rule.
#[tactic(auto, using(declarations::proofs::LeastReasons::least_reason_append))]
pub(crate) fn align_reason(
    alloc: Global,
    setting: &Setting<'_>,
    spec: &AlignSpec,
) -> Result<Option<Reason>, AllocError>
    ensures { IfOk result (λ r. r ≡ least_reason (align_reasons setting.now (alignment spec.now))) }
{
    let own = bad_alignment(alloc, setting, spec)?;
    let values = target_values(alloc, setting, spec)?;
    let named = alignees_reason(alloc, setting, spec, &values)?;
    Ok(lesser(own, named))
}

/// The least reason for which an alignee breaks a rule: one of the names after `::`, or the one name before the entries.
fn alignees_reason(
    alloc: Global,
    setting: &Setting<'_>,
    spec: &AlignSpec,
    values: &TargetValues,
) -> Result<Option<Reason>, AllocError>
    requires { values.now ≡ target_values setting.now (alignment spec.now) }
    ensures { IfOk result (λ r. r ≡ least_reason (flat_map (alignee_reasons setting.now (alignment spec.now)) (names_of spec.now.colons spec.now.names))) }
{
    let names = spec.names.as_slice();
    if spec.colons {
        let found = listed_alignees_reason(alloc, setting, spec, values, names)?;
        Ok(found)
    } else {
        let found = one_alignee_reason(alloc, setting, spec, values, names)?;
        Ok(found)
    }
}

/// The least reason for which the one alignee of these names breaks a rule; where there isn't exactly one, as in no text,
/// that of a name without bytes.
fn one_alignee_reason(
    alloc: Global,
    setting: &Setting<'_>,
    spec: &AlignSpec,
    values: &TargetValues,
    names: &[Name],
) -> Result<Option<Reason>, AllocError>
    requires { values.now ≡ target_values setting.now (alignment spec.now) }
    ensures { IfOk result (λ r. r ≡ least_reason (flat_map (alignee_reasons setting.now (alignment spec.now)) (names_of false names.now))) }
{
    match names {
        [name] => {
            let found = bad_alignee(alloc, setting, spec, values, name)?;
            Ok(found)
        }
        _ => {
            unnamed_object(setting.objects());
            Ok(Some(Reason::BadDirective))
        }
    }
}

/// The least reason for which one of these names breaks a rule as an alignee.
fn listed_alignees_reason(
    alloc: Global,
    setting: &Setting<'_>,
    spec: &AlignSpec,
    values: &TargetValues,
    names: &[Name],
) -> Result<Option<Reason>, AllocError>
    requires { values.now ≡ target_values setting.now (alignment spec.now) }
    ensures { IfOk result (λ r. r ≡ least_reason (flat_map (alignee_reasons setting.now (alignment spec.now)) names.now)) }
{
    let mut least = None;
    for name in names {
        let found = bad_alignee(alloc, setting, spec, values, name)?;
        least = lesser(least, found);
    }
    Ok(least)
}
