//! The names of DYNAMIC (HPF 2.0, 8.5).

ghost use Rattle.std.specs.Prelude.{◌≡◌, ◌++◌, ◌∷◌, ◌||◌, [], bytes_eq, map, not, IfOk, OnOk};
ghost use Rattle.hpf_base.specs.FirstBreach.{least};
ghost use Rattle.syntax_tree.specs.Directive.{directive_of};
ghost use Rattle.syntax_tree.specs.MainProgram.{Directed, declaration, declared_of};
ghost use Rattle.expression_rules.specs.Symbols.{Name, is_among};
ghost use Rattle.declarations.specs.Reasons.{at, when};
ghost use Rattle.distribution_rules.specs.Setting.{has_kind, is_mapped_kind, object};
ghost use Rattle.hpf_base.specs.declared.refusal.Reason.TheVariants.{BadDirective};
ghost use Rattle.directive_check.specs.MappedObjects.{dynamic_breaches, dynamic_names, dynamic_of, mapped_twice};
ghost use Rattle.directive_check.specs.MappedSteps.{dynamic, dynamic_at, mapped};

use crate::mapped_object::MappedObject;
use distribution_rules::{ObjectKind, Setting};
use expression_rules::is_among;
use hpf_base::{Name, Reason, Refusal, earlier};
use std::alloc::{AllocError, Global};
use syntax_tree::{Decl, DeclKind, Directive};

/// A name of a DYNAMIC, with the number of its line.
#[derive(Drop)]
pub(crate) struct DynamicName {
    line: u32,
    name: Name,
}

/// The names of DYNAMIC, in the order of the text. An `Err` is want of memory, here and below.
pub(crate) fn dynamic_names(alloc: Global, decls: &[Decl]) -> Result<Vec<DynamicName>, AllocError>
    ensures { IfOk result (λ ds. dynamic ds.items ≡ dynamic_names (map declaration decls.now)) }
{
    let mut names = Vec::new(alloc);
    for decl in decls {
        push_declared(decl, &mut names)?;
    }
    Ok(names)
}

/// Those of a declaration, after the others.
fn push_declared(decl: &Decl, names: &mut Vec<DynamicName>) -> Result<(), AllocError>
    ensures { OnOk result (dynamic names.new.items ≡ dynamic names.old.items ++ dynamic_of decl.now.line (declared_of decl.now.what)) }
{
    match &decl.what {
        DeclKind::Directive(directive) => push_directed(decl.line, directive, names),
        _ => Ok(()),
    }
}

/// Those of a directive.
fn push_directed(
    line: u32,
    directive: &Directive,
    names: &mut Vec<DynamicName>,
) -> Result<(), AllocError>
    ensures { OnOk result (dynamic names.new.items ≡ dynamic names.old.items ++ dynamic_of line (Directed (directive_of directive.now))) }
{
    match directive {
        Directive::Dynamic(listed) => push_names(line, listed.as_slice(), names),
        _ => Ok(()),
    }
}

/// These names.
fn push_names(line: u32, listed: &[Name], names: &mut Vec<DynamicName>) -> Result<(), AllocError>
    ensures { OnOk result (dynamic names.new.items ≡ dynamic names.old.items ++ map (dynamic_at line) listed.now) }
{
    for name in listed {
        names.push(DynamicName { line, name: *name })?;
    }
    Ok(())
}

/// One more name after the others, unless it is among them. The answer is whether it was.
pub(crate) fn add_name(name: &Name, names: &mut Vec<Name>) -> Result<bool, AllocError>
    ensures again { IfOk result (λ b. b ≡ is_among name.now names.old.items) }
    ensures added { OnOk result ((x : Name) → is_among x names.new.items ≡ (bytes_eq x name.now || is_among x names.old.items)) }
{
    if is_among(name, names) {
        Ok(true)
    } else {
        names.push(*name)?;
        Ok(false)
    }
}

/// The names without their lines, each once.
pub(crate) fn distinct_names(alloc: Global, names: &[DynamicName]) -> Result<Vec<Name>, AllocError>
    ensures { IfOk result (λ xs. (x : Name) → is_among x xs.items ≡ is_among x (map (λ d. d.name) (dynamic names.now))) }
{
    let mut distinct = Vec::new(alloc);
    for one in names {
        add_name(&one.name, &mut distinct)?;
    }
    Ok(distinct)
}

/// The first of the names that is neither an array nor a template, or that stands there before.
pub(crate) fn first_bad_dynamic(
    alloc: Global,
    setting: &Setting<'_>,
    names: &[DynamicName],
) -> Result<Option<Refusal>, AllocError>
    ensures { IfOk result (λ r. r ≡ least (dynamic_breaches setting.now [] (dynamic names.now))) }
{
    let mut seen = Vec::new(alloc);
    let mut first = None;
    for one in names {
        let again = add_name(&one.name, &mut seen)?;
        let bad = is_bad_name(setting, &one.name, again);
        first = earlier(first, refused_if(bad, one.line));
    }
    Ok(first)
}

/// The first of the objects that is mapped before.
pub(crate) fn first_mapped_twice(
    alloc: Global,
    objects: &[MappedObject<'_>],
) -> Result<Option<Refusal>, AllocError>
    ensures { IfOk result (λ r. r ≡ least (mapped_twice [] (mapped objects.now))) }
{
    let mut seen = Vec::new(alloc);
    let mut first = None;
    for object in objects {
        let again = add_name(object.name, &mut seen)?;
        first = earlier(first, refused_if(again, object.line));
    }
    Ok(first)
}

/// The name is neither that of an array nor that of a template, or it stands there before.
fn is_bad_name(setting: &Setting<'_>, name: &Name, again: bool) -> bool
    ensures { result ≡ (not (has_kind is_mapped_kind (object setting.now name.now)) || again) }
{
    !is_mapped_object(setting, name) || again
}

/// The line is refused for a directive that breaks a rule.
fn refused_if(bad: bool, line: u32) -> Option<Refusal>
    ensures { result ≡ least (at line (when bad BadDirective)) }
{
    if bad {
        Some(Refusal {
            line,
            reason: Reason::BadDirective,
        })
    } else {
        None
    }
}

/// The name is that of an array or a template.
fn is_mapped_object(setting: &Setting<'_>, name: &Name) -> bool
    ensures { result ≡ has_kind is_mapped_kind (object setting.now name.now) }
{
    match setting.object(name) {
        None => false,
        Some(object) => !matches!(object.kind, ObjectKind::Arrangement),
    }
}
