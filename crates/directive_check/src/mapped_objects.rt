//! The objects of DISTRIBUTE and ALIGN, one by one (HPF 2.0, 3.3 and 3.4).

ghost use Rattle.std.specs.Prelude.{◌≡◌, ◌++◌, ◌∷◌, [], bytes_eq, find, map, option_copied, All, IfOk, OnOk};
ghost use Rattle.syntax_tree.specs.Directive.{directive_of};
ghost use Rattle.syntax_tree.specs.MainProgram.{Directed, declaration, declared_of};
ghost use Rattle.expression_rules.specs.Symbols.{Name};
ghost use Rattle.directive_check.specs.MappedObjects.{how_mapped, mapped_by, mapped_object, mapped_objects};
ghost use Rattle.directive_check.specs.MappedSteps.{IsListed, IsListedDirective, how_of, mapped};
ghost use Rattle.directive_check.specs.ChainSteps.{IsJudged, is_refused_how};

use crate::declared_rules::align_reason;
use crate::mapped_object::MappedObject;
use distribution_rules::Setting;
use hpf_base::Name;
use std::alloc::{AllocError, Global};
use syntax_tree::{Decl, DeclKind, Directive};

/// The objects of DISTRIBUTE and ALIGN, in the order of the text. An `Err` is want of memory, here and below.
pub(crate) fn mapped_objects(
    alloc: Global,
    decls: &[Decl],
) -> Result<Vec<MappedObject<'_>>, AllocError>
    requires { All IsListed decls.now }
    ensures { IfOk result (λ ms. mapped ms.items ≡ mapped_objects (map declaration decls.now)) }
{
    let mut objects = Vec::new(alloc);
    for decl in decls {
        push_declared(decl, &mut objects)?;
    }
    Ok(objects)
}

/// Those of a declaration, after the others.
fn push_declared<'a>(decl: &'a Decl, objects: &mut Vec<MappedObject<'a>>) -> Result<(), AllocError>
    requires { IsListed decl.now }
    ensures { OnOk result (mapped objects.new.items ≡ mapped objects.old.items ++ mapped_by decl.now.line (declared_of decl.now.what)) }
{
    match &decl.what {
        DeclKind::Directive(directive) => push_directed(decl.line, directive, objects),
        DeclKind::ImplicitNone | DeclKind::Integer(_) | DeclKind::Parameter(_) => Ok(()),
    }
}

/// Those of a directive.
fn push_directed<'a>(
    line: u32,
    directive: &'a Directive,
    objects: &mut Vec<MappedObject<'a>>,
) -> Result<(), AllocError>
    requires { IsListedDirective directive.now }
    ensures { OnOk result (mapped objects.new.items ≡ mapped objects.old.items ++ mapped_by line (Directed (directive_of directive.now))) }
{
    match directive {
        Directive::Distribute(spec) => {
            push_names(line, directive, spec.names.as_slice(), objects)
        }
        Directive::Align(spec) => push_names(line, directive, spec.names.as_slice(), objects),
        Directive::Processors(_)
        | Directive::Template(_)
        | Directive::Dynamic(_)
        | Directive::Passed => Ok(()),
    }
}

/// Objects of these names.
fn push_names<'a>(
    line: u32,
    directive: &'a Directive,
    names: &'a [Name],
    objects: &mut Vec<MappedObject<'a>>,
) -> Result<(), AllocError>
    ensures { OnOk result (mapped objects.new.items ≡ mapped objects.old.items ++ map (mapped_object line (how_of directive.now)) names.now) }
{
    for name in names {
        objects.push(MappedObject {
            line,
            name,
            directive,
            refused: false,
        })?;
    }
    Ok(())
}

/// The objects that are mapped, each as it is mapped first, and with a note of whether its ALIGN breaks a rule by itself.
pub(crate) fn first_mapped<'a>(
    alloc: Global,
    setting: &Setting<'_>,
    objects: &[MappedObject<'a>],
) -> Result<Vec<MappedObject<'a>>, AllocError>
    ensures same { IfOk result (λ ms. (x : Name) → how_mapped (mapped ms.items) x ≡ how_mapped (mapped objects.now) x) }
    ensures judged { IfOk result (λ ms. All (IsJudged setting.now) ms.items) }
{
    let firsts = firsts_of(alloc, objects)?;
    let judged = judged(alloc, setting, &firsts)?;
    Ok(judged)
}

/// These objects, with the note.
fn judged<'a>(
    alloc: Global,
    setting: &Setting<'_>,
    objects: &[MappedObject<'a>],
) -> Result<Vec<MappedObject<'a>>, AllocError>
    ensures same { IfOk result (λ ms. mapped ms.items ≡ mapped objects.now) }
    ensures judged { IfOk result (λ ms. All (IsJudged setting.now) ms.items) }
{
    let mut noted = Vec::new(alloc);
    for object in objects {
        let refused = is_refused(alloc, setting, object.directive)?;
        noted.push(MappedObject {
            line: object.line,
            name: object.name,
            directive: object.directive,
            refused,
        })?;
    }
    Ok(noted)
}

/// The directive is an ALIGN that breaks a rule by itself.
#[tactic(auto, using(crate::proofs::MappingBreaches::some_least))]
fn is_refused(
    alloc: Global,
    setting: &Setting<'_>,
    directive: &Directive,
) -> Result<bool, AllocError>
    ensures { IfOk result (λ b. b ≡ is_refused_how setting.now (how_of directive.now)) }
{
    match directive {
        Directive::Align(spec) => {
            let reason = align_reason(alloc, setting, spec)?;
            Ok(reason.is_some())
        }
        Directive::Distribute(_)
        | Directive::Processors(_)
        | Directive::Template(_)
        | Directive::Dynamic(_)
        | Directive::Passed => Ok(false),
    }
}

/// The objects that are mapped, each as it is mapped first.
fn firsts_of<'a>(
    alloc: Global,
    objects: &[MappedObject<'a>],
) -> Result<Vec<MappedObject<'a>>, AllocError>
    ensures { IfOk result (λ ms. (x : Name) → how_mapped (mapped ms.items) x ≡ how_mapped (mapped objects.now) x) }
{
    let mut firsts = Vec::new(alloc);
    for object in objects {
        add_first(object, &mut firsts)?;
    }
    Ok(firsts)
}

/// One more after the others, unless it is mapped before.
fn add_first<'a>(
    object: &MappedObject<'a>,
    firsts: &mut Vec<MappedObject<'a>>,
) -> Result<(), AllocError>
    ensures { OnOk result ((x : Name) → how_mapped (mapped firsts.new.items) x ≡ how_mapped (mapped (firsts.old.items ++ object.now ∷ [])) x) }
{
    match find_mapped(firsts, object.name) {
        Some(_) => Ok(()),
        None => {
            firsts.push(MappedObject {
                line: object.line,
                name: object.name,
                directive: object.directive,
                refused: object.refused,
            })?;
            Ok(())
        }
    }
}

/// The first of the objects with a name.
pub(crate) fn find_mapped<'a, 'b>(
    objects: &'b [MappedObject<'a>],
    name: &Name,
) -> Option<&'b MappedObject<'a>>
    ensures { option_copied result ≡ find (λ m. bytes_eq name.now m.name.now) objects.now }
{
    objects.iter().find(|m| *name == *m.name)
}
