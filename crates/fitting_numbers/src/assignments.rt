//! The numbers in the values of indices, in masks, and in the assignments of WHERE and FORALL.

ghost use Rattle.std.specs.Prelude.{map, option_map};
ghost use Rattle.std.specs.List.{AllByRecursion};
ghost use Rattle.fitting_states.specs.FittingStates.{ControlFits, ElementAssignmentFits, MaskFits, SectionAssignmentFits};
ghost use Rattle.resolved_program.specs.Resolved.{control, element_assignment, section_assignment, term};

use crate::terms::{subscripts_fit, term_fits, terms_fit};
use resolved_program::{Control, ElementAssignment, SectionAssignment, Term};

/// The numbers in the values of an index fit.
pub(crate) fn control_fits(c: &Control)
    ensures { ControlFits (control c.now) }
{
    term_fits(&c.first);
    term_fits(&c.last);
    term_fits(&c.step);
}

/// The numbers in the header of a FORALL fit.
pub(crate) fn controls_fit(controls: &[Control])
    ensures { AllByRecursion ControlFits (map control controls.now) }
{
    for c in controls {
        control_fits(c);
    }
}

/// The numbers in a mask fit, if there is one.
pub(crate) fn mask_fits(mask: &Option<Term>)
    ensures { MaskFits (option_map term mask.now) }
{
    match mask {
        None => {}
        Some(t) => term_fits(t),
    }
}

/// The numbers in an assignment of a WHERE fit.
fn section_assignment_fits(a: &SectionAssignment)
    ensures { SectionAssignmentFits (section_assignment a.now) }
{
    subscripts_fit(&a.subscripts);
    term_fits(&a.right);
}

/// The numbers in assignments of a WHERE fit.
pub(crate) fn section_assignments_fit(body: &[SectionAssignment])
    ensures { AllByRecursion SectionAssignmentFits (map section_assignment body.now) }
{
    for a in body {
        section_assignment_fits(a);
    }
}

/// The numbers in an assignment of a FORALL fit.
fn element_assignment_fits(a: &ElementAssignment)
    ensures { ElementAssignmentFits (element_assignment a.now) }
{
    terms_fit(&a.subscripts);
    term_fits(&a.right);
}

/// The numbers in the assignments of a FORALL fit.
pub(crate) fn element_assignments_fit(body: &[ElementAssignment])
    ensures { AllByRecursion ElementAssignmentFits (map element_assignment body.now) }
{
    for a in body {
        element_assignment_fits(a);
    }
}
