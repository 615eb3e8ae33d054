//! What is named in parallel statements, by courses. None is no answer.

ghost use Rattle.std.specs.Prelude.{◌≡◌, ◌++◌, ◌∷◌, [], map, option_map, IfOk, IfSome, OnOk, Some, true};
ghost use Rattle.node_code.specs.Forms.{SectionForm};
ghost use Rattle.node_code.specs.Texts.{form, forms_of, subs, when};
ghost use Rattle.courses.specs.References.{copy_names, index_courses, named_element, selected_courses, when_names};
ghost use Rattle.course_forms.specs.Views.{courses_of, named_of, names_of};
ghost use Rattle.tuple_values.specs.Naming.{all_names_here, before, both_here, courses_here, element_here, indices_of, left_here, left_of, names_here};
ghost use Rattle.tuple_values.specs.Targets.{form_of, target as target_of};

use crate::naming::{Indices, Left, Naming};
use crate::right::Right;
use crate::target::Target;
use array_meaning::Selection;
use course_forms::{
    Course, Reference, both_references, indexed_courses, named_copy, named_element, section_courses,
};
use hpf_base::OutOfMemory;
use node_code::{ArrayForm, Sub, When};
use slot_values::selections_at;
use std::alloc::Global;

/// The courses of the indices over these sequences.
pub(crate) fn index_courses(
    alloc: Global,
    extents: &[u64],
    indices: &Option<Vec<Selection>>,
) -> Result<Option<Indices>, OutOfMemory>
    ensures { IfOk result (λ r. IfSome r (λ is. index_courses extents.now (option_map (λ ds. ds.items) indices.now) ≡ Some (indices_of is))) }
{
    let Some(ds) = indices else {
        return Ok(Some(Indices { courses: None }));
    };
    match section_courses(alloc, extents, ds)? {
        None => Ok(None),
        Some(is) => Ok(Some(Indices { courses: Some(is) })),
    }
}

/// The courses of subscripts.
fn subs_courses(n: &Naming<'_>, section: &[Sub]) -> Result<Option<Vec<Course>>, OutOfMemory>
    ensures { IfOk result (λ r. IfSome r (λ cs. courses_here n.now (subs section.now) ≡ Some (courses_of cs.items))) }
{
    match &n.indices.courses {
        None => {
            let ds = selections_at(n.alloc, n.slots, &[], section)?;
            section_courses(n.alloc, n.extents, &ds)
        }
        Some(is) => indexed_courses(n.alloc, n.slots, n.extents, is, section),
    }
}

/// A section's elements.
fn section_reference(
    n: &Naming<'_>,
    array: usize,
    section: &[Sub],
) -> Result<Option<Reference>, OutOfMemory>
    ensures { IfOk result (λ r. IfSome r (λ r. element_here n.now array (subs section.now) ≡ Some (named_of r))) }
{
    match subs_courses(n, section)? {
        None => Ok(None),
        Some(cs) => named_element(n.alloc, n.shapes, array, cs),
    }
}

/// The elements of a section whose selections are known.
fn selected_reference(
    n: &Naming<'_>,
    array: usize,
    ds: &[Selection],
) -> Result<Option<Reference>, OutOfMemory>
    ensures { IfOk result (λ r. IfSome r (λ r. named_element n.now.shapes.now array (selected_courses n.now.extents.now ds.now) ≡ Some (named_of r))) }
{
    match section_courses(n.alloc, n.extents, ds)? {
        None => Ok(None),
        Some(cs) => named_element(n.alloc, n.shapes, array, cs),
    }
}

/// What is assigned.
pub(crate) fn left_reference(
    n: &Naming<'_>,
    target: &Target<'_>,
) -> Result<Option<Left>, OutOfMemory>
    ensures { IfOk result (λ r. IfSome r (λ l. left_here n.now (target_of target.now) ≡ Some (left_of l))) }
{
    match target {
        Target::Nothing => Ok(Some(Left { reference: None })),
        Target::Copy(row) => {
            let copy = named_copy(n.alloc, n.extents, *row)?;
            Ok(Some(Left {
                reference: Some(copy),
            }))
        }
        Target::Section(a, ds) => Ok(assigned(selected_reference(n, *a, ds)?)),
        Target::Indexed(a, ds) => Ok(assigned(section_reference(n, *a, ds)?)),
    }
}

/// What is assigned where it has to be known.
fn assigned(reference: Option<Reference>) -> Option<Left>
    ensures { option_map left_of result ≡ option_map (λ r. Some (named_of r)) reference }
{
    match reference {
        None => None,
        Some(r) => Some(Left { reference: Some(r) }),
    }
}

/// Puts the copies that masks read after the others.
pub(crate) fn when_references(
    n: &Naming<'_>,
    whens: &[When],
    rs: &mut Vec<Reference>,
) -> Result<(), OutOfMemory>
    ensures { OnOk result (names_of rs.new.items ≡ names_of rs.old.items ++ when_names n.now.extents.now (map when whens.now)) }
{
    for w in whens {
        rs.push(named_copy(n.alloc, n.extents, w.copy)?)?;
    }
    Ok(())
}

/// Puts these copies after the others.
pub(crate) fn copy_references(
    n: &Naming<'_>,
    rows: &[usize],
    rs: &mut Vec<Reference>,
) -> Result<(), OutOfMemory>
    ensures { OnOk result (names_of rs.new.items ≡ names_of rs.old.items ++ copy_names n.now.extents.now rows.now) }
{
    for row in rows {
        rs.push(named_copy(n.alloc, n.extents, *row)?)?;
    }
    Ok(())
}

/// Puts what is evaluated after the others, and whether all of it is known.
pub(crate) fn right_references(
    n: &Naming<'_>,
    right: &Right<'_>,
    rs: &mut Vec<Reference>,
) -> Result<bool, OutOfMemory>
    ensures { IfOk result (λ known. known ≡ true → before (names_of rs.old.items) (names_here n.now (form_of right.now)) ≡ Some (names_of rs.new.items)) }
{
    match right {
        Right::Form(f) => form_references(n, f, rs),
        Right::Section(a, ds) => element_reference(n, *a, ds, rs),
    }
}

/// Puts what an array expression reads after the others, and whether all of it is known.
#[cycle(form_references)]
fn form_references(
    n: &Naming<'_>,
    f: &ArrayForm,
    rs: &mut Vec<Reference>,
) -> Result<bool, OutOfMemory>
    ensures { IfOk result (λ known. known ≡ true → before (names_of rs.old.items) (names_here n.now (form f.now)) ≡ Some (names_of rs.new.items)) }
{
    match f {
        ArrayForm::Flat(_) => Ok(true),
        ArrayForm::Section(a, ds) => element_reference(n, *a, ds, rs),
        ArrayForm::Operation(_, fs) => all_form_references(n, fs, rs),
    }
}

/// Puts what operands read after the others, and whether all of it is known.
#[cycle(form_references)]
fn all_form_references(
    n: &Naming<'_>,
    fs: &Vec<ArrayForm>,
    rs: &mut Vec<Reference>,
) -> Result<bool, OutOfMemory>
    ensures { IfOk result (λ known. known ≡ true → before (names_of rs.old.items) (all_names_here n.now (forms_of fs.now.items)) ≡ Some (names_of rs.new.items)) }
{
    for f in fs {
        if !form_references(n, f, rs)? {
            return Ok(false);
        }
    }
    Ok(true)
}

/// Puts the elements of a section after the others, and whether they are known.
fn element_reference(
    n: &Naming<'_>,
    array: usize,
    section: &[Sub],
    rs: &mut Vec<Reference>,
) -> Result<bool, OutOfMemory>
    ensures { IfOk result (λ known. known ≡ true
        → before (names_of rs.old.items) (option_map (λ r. r ∷ []) (element_here n.now array (subs section.now))) ≡ Some (names_of rs.new.items)) }
{
    match section_reference(n, array, section)? {
        None => Ok(false),
        Some(r) => {
            rs.push(r)?;
            Ok(true)
        }
    }
}

/// Puts both references of what is evaluated after the others. True only where it is the element of an array whose first subscript goes round
/// its first dimension.
pub(crate) fn turned_references(
    n: &Naming<'_>,
    right: &Right<'_>,
    rs: &mut Vec<Reference>,
) -> Result<bool, OutOfMemory>
    ensures { IfOk result (λ known. known ≡ true → before (names_of rs.old.items) (both_here n.now (form_of right.now)) ≡ Some (names_of rs.new.items)) }
{
    match right {
        Right::Form(f) => turned_form_references(n, f, rs),
        Right::Section(a, ds) => both_references_of(n, *a, ds, rs),
    }
}

/// The same of an array expression.
fn turned_form_references(
    n: &Naming<'_>,
    f: &ArrayForm,
    rs: &mut Vec<Reference>,
) -> Result<bool, OutOfMemory>
    ensures { IfOk result (λ known. known ≡ true → before (names_of rs.old.items) (both_here n.now (form f.now)) ≡ Some (names_of rs.new.items)) }
{
    match f {
        ArrayForm::Section(a, ds) => both_references_of(n, *a, ds, rs),
        _ => Ok(false),
    }
}

/// The same of a section.
fn both_references_of(
    n: &Naming<'_>,
    array: usize,
    section: &[Sub],
    rs: &mut Vec<Reference>,
) -> Result<bool, OutOfMemory>
    ensures { IfOk result (λ known. known ≡ true
        → before (names_of rs.old.items) (both_here n.now (SectionForm array (subs section.now))) ≡ Some (names_of rs.new.items)) }
{
    let Some(is) = &n.indices.courses else {
        return Ok(false);
    };
    match both_references(n.alloc, n.shapes, n.slots, n.extents, is, array, section)? {
        None => Ok(false),
        Some(both) => {
            rs.push(both.low)?;
            rs.push(both.high)?;
            Ok(true)
        }
    }
}
