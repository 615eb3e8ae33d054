//! Slots that are mentioned.

ghost use Rattle.std.specs.Prelude.{◌≡◌, ◌≤◌, ◌+◌, map, option_map};
ghost use Rattle.std.specs.List.{list_all};
ghost use Rattle.code_meaning.specs.Flat.{slot};
ghost use Rattle.node_code.specs.Texts.{anchor_sub, assignment, evaluation, flat, flat_anchor, flats_of, form, forms_of, instruction, nest_left, nest_statement, sub, subs};
ghost use Rattle.part_steps.specs.Agreement.{agree_at, agree_on, agree_on_anchor_sub, agree_on_assignment, agree_on_beside, agree_on_evaluation, agree_on_flat, agree_on_flats, agree_on_form, agree_on_forms, agree_on_left, agree_on_nest, agree_on_sub, agree_on_subs};

use node_code::{
    AnchorSub, ArrayForm, Assignment, Evaluation, Flat, FlatAnchor, Instruction, NestLeft,
    NestStatement, Sub,
};
use slot_values::slot;

/// Whether the instruction is a parallel statement or a reduction, and the slots are the kept ones wherever it mentions them. It takes no memory.
pub fn agrees(i: &Instruction, kept: &[i64], slots: &[i64]) -> bool
    ensures { result ≡ agree_on kept.now slots.now (instruction i.now) }
{
    match i {
        Instruction::Par(p) => assignment_agrees(p, kept, slots),
        Instruction::ParForall(p) => assignment_agrees(p, kept, slots),
        Instruction::ParNest(p) => nest_agrees(p, kept, slots),
        Instruction::ParCopy { evaluation, .. } => evaluation_agrees(evaluation, kept, slots),
        Instruction::ParForallCopy { evaluation, .. } => evaluation_agrees(evaluation, kept, slots),
        Instruction::Reduce { evaluation, .. } => evaluation_agrees(evaluation, kept, slots),
        _ => false,
    }
}

/// Those of an assignment.
fn assignment_agrees(p: &Assignment, kept: &[i64], slots: &[i64]) -> bool
    ensures { result ≡ agree_on_assignment kept.now slots.now (assignment p.now) }
{
    subs_agree(&p.over, kept, slots)
        & subs_agree(&p.left, kept, slots)
        & form_agrees(&p.right, kept, slots)
        & beside_agrees(&p.beside, kept, slots)
}

/// Those of a statement of a nest.
fn nest_agrees(p: &NestStatement, kept: &[i64], slots: &[i64]) -> bool
    ensures { result ≡ agree_on_nest kept.now slots.now (nest_statement p.now) }
{
    subs_agree(&p.over, kept, slots)
        & left_agrees(&p.left, kept, slots)
        & form_agrees(&p.right, kept, slots)
        & beside_agrees(&p.beside, kept, slots)
}

/// Those of what is assigned in an iteration of a nest.
fn left_agrees(left: &NestLeft, kept: &[i64], slots: &[i64]) -> bool
    ensures { result ≡ agree_on_left kept.now slots.now (nest_left left.now) }
{
    match left {
        NestLeft::Element(_, ds) => subs_agree(ds, kept, slots),
        NestLeft::Copy(_) => true,
    }
}

/// Those of an array expression over a space.
fn evaluation_agrees(p: &Evaluation, kept: &[i64], slots: &[i64]) -> bool
    ensures { result ≡ agree_on_evaluation kept.now slots.now (evaluation p.now) }
{
    subs_agree(&p.over, kept, slots)
        & form_agrees(&p.form, kept, slots)
        & beside_agrees(&p.beside, kept, slots)
}

/// Those of what copies lie beside.
fn beside_agrees(beside: &Option<FlatAnchor>, kept: &[i64], slots: &[i64]) -> bool
    ensures { result ≡ agree_on_beside kept.now slots.now (option_map flat_anchor beside.now) }
{
    match beside {
        Some(a) => anchor_subs_agree(&a.subscripts, kept, slots),
        None => true,
    }
}

/// Those of its subscripts.
fn anchor_subs_agree(subs: &[AnchorSub], kept: &[i64], slots: &[i64]) -> bool
    ensures { result ≡ list_all (agree_on_anchor_sub kept.now slots.now) (map anchor_sub subs.now) }
{
    for sub in subs {
        if !anchor_sub_agrees(sub, kept, slots) {
            return false;
        }
    }
    true
}

/// Those of one of them.
fn anchor_sub_agrees(sub: &AnchorSub, kept: &[i64], slots: &[i64]) -> bool
    ensures { result ≡ agree_on_anchor_sub kept.now slots.now (anchor_sub sub.now) }
{
    match sub {
        AnchorSub::At(f) => flat_agrees(f, kept, slots),
        AnchorSub::Along(first, stride) => {
            flat_agrees(first, kept, slots) & flat_agrees(stride, kept, slots)
        }
    }
}

/// Those of a form.
#[cycle(form_agrees)]
fn form_agrees(f: &ArrayForm, kept: &[i64], slots: &[i64]) -> bool
    ensures { result ≡ agree_on_form kept.now slots.now (form f.now) }
{
    match f {
        ArrayForm::Flat(f) => flat_agrees(f, kept, slots),
        ArrayForm::Section(_, ds) => subs_agree(ds, kept, slots),
        ArrayForm::Operation(_, fs) => forms_agree(fs, kept, slots),
    }
}

/// Those of operands.
#[cycle(form_agrees)]
fn forms_agree(fs: &Vec<ArrayForm>, kept: &[i64], slots: &[i64]) -> bool
    ensures { result ≡ agree_on_forms kept.now slots.now (forms_of fs.now.items) }
{
    for f in fs {
        if !form_agrees(f, kept, slots) {
            return false;
        }
    }
    true
}

/// Those of section subscripts.
fn subs_agree(ds: &[Sub], kept: &[i64], slots: &[i64]) -> bool
    ensures { result ≡ agree_on_subs kept.now slots.now (subs ds.now) }
{
    for d in ds {
        if !sub_agrees(d, kept, slots) {
            return false;
        }
    }
    true
}

/// Those of a section subscript.
fn sub_agrees(d: &Sub, kept: &[i64], slots: &[i64]) -> bool
    ensures { result ≡ agree_on_sub kept.now slots.now (sub d.now) }
{
    match d {
        Sub::At(f) => flat_agrees(f, kept, slots),
        Sub::Along(v) => {
            slot_agrees(*v, kept, slots)
                & slot_after_agrees(*v, 1, kept, slots)
                & slot_after_agrees(*v, 2, kept, slots)
        }
    }
}

/// Those of an expression.
#[cycle(flat_agrees)]
fn flat_agrees(f: &Flat, kept: &[i64], slots: &[i64]) -> bool
    ensures { result ≡ agree_on_flat kept.now slots.now (flat f.now) }
{
    match f {
        Flat::Int(_) => true,
        Flat::Slot(k) => slot_agrees(*k, kept, slots),
        Flat::Axis(_) => true,
        Flat::Read(_) => true,
        Flat::Operated(_, fs) => flats_agree(fs, kept, slots),
    }
}

/// Those of operands.
#[cycle(flat_agrees)]
fn flats_agree(fs: &Vec<Flat>, kept: &[i64], slots: &[i64]) -> bool
    ensures { result ≡ agree_on_flats kept.now slots.now (flats_of fs.now.items) }
{
    for f in fs {
        if !flat_agrees(f, kept, slots) {
            return false;
        }
    }
    true
}

/// Whether a slot has one value in both. One past the end has the value 0.
fn slot_agrees(k: usize, kept: &[i64], slots: &[i64]) -> bool
    ensures { result ≡ agree_at kept.now slots.now k }
{
    slot(kept, k) == slot(slots, k)
}

/// Whether the first or second slot after one has one value in both.
fn slot_after_agrees(v: usize, k: usize, kept: &[i64], slots: &[i64]) -> bool
    requires near { k ≤ 2 }
    ensures { result ≡ agree_at kept.now slots.now (v + k) }
{
    slot_after(kept, v, k) == slot_after(slots, v, k)
}

/// The value of the first or second slot after one.
fn slot_after(slots: &[i64], v: usize, k: usize) -> i64
    requires near { k ≤ 2 }
    ensures { result ≡ slot slots.now (v + k) }
{
    if v >= slots.len() {
        return 0;
    }
    slot(slots, v + k)
}
