//! What copies lie beside, by the slots.

ghost use Rattle.std.specs.Prelude.{◌≡◌, ◌-ℤ◌, ◌*ℤ◌, IfOk, map, option_map, slice_index_or};
ghost use Rattle.code_meaning.specs.Anchors.{anchor_by, anchor_in, anchor_value, by_index, by_linear, none_taken};
ghost use Rattle.code_meaning.specs.ForallLimits.{sequences_of, slots_state, term_of};
ghost use Rattle.code_meaning.specs.Forms.{selections_in};
ghost use Rattle.copy_anchors.specs.Anchors.{align_of};
ghost use Rattle.forall_conditions.specs.Linears.{linear_of};
ghost use Rattle.mappings.specs.declared.mapping.AlignDim.TheVariants.{Linear};
ghost use Rattle.node_code.specs.Forall.{linear};
ghost use Rattle.node_code.specs.Texts.{anchor_sub, flat, flat_anchor, subs};
ghost use Rattle.slot_values.specs.Anchors.{axis_after, subscript_of, triplet_along};
ghost use Rattle.term_values.specs.States.{state_of};

use crate::expressions::flat_or_zero;
use crate::sections::selections_at;
use crate::slot_terms::{sequences_of, slots_state, term};
use align_map::linear as linear_value;
use array_meaning::Sequence;
use copy_anchors::{Anchor, Subscript};
use forall_conditions::{LinearForm, linear};
use hpf_base::OutOfMemory;
use node_code::{AnchorSub, Flat, FlatAnchor, Sub};
use std::alloc::{AllocError, Global};
use term_values::State;

/// What copies over the space of these subscripts lie beside, by the slots: the row of an array, which is the place of its name, and its
/// subscripts by the positions of a tuple; None where there is no such array, or where the stride of a triplet is 0.
pub fn anchor_in(
    alloc: Global,
    slots: &[i64],
    over: &[Sub],
    beside: &Option<FlatAnchor>,
) -> Result<Option<Anchor>, OutOfMemory>
    ensures { IfOk result (λ a. a ≡ anchor_in slots.now (subs over.now) (option_map flat_anchor beside.now)) }
{
    match beside {
        Some(a) => anchor_over(alloc, slots, over, a),
        None => Ok(None),
    }
}

/// The same where there is an array.
fn anchor_over(
    alloc: Global,
    slots: &[i64],
    over: &[Sub],
    a: &FlatAnchor,
) -> Result<Option<Anchor>, OutOfMemory>
    ensures { IfOk result (λ b. b ≡ anchor_by a.now.array (sequences_of (selections_in slots.now (subs over.now))) (map (anchor_value slots.now) (map anchor_sub a.now.subscripts.items))) }
{
    let ds = selections_at(alloc, slots, &[], over)?;
    let axes = sequences_of(alloc, &ds)?;
    let s = slots_state(alloc, slots)?;
    anchor_by(alloc, slots, &s, &axes, a)
}

/// The same where the indices of the space take these values. The state has the slots as its scalars.
fn anchor_by(
    alloc: Global,
    slots: &[i64],
    s: &State,
    axes: &[Sequence],
    a: &FlatAnchor,
) -> Result<Option<Anchor>, OutOfMemory>
    requires state { state_of s.now ≡ slots_state slots.now }
    ensures { IfOk result (λ b. b ≡ anchor_by a.now.array axes.now (map (anchor_value slots.now) (map anchor_sub a.now.subscripts.items))) }
{
    let mut subscripts = Vec::new(alloc);
    let mut axis = 0;
    for sub in &a.subscripts {
        match subscript_in(alloc, slots, s, axes, axis, sub)? {
            Some(subscript) => subscripts.push(subscript)?,
            None => return Ok(None),
        }
        axis = axis_after(axis, sub)?;
    }
    Ok(Some(Anchor::new(a.array, subscripts)))
}

/// A subscript by the positions of a tuple, where a triplet goes along this axis; None where its stride is 0.
fn subscript_in(
    alloc: Global,
    slots: &[i64],
    s: &State,
    axes: &[Sequence],
    axis: u32,
    sub: &AnchorSub,
) -> Result<Option<Subscript>, OutOfMemory>
    requires state { state_of s.now ≡ slots_state slots.now }
    ensures { IfOk result (λ x. option_map align_of x ≡ subscript_of axes.now axis (anchor_value slots.now (anchor_sub sub.now))) }
{
    match sub {
        AnchorSub::At(f) => {
            let x = linear_in(alloc, slots, s, f)?;
            let subscript = by_linear(axes, &x)?;
            Ok(Some(subscript))
        }
        AnchorSub::Along(first, stride) => {
            let first = flat_or_zero(slots, &[], first)?;
            let stride = flat_or_zero(slots, &[], stride)?;
            Ok(along(axis, first, stride))
        }
    }
}

/// The linear form of an expression.
fn linear_in(alloc: Global, slots: &[i64], s: &State, f: &Flat) -> Result<LinearForm, AllocError>
    requires state { state_of s.now ≡ slots_state slots.now }
    ensures { IfOk result (λ x. linear_of x ≡ linear (slots_state slots.now) (term_of (flat f.now))) }
{
    let t = term(alloc, f)?;
    linear(s, &t)
}

/// The axis of the next triplet. There is one for each subscript at most, and so many that 32 bits don't have their number are more than
/// memory holds.
fn axis_after(axis: u32, sub: &AnchorSub) -> Result<u32, OutOfMemory>
    ensures { IfOk result (λ k. k ≡ axis_after axis (anchor_sub sub.now)) }
{
    match sub {
        AnchorSub::At(_) => Ok(axis),
        AnchorSub::Along(_, _) => match axis.checked_add(1) {
            Some(next) => Ok(next),
            None => Err(OutOfMemory),
        },
    }
}

/// A value that is linear in one index at most, which takes its values along the axis of its number; a space with so many axes that 32 bits don't
/// have it is more than memory holds.
fn by_linear(axes: &[Sequence], x: &LinearForm) -> Result<Subscript, OutOfMemory>
    ensures { IfOk result (λ s. align_of s ≡ by_linear axes.now (linear_of x.now).index (linear_of x.now).factor (linear_of x.now).offset) }
{
    match x.index {
        None => Ok(Subscript {
            axis: None,
            first: x.offset as i128,
            step: 0,
        }),
        Some(k) => {
            let p = sequence_at(axes, k);
            by_index(&p, k, x.factor, x.offset)
        }
    }
}

/// The values of an index; there are none past the last one.
fn sequence_at(axes: &[Sequence], k: usize) -> Sequence
    ensures { result ≡ slice_index_or axes.now k none_taken }
{
    if k < axes.len() {
        axes[k]
    } else {
        Sequence {
            first: 0,
            step: 0,
            count: 0,
        }
    }
}

/// A factor times an index that takes these values, and an offset.
fn by_index(p: &Sequence, k: usize, factor: i64, offset: i64) -> Result<Subscript, OutOfMemory>
    ensures { IfOk result (λ s. align_of s ≡ by_index p.now k factor offset) }
{
    if k > u32::MAX as usize {
        return Err(OutOfMemory);
    }
    let first = linear_value(factor, p.first, offset);
    let step = product(factor, p.step);
    Ok(along_axis(k as u32, first, step))
}

/// `a * b`, exactly.
fn product(a: i64, b: i64) -> i128
    ensures { result ≡ a *ℤ b }
{
    a as i128 * b as i128
}

/// A triplet along an axis, where its stride isn't 0.
fn along(axis: u32, first: i64, stride: i64) -> Option<Subscript>
    ensures { option_map align_of result ≡ triplet_along axis first stride }
{
    if stride == 0 {
        return None;
    }
    Some(along_axis(axis, first as i128, stride as i128))
}

/// A subscript that moves along an axis.
fn along_axis(axis: u32, first: i128, step: i128) -> Subscript
    ensures { align_of result ≡ Linear axis step (first -ℤ step) }
{
    Subscript {
        axis: Some(axis),
        first,
        step,
    }
}
