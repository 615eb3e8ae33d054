//! Expressions that have one value at all tuples.

ghost use Rattle.std.specs.Prelude.{◌≡◌, IfOk, IfSome};
ghost use Rattle.node_code.specs.Texts.{flat, flats_of, form};
ghost use Rattle.tuple_values.specs.Fixed.{are_fixed, is_fixed, IsFixed, IsFixedForm};

use hpf_base::OutOfMemory;
use node_code::{ArrayForm, Flat};
use slot_values::flat_value;
use term_values::{Number, Stop};

/// The value of an expression that is the same at all tuples; None where it isn't, and where it is a fault.
pub(crate) fn fixed_value(slots: &[i64], f: &Flat) -> Result<Option<Number>, OutOfMemory>
    ensures { IfOk result (λ p. IfSome p (λ v. IsFixed slots.now (flat f.now) v.value)) }
{
    if !is_fixed(f) {
        return Ok(None);
    }
    match flat_value(slots, &[], f) {
        Ok(value) => Ok(Some(Number { value })),
        Err(Stop::Fault(_)) => Ok(None),
        Err(Stop::Memory) => Err(OutOfMemory),
    }
}

/// That of an array expression which is one.
#[tactic(auto, using(crate::proofs::FormStrips::fixed_form))]
pub(crate) fn fixed_form_value(slots: &[i64], f: &ArrayForm) -> Result<Option<Number>, OutOfMemory>
    ensures { IfOk result (λ p. IfSome p (λ v. IsFixedForm slots.now (form f.now) v.value)) }
{
    match f {
        ArrayForm::Flat(f) => fixed_value(slots, f),
        _ => Ok(None),
    }
}

/// Whether an expression sees no axis.
#[cycle(is_fixed)]
fn is_fixed(f: &Flat) -> bool
    ensures { result ≡ is_fixed (flat f.now) }
{
    match f {
        Flat::Int(_) => true,
        Flat::Slot(_) => true,
        Flat::Axis(_) => false,
        Flat::Read(_) => true,
        Flat::Operated(_, fs) => are_fixed(fs),
    }
}

/// Whether none of these does.
#[cycle(is_fixed)]
fn are_fixed(fs: &Vec<Flat>) -> bool
    ensures { result ≡ are_fixed (flats_of fs.now.items) }
{
    for f in fs {
        if !is_fixed(f) {
            return false;
        }
    }
    true
}
