//! Reductions of array expressions (Fortran 95, 13.14).

ghost use Rattle.std.specs.Prelude.{◌≡◌, fold, IfOk, IfErr, Ok};
ghost use Rattle.op_tables.specs.Joins.{unit};
ghost use Rattle.op_tables.specs.Reductions.{combined, reduced};
ghost use Rattle.array_meaning.specs.Elementals.{reduction};
ghost use Rattle.term_values.specs.States.{state_of};
ghost use Rattle.term_values.specs.Stops.{IsStop};
ghost use Rattle.term_values.specs.Views.{elemental};

use crate::array_values::{Elemental, array_value};
use crate::state::State;
use crate::stops::Stop;
use crate::wrapping::Number;
use op_tables::{Op, Reduction, reduction_of};

/// The value of a reduction of an array expression, or its first fault.
pub(crate) fn reduction(s: &State, op: Op, x: &Elemental) -> Result<i64, Stop>
    ensures value { IfOk result (λ v. reduction (state_of s.now) op (elemental x.now) ≡ Ok v) }
    ensures stopped { IfErr result (IsStop (reduction (state_of s.now) op (elemental x.now))) }
{
    let v = array_value(s, x)?;
    Ok(reduced(op, &v.elements))
}

/// The value of a reduction of these elements, in their order.
fn reduced(op: Op, elements: &[i64]) -> i64
    ensures { result ≡ reduced op elements.now }
{
    all_combined(reduction_of(op), elements)
}

/// The elements joined, beginning with the unit.
fn all_combined(reduction: Reduction, elements: &[i64]) -> i64
    ensures { result ≡ fold (combined reduction) (unit reduction.join) elements.now }
{
    let mut so_far = Number {
        value: reduction.join.unit(),
    };
    for v in elements {
        so_far = with_one_more(reduction, &so_far.value, v);
    }
    so_far.value
}

/// The value of a reduction so far with one element more.
fn with_one_more(reduction: Reduction, so_far: &i64, v: &i64) -> Number
    ensures { result.value ≡ combined reduction so_far.now v.now }
{
    Number {
        value: reduction.combined(*so_far, *v),
    }
}
