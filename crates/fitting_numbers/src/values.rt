//! The initial values of declared names.

ghost use Rattle.std.specs.Prelude.{IfSome, slice_get};
ghost use Rattle.fitting_states.specs.FittingStates.{InitialValueFits, InitialValuesFit};

use crate::terms::number_fits;
use name_table::{Names, What};

/// The initial values of the names that a program declares are of 64 bits: a symbol table holds no others. It reads each of them, takes no memory
/// and changes nothing.
pub fn initial_values_fit(names: &Names)
    ensures { InitialValuesFit names.now }
{
    for place in 0..names.len() {
        value_at_fits(names, place);
    }
}

/// The initial value at a place is of 64 bits, if there is a name.
fn value_at_fits(names: &Names, place: usize)
    ensures { IfSome (slice_get names.now place) (λ e. InitialValueFits e.what) }
{
    match names.get(place) {
        Some(entry) => initial_value_fits(&entry.what),
        None => {}
    }
}

/// The initial value of a name is of 64 bits.
fn initial_value_fits(what: &What)
    ensures { InitialValueFits what.now }
{
    match what {
        What::Scalar(n) | What::Array(_, n) => number_fits(n),
        What::Constant(_) | What::Template | What::Arrangement => {}
    }
}
