//! Why an evaluation ends without a value.

ghost use Rattle.std.specs.Prelude.{◌≡◌, IfOk, box_value};
ghost use Rattle.term_values.specs.AtTuples.{IsAtTuple};
ghost use Rattle.term_values.specs.declared.stops.Place.TheVariants.{Nowhere};
ghost use Rattle.term_values.specs.declared.stops.Stop.TheVariants.{Fault};

use array_meaning::FaultKind;
use std::alloc::{AllocError, AllocFailed, Global};

/// A fault: its kind, and where it comes.
#[derive(Drop)]
pub struct Cause {
    pub kind: FaultKind,
    pub at: Place,
}

/// Where a fault comes: at the tuple for which an array expression was evaluated, or between two iterations that interfere. A fault of a
/// scalar statement has neither. What it holds lies elsewhere, so that every result that may be a fault stays small.
#[derive(Drop)]
pub enum Place {
    Nowhere,
    AtTuple(Box<Vec<i64>>),
    Between(Box<Interference>),
}

/// Two iterations that interfere, by their index tuples, and the object that both access.
#[derive(Drop)]
pub struct Interference {
    pub earlier: Vec<i64>,
    pub later: Vec<i64>,
    pub object: Object,
}

/// A scalar, or an element of an array with its subscripts, by the place of its name.
#[derive(Drop)]
pub struct Object {
    pub name: usize,
    pub subscripts: Option<Vec<i64>>,
}

/// Why there is no value: a fault, or want of memory.
#[derive(Drop)]
pub enum Stop {
    Fault(Cause),
    Memory,
}

/// A fault at no tuple. It takes no memory.
pub fn fault(kind: FaultKind) -> Stop
    ensures { result ≡ Fault (record { kind = kind; at = Nowhere }) }
{
    Stop::Fault(Cause {
        kind,
        at: Place::Nowhere,
    })
}

/// A stop as one at a tuple, which it has from now on; want of memory where there is none to keep the tuple.
pub fn at_tuple(alloc: Global, tuple: &[i64], stop: Stop) -> Stop
    ensures { IsAtTuple tuple.now stop result }
{
    match stop {
        Stop::Memory => Stop::Memory,
        Stop::Fault(cause) => match copied(alloc, tuple) {
            Ok(tuple) => Stop::Fault(Cause {
                kind: cause.kind,
                at: Place::AtTuple(tuple),
            }),
            Err(_) => Stop::Memory,
        },
    }
}

/// A copy of the numbers in a box.
fn copied(alloc: Global, numbers: &[i64]) -> Result<Box<Vec<i64>>, AllocError>
    ensures { IfOk result (λ b. (box_value b).items ≡ numbers.now) }
{
    let mut v = Vec::new(alloc);
    v.extend_from_slice(numbers)?;
    let b = Box::new(alloc, v)?;
    Ok(b)
}

impl From<AllocError> for Stop {
    ghost use Rattle.std.specs.Prelude.{◌≡◌};
    ghost use Rattle.term_values.specs.declared.stops.Stop.TheVariants.{Memory};

    ghost from_gives = { λ _ e. e ≡ Memory };

    fn from(_error: AllocError) -> Stop {
        Stop::Memory
    }
}

impl<T: Drop> From<AllocFailed<T>> for Stop {
    ghost use Rattle.std.specs.Prelude.{◌≡◌};
    ghost use Rattle.term_values.specs.declared.stops.Stop.TheVariants.{Memory};

    ghost from_gives = { λ _ e. e ≡ Memory };

    fn from(_error: AllocFailed<T>) -> Stop {
        Stop::Memory
    }
}
