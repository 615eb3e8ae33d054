//! Answers that may not be known.

ghost use Rattle.std.specs.Prelude.{◌≡◌, true, false};

/// A value, where it is known; elsewhere the number says nothing.
#[derive(Clone, Copy)]
pub struct Known {
    pub value: i64,
    pub known: bool,
}

/// The place of an element in array element order, from 0, where it is known; elsewhere the number says nothing.
#[derive(Clone, Copy)]
pub struct KnownPlace {
    pub place: usize,
    pub known: bool,
}

/// A value that is known.
#[inline(always)]
pub fn found(value: i64) -> Known
    ensures value { result.value ≡ value }
    ensures known { result.known ≡ true }
{
    Known { value, known: true }
}

/// A value that isn't known.
#[inline(always)]
pub fn unknown() -> Known
    ensures { result.known ≡ false }
{
    Known {
        value: 0,
        known: false,
    }
}

/// A place that is known.
#[inline(always)]
pub(crate) fn found_place(place: usize) -> KnownPlace
    ensures place { result.place ≡ place }
    ensures known { result.known ≡ true }
{
    KnownPlace { place, known: true }
}

/// A place that isn't known.
#[inline(always)]
pub(crate) fn unknown_place() -> KnownPlace
    ensures { result.known ≡ false }
{
    KnownPlace {
        place: 0,
        known: false,
    }
}
