//! The values of the indices of a FORALL, of which there are none elsewhere.

ghost use Rattle.std.specs.Prelude.{◌≡◌, List, ℤ};
ghost use Rattle.array_meaning.specs.Expressions.{index_value};

/// Where the values of indices come from.
pub(crate) trait Indices {
    ghost values: { Self → List ℤ };

    /// The value of an index, by its place in the header.
    fn value(&self, k: usize) -> i64
        ensures { result ≡ index_value (values self.now) k };
}

/// No indices, as in all statements but FORALL.
#[derive(Clone, Copy)]
pub(crate) struct NoIndices;

impl Indices for NoIndices {
    ghost use Rattle.std.specs.Prelude.{[]};

    ghost values = { λ i. [] };

    #[inline(always)]
    fn value(&self, _k: usize) -> i64 {
        0
    }
}

/// The values of the indices at a tuple of a FORALL.
#[derive(Clone, Copy)]
pub(crate) struct IndexValues<'a> {
    pub(crate) values: &'a [i64],
}

impl<'a> Indices for IndexValues<'a> {
    ghost values = { λ i. i.values.now };

    #[inline(always)]
    fn value(&self, k: usize) -> i64 {
        if k < self.values.len() {
            self.values[k]
        } else {
            0
        }
    }
}
