//! Linear forms.

/// a and b of a subscript `a * I + b` in a dummy I.
#[derive(Clone, Copy, PartialEq, Eq)]
pub struct LinearForm {
    pub a: i64,
    pub b: i64,
}
