//! How deep expressions may be.

/// Which expressions a reading lets through.
#[derive(Clone, Copy, PartialEq, Eq)]
pub enum Depths {
    /// Those that are at most `MAX_DEPTH` deep.
    Limited,
    /// All, however deep.
    Any,
}
