//! Lists of names.

ghost use Rattle.std.specs.Prelude.{◌≡◌};

use source_lines::Name;
use std::marker::Model;

/// Names, as they stand. Contracts see their list.
#[derive(Drop)]
pub struct NameList {
    names: Vec<Name>,
}

impl Model for NameList {
    ghost use Rattle.std.specs.Prelude.{List, ℕ};

    ghost Value = { List (List ℕ) };

    ghost view = { λ n. n.names.items };
}

impl NameList {
    /// These names. It takes no memory.
    pub fn new(names: Vec<Name>) -> NameList
        ensures { result ≡ names.items }
    {
        NameList { names }
    }

    /// The names, in order. It takes no memory.
    pub fn as_slice(&self) -> &[Name]
        ensures { result.now ≡ self.now }
    {
        &self.names
    }
}
