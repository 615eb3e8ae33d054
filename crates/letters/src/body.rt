//! The values in a letter.

ghost use Rattle.std.specs.Prelude.{◌≡◌, [], length};

use std::alloc::Global;
use std::marker::Model;

/// The values in a letter, in order. Contracts see their list.
#[derive(Drop)]
pub struct Body {
    values: Vec<i64>,
}

impl Model for Body {
    ghost use Rattle.std.specs.Prelude.{List, ℤ};

    ghost Value = { List ℤ };

    ghost view = { λ b. b.values.items };
}

impl Body {
    /// A body without values. It takes no memory.
    pub fn new(alloc: Global) -> Body
        ensures { result ≡ [] }
    {
        Body {
            values: Vec::new(alloc),
        }
    }

    /// The number of values.
    pub fn len(&self) -> usize
        ensures { result ≡ length self.now }
    {
        self.values.len()
    }

    /// The values.
    pub fn as_slice(&self) -> &[i64]
        ensures { result.now ≡ self.now }
    {
        self.values.as_slice()
    }
}

impl From<Vec<i64>> for Body {
    ghost use Rattle.std.specs.Prelude.{◌≡◌};

    ghost from_gives = { λ values body. body ≡ values.items };

    /// The body with these values, as they lie. It takes no memory.
    fn from(values: Vec<i64>) -> Body {
        Body { values }
    }
}
