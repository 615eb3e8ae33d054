//! What is known of the value of an expression.

ghost use Rattle.std.specs.Prelude.{◌≡◌, ◌++◌, ◌∷◌, [], OnOk};

use std::alloc::{AllocError, Global};
use std::marker::Model;

/// What is known of the value of an expression that must be constant.
#[derive(Drop)]
pub enum Evaluated<T> {
    /// The expression isn't constant, or divides by zero.
    Invalid,
    /// The expression is constant, but rests on what another rule refuses.
    Unknown,
    Known(T),
}

/// Numbers, in order. Contracts see their list.
#[derive(Drop)]
pub struct Numbers {
    numbers: Vec<i64>,
}

impl Model for Numbers {
    ghost use Rattle.std.specs.Prelude.{List, ℤ};

    ghost Value = { List ℤ };

    ghost view = { λ n. n.numbers.items };
}

impl Numbers {
    /// No number. It takes no memory.
    pub fn new(alloc: Global) -> Numbers
        ensures { result ≡ [] }
    {
        Numbers {
            numbers: Vec::new(alloc),
        }
    }

    /// One number more, at the end.
    pub fn push(&mut self, number: i64) -> Result<(), AllocError>
        ensures { OnOk result (self.new ≡ self.old ++ number ∷ []) }
    {
        self.numbers.push(number)?;
        Ok(())
    }

    /// The numbers in order.
    pub fn as_slice(&self) -> &[i64]
        ensures { result.now ≡ self.now }
    {
        &self.numbers
    }
}
