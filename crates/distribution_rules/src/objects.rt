//! What mapping directives name: arrays, templates and processor arrangements (HPF 2.0, 3.6 and 3.7).

ghost use Rattle.std.specs.Prelude.{◌≡◌};

use expression_rules::Dim;
use hpf_base::Name;
use std::marker::Model;

/// What an object of a directive is.
#[derive(Clone, Copy, PartialEq, Eq)]
pub enum ObjectKind {
    Array,
    Template,
    /// A processor arrangement.
    Arrangement,
}

/// The dimensions of an object, the first one first; None stands for one of which a bound isn't known. Contracts see their list.
#[derive(Drop)]
pub struct ObjectDims {
    dims: Vec<Option<Dim>>,
}

impl Model for ObjectDims {
    ghost use Rattle.std.specs.Prelude.{List, Option};
    ghost use Rattle.expression_rules.specs.declared.dims.Dim.{Dim};

    ghost Value = { List (Option Dim) };

    ghost view = { λ d. d.dims.items };
}

impl ObjectDims {
    /// These dimensions. It takes no memory.
    pub(crate) fn new(dims: Vec<Option<Dim>>) -> ObjectDims
        ensures { result ≡ dims.items }
    {
        ObjectDims { dims }
    }

    /// The dimensions in order.
    pub fn as_slice(&self) -> &[Option<Dim>]
        ensures { result.now ≡ self.now }
    {
        &self.dims
    }
}

/// An array, a template or a processor arrangement, with its dimensions.
#[derive(Drop)]
pub struct Object {
    pub name: Name,
    pub kind: ObjectKind,
    pub dims: ObjectDims,
}
