//! Alignments with the values of their expressions (HPF 2.0, 3.4).

ghost use Rattle.std.specs.Prelude.{◌≡◌};

use expression_rules::Dim;
use hpf_base::Name;
use linear_subscripts::LinearForm;
use mappings::AlignDim;
use std::marker::Model;

/// What stands for a dimension of the target.
#[derive(Clone, Copy)]
pub enum TargetValue {
    /// `*`.
    Every,
    /// A subscript: the align dummy in it, if there is one, and its linear form, where it is known.
    Subscript(Option<Name>, Option<LinearForm>),
    /// A triplet: its first and its last subscript and its stride, each where it is known.
    Triplet(Option<i64>, Option<i64>, Option<i64>),
}

/// A dimension of the target: what stands for it, its bounds, and the dimension of the alignee, from 0, along which its subscript moves,
/// with its bounds. Bounds are None where they aren't known.
#[derive(Clone, Copy)]
pub struct Pair {
    pub value: TargetValue,
    pub bounds: Option<Dim>,
    pub dim: u32,
    pub along: Option<Dim>,
}

/// What stands for the dimensions of the target, the first one first. Contracts see the list.
#[derive(Drop)]
pub struct TargetValues {
    values: Vec<TargetValue>,
}

impl Model for TargetValues {
    ghost use Rattle.std.specs.Prelude.{List};
    ghost use Rattle.alignment_rules.specs.declared.alignment_values.TargetValue.{TargetValue};

    ghost Value = { List TargetValue };

    ghost view = { λ t. t.values.items };
}

impl TargetValues {
    /// These values. It takes no memory.
    pub(crate) fn new(values: Vec<TargetValue>) -> TargetValues
        ensures { result ≡ values.items }
    {
        TargetValues { values }
    }

    /// The values in order.
    pub fn as_slice(&self) -> &[TargetValue]
        ensures { result.now ≡ self.now }
    {
        &self.values
    }
}

/// What the dimensions of the target are given for an element of the alignee, the first one first. Contracts see the list.
#[derive(Drop)]
pub struct AlignDims {
    entries: Vec<AlignDim>,
}

impl Model for AlignDims {
    ghost use Rattle.std.specs.Prelude.{List};
    ghost use Rattle.mappings.specs.declared.mapping.AlignDim.{AlignDim};

    ghost Value = { List AlignDim };

    ghost view = { λ a. a.entries.items };
}

impl AlignDims {
    /// These entries. It takes no memory.
    pub fn new(entries: Vec<AlignDim>) -> AlignDims
        ensures { result ≡ entries.items }
    {
        AlignDims { entries }
    }

    /// The entries in order.
    pub fn as_slice(&self) -> &[AlignDim]
        ensures { result.now ≡ self.now }
    {
        &self.entries
    }

    /// The entries in order. It takes no memory.
    pub(crate) fn into_vec(self) -> Vec<AlignDim>
        ensures { result.items ≡ self }
    {
        self.entries
    }
}

/// The alignment of an object.
#[derive(Drop)]
pub enum Alignment {
    /// What each dimension of the target is given, within the limits.
    Known(AlignDims),
    /// A number in it is past its limit.
    PastLimits,
    Unknown,
}
