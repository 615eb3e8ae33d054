//! Distributions with the values of their expressions (HPF 2.0, 3.3).

ghost use Rattle.std.specs.Prelude.{◌≡◌, ◌≤◌, ◌^◌, ◌++◌, ◌∷◌, [], All, OnOk};

use expression_rules::Evaluated;
use hpf_base::Reason;
use std::alloc::{AllocError, Global};
use std::marker::Model;

/// A format of a dimension, with the values of the expressions after it. CYCLIC alone is CYCLIC(1).
#[derive(Drop)]
pub enum FormatValue {
    Undistributed,
    /// BLOCK alone.
    DefaultBlock,
    Block(Evaluated<i64>),
    Cyclic(Evaluated<i64>),
    GenBlock(SizeValues),
}

/// The sizes of GEN_BLOCK, that of the first block first. Contracts see their list.
#[derive(Drop)]
pub struct SizeValues {
    sizes: Vec<Evaluated<i64>>,
}

impl Model for SizeValues {
    ghost use Rattle.std.specs.Prelude.{List, ℤ};
    ghost use Rattle.expression_rules.specs.declared.evaluated.Evaluated.{Evaluated};

    ghost Value = { List (Evaluated ℤ) };

    ghost view = { λ s. s.sizes.items };
}

impl SizeValues {
    /// These sizes. It takes no memory.
    pub(crate) fn new(sizes: Vec<Evaluated<i64>>) -> SizeValues
        ensures { result ≡ sizes.items }
    {
        SizeValues { sizes }
    }

    /// The sizes in order.
    pub fn as_slice(&self) -> &[Evaluated<i64>]
        ensures { result.now ≡ self.now }
    {
        &self.sizes
    }
}

/// Formats, that of the first dimension first. Contracts see their list.
#[derive(Drop)]
pub struct FormatValues {
    formats: Vec<FormatValue>,
}

impl Model for FormatValues {
    ghost use Rattle.std.specs.Prelude.{List};
    ghost use Rattle.distribution_rules.specs.declared.evaluated_formats.FormatValue.{FormatValue};

    ghost Value = { List FormatValue };

    ghost view = { λ f. f.formats.items };
}

impl FormatValues {
    /// These formats. It takes no memory.
    pub(crate) fn new(formats: Vec<FormatValue>) -> FormatValues
        ensures { result ≡ formats.items }
    {
        FormatValues { formats }
    }

    /// The formats in order.
    pub fn as_slice(&self) -> &[FormatValue]
        ensures { result.now ≡ self.now }
    {
        &self.formats
    }
}

/// The extents of an arrangement of processors, that of the first dimension first. Contracts see their list.
#[derive(Drop)]
pub struct ProcessorExtents {
    extents: Vec<u128>,
}

impl Model for ProcessorExtents {
    ghost use Rattle.std.specs.Prelude.{List, ℕ};

    ghost Value = { List ℕ };

    ghost view = { λ p. p.extents.items };

    ghost use Rattle.std.specs.Prelude.{◌≤◌, ◌^◌, All};

    ghost invariant = { λ p. All (λ n. n ≤ 2 ^ 64) p.extents.items };
}

impl ProcessorExtents {
    /// No extents. It takes no memory.
    pub(crate) fn new(alloc: Global) -> ProcessorExtents
        ensures { result ≡ [] }
    {
        ProcessorExtents {
            extents: Vec::new(alloc),
        }
    }

    /// One extent more, at the end.
    pub(crate) fn push(&mut self, extent: u128) -> Result<(), AllocError>
        requires { extent ≤ 2 ^ 64 }
        ensures { OnOk result (self.new ≡ self.old ++ extent ∷ []) }
    {
        self.extents.push(extent)?;
        Ok(())
    }

    /// The extents in order.
    pub fn as_slice(&self) -> &[u128]
        ensures value { result.now ≡ self.now }
        ensures few { All (λ n. n ≤ 2 ^ 64) self.now }
    {
        &self.extents
    }
}

/// The processors over which dimensions are distributed.
#[derive(Drop)]
pub enum Processors {
    /// An arrangement of these extents.
    Extents(ProcessorExtents),
    /// An arrangement whose extents aren't known, or of which one is 0.
    Unknown,
    /// None, for this reason.
    Missing(Reason),
}

/// A DISTRIBUTE or REDISTRIBUTE: a format for each dimension, and the processors.
#[derive(Drop)]
pub struct DistributionValues {
    pub formats: FormatValues,
    pub processors: Processors,
}
