//! The rules of DISTRIBUTE and REDISTRIBUTE (HPF 2.0, 3.3 and 8.3).

ghost use Rattle.std.specs.Prelude.{◌≡◌, ◌≤◌, ◌∷◌, ◌||◌, [], length, map, option_copied, Some, IfOk};
ghost use Rattle.std.specs.List.{flat_map, list_any};
ghost use Rattle.syntax_tree.specs.Directive.{distribution, format_of};
ghost use Rattle.syntax_tree.specs.Expression.{expression};
ghost use Rattle.declarations.specs.Declaring.{least_reason};
ghost use Rattle.mappings.specs.declared.limits.TheConstants.{MAX_BLOCK};
ghost use Rattle.distribution_rules.specs.DistributionRules.{distributed_count, distributed_dims, distributee_reasons, distribution_reasons, distribution_values, format_reasons, format_value, have_small_sum, is_unfit, processors_of, processors_reasons, size_reasons};
ghost use Rattle.distribution_rules.specs.Setting.{is_array_kind, is_mapped_kind, value_in};

use crate::block_sizes::have_small_sum;
use crate::blocks::has_unfit;
use crate::evaluated_formats::{
    DistributionValues, FormatValue, FormatValues, Processors, SizeValues,
};
use crate::least_reason::{lesser, reason_if};
use crate::objects::{Object, ObjectKind};
use crate::processors::{on_grid, onto_object};
use crate::setting::{Setting, value_in};
use crate::spaces::has_wide;
use expression_rules::{Dim, Evaluated};
use hpf_base::{Name, Reason};
use mappings::{MAX_BLOCK, MAX_CYCLIC};
use std::alloc::{AllocError, Global};
use syntax_tree::{DistSpec, Expr, Format};

/// The formats of a DISTRIBUTE or REDISTRIBUTE, with the values of their expressions, and the processors. An `Err` is want of memory.
pub fn distribution_values(
    alloc: Global,
    setting: &Setting<'_>,
    spec: &DistSpec,
) -> Result<DistributionValues, AllocError>
    ensures { IfOk result (λ v. v ≡ distribution_values setting.now (distribution spec.now)) }
{
    let formats = format_values(alloc, setting, &spec.formats)?;
    let count = distributed_count(&spec.formats);
    let processors = processors_of(alloc, setting, &spec.onto, count)?;
    Ok(DistributionValues {
        formats,
        processors,
    })
}

/// Formats, with the values of their expressions.
fn format_values(
    alloc: Global,
    setting: &Setting<'_>,
    formats: &[Format],
) -> Result<FormatValues, AllocError>
    ensures { IfOk result (λ vs. vs ≡ map (format_value setting.now) (map format_of formats.now)) }
{
    let mut values = Vec::new(alloc);
    for format in formats {
        let value = format_value(alloc, setting, format)?;
        values.push(value)?;
    }
    Ok(FormatValues::new(values))
}

/// A format, with the values of the expressions after it.
fn format_value(
    alloc: Global,
    setting: &Setting<'_>,
    format: &Format,
) -> Result<FormatValue, AllocError>
    ensures { IfOk result (λ v. v ≡ format_value setting.now (format_of format.now)) }
{
    match format {
        Format::Star => Ok(FormatValue::Undistributed),
        Format::Block(None) => Ok(FormatValue::DefaultBlock),
        Format::Block(Some(m)) => {
            let found = value_in(alloc, setting, m)?;
            Ok(FormatValue::Block(found))
        }
        Format::Cyclic(None) => Ok(FormatValue::Cyclic(Evaluated::Known(1))),
        Format::Cyclic(Some(k)) => {
            let found = value_in(alloc, setting, k)?;
            Ok(FormatValue::Cyclic(found))
        }
        Format::GenBlock(sizes) => {
            let found = size_values(alloc, setting, sizes)?;
            Ok(FormatValue::GenBlock(found))
        }
    }
}

/// The values of the sizes of GEN_BLOCK.
fn size_values(
    alloc: Global,
    setting: &Setting<'_>,
    sizes: &[Expr],
) -> Result<SizeValues, AllocError>
    ensures { IfOk result (λ vs. vs ≡ map (value_in setting.now) (map expression sizes.now)) }
{
    let mut values = Vec::new(alloc);
    for size in sizes {
        let value = value_in(alloc, setting, size)?;
        values.push(value)?;
    }
    Ok(SizeValues::new(values))
}

/// How many of the dimensions are distributed.
fn distributed_count(formats: &[Format]) -> usize
    ensures { result ≡ distributed_count (map format_of formats.now) }
{
    let mut count = 0;
    for format in formats {
        count += one_if_distributed(format);
    }
    count
}

/// 1 for a dimension that is distributed, 0 for one that isn't.
fn one_if_distributed(format: &Format) -> usize
    ensures value { result ≡ distributed_count (format_of format.now ∷ []) }
    ensures few { result ≤ 1 }
{
    match format {
        Format::Star => 0,
        Format::Block(_) | Format::Cyclic(_) | Format::GenBlock(_) => 1,
    }
}

/// The processors over which so many dimensions are distributed.
fn processors_of(
    alloc: Global,
    setting: &Setting<'_>,
    onto: &Option<Name>,
    count: usize,
) -> Result<Processors, AllocError>
    ensures { IfOk result (λ p. p ≡ processors_of setting.now onto.now count) }
{
    match onto {
        None => on_grid(alloc, setting.grid(), count),
        Some(name) => onto_object(alloc, setting.object(name), count),
    }
}

/// The least reason for which a distribution breaks a rule, whatever its distributees are; None exactly where it breaks none. It takes no
/// memory.
#[tactic(auto, using(declarations::proofs::LeastReasons::least_reason_append))]
pub fn bad_distribution(values: &DistributionValues) -> Option<Reason>
    ensures { result ≡ least_reason (distribution_reasons values.now) }
{
    lesser(
        formats_reason(values.formats.as_slice()),
        processors_reason(&values.processors),
    )
}

/// The least reason for which formats break a rule.
fn formats_reason(formats: &[FormatValue]) -> Option<Reason>
    ensures { result ≡ least_reason (flat_map format_reasons formats.now) }
{
    let mut least = None;
    for format in formats {
        least = lesser(least, format_reason(format));
    }
    least
}

/// The least reason for which one format breaks a rule.
fn format_reason(format: &FormatValue) -> Option<Reason>
    ensures { result ≡ least_reason (format_reasons format.now) }
{
    match format {
        FormatValue::Undistributed | FormatValue::DefaultBlock => None,
        FormatValue::Block(m) => size_reason(1, MAX_BLOCK, m),
        FormatValue::Cyclic(k) => size_reason(1, MAX_CYCLIC, k),
        FormatValue::GenBlock(sizes) => sizes_reason(sizes.as_slice()),
    }
}

/// The least reason for which the sizes of GEN_BLOCK break a rule, whatever their number and their sum.
fn sizes_reason(sizes: &[Evaluated<i64>]) -> Option<Reason>
    ensures { result ≡ least_reason (flat_map (size_reasons 0 MAX_BLOCK) sizes.now) }
{
    let mut least = None;
    for size in sizes {
        least = lesser(least, size_reason(0, MAX_BLOCK, size));
    }
    least
}

/// The least reason for which m of BLOCK(m), k of CYCLIC(k) or a size of GEN_BLOCK breaks a rule: it must be at least so much and at most
/// so much.
fn size_reason(least: u64, most: u64, size: &Evaluated<i64>) -> Option<Reason>
    ensures { result ≡ least_reason (size_reasons least most size.now) }
{
    match size {
        Evaluated::Invalid => Some(Reason::BadConstant),
        Evaluated::Unknown => None,
        Evaluated::Known(n) => lesser(
            reason_if((*n as i128) < least as i128, Reason::BadDirective),
            reason_if(*n as i128 > most as i128, Reason::Limit),
        ),
    }
}

/// The reason for which there are no processors.
fn processors_reason(processors: &Processors) -> Option<Reason>
    ensures { result ≡ least_reason (processors_reasons processors.now) }
{
    match processors {
        Processors::Missing(reason) => Some(*reason),
        Processors::Extents(_) | Processors::Unknown => None,
    }
}

/// The least reason for which the distribution of an object breaks a rule; None exactly where it breaks none. The object None stands for a
/// name that is no array, template or arrangement. It takes no memory.
pub fn bad_distributee(values: &DistributionValues, object: Option<&Object>) -> Option<Reason>
    ensures { result ≡ least_reason (distributee_reasons values.now (option_copied object.entry)) }
{
    match object {
        None => Some(Reason::BadDirective),
        Some(object) => distributee_reason(values, object),
    }
}

/// The least reason for which the distribution of an array, a template or an arrangement breaks a rule.
fn distributee_reason(values: &DistributionValues, object: &Object) -> Option<Reason>
    ensures { result ≡ least_reason (distributee_reasons values.now (Some object.now)) }
{
    let dims = object.dims.as_slice();
    if !is_mapped(object.kind) || values.formats.as_slice().len() != dims.len() {
        return Some(Reason::BadDirective);
    }
    lesser(
        reason_if(is_array(object.kind) && has_wide(dims), Reason::Limit),
        reason_if(have_wrong_blocks(values, dims), Reason::BadDirective),
    )
}

/// Whether the blocks of a dimension don't fit the processors, or are too small in all.
fn have_wrong_blocks(values: &DistributionValues, dims: &[Option<Dim>]) -> bool
    requires { length values.now.formats ≡ length dims.now }
    ensures { result ≡ (list_any is_unfit (distributed_dims values.now dims.now) || have_small_sum values.now.formats dims.now) }
{
    has_unfit(values, dims) || have_small_sum(values.formats.as_slice(), dims)
}

/// Whether it is an array or a template.
fn is_mapped(kind: ObjectKind) -> bool
    ensures { result ≡ is_mapped_kind kind }
{
    !matches!(kind, ObjectKind::Arrangement)
}

/// Whether it is an array.
fn is_array(kind: ObjectKind) -> bool
    ensures { result ≡ is_array_kind kind }
{
    matches!(kind, ObjectKind::Array)
}
