//! Tests of all expressions in parts of statements, declarations and directives.

ghost use Rattle.std.specs.Prelude.{◌≡◌, ◌∷◌, map, option_map, Bool, IfOk};
ghost use Rattle.std.specs.List.{flat_map, list_all};
ghost use Rattle.syntax_tree.specs.Directive.{arrangement, bound, directive_of, format_of, target_of};
ghost use Rattle.syntax_tree.specs.Expression.{Expression, expression, subscript};
ghost use Rattle.syntax_tree.specs.Statement.{axis, item_of};
ghost use Rattle.expression_rules.specs.Inner.{axis_expressions, bound_expressions, format_expressions, item_expressions, present};
ghost use Rattle.declarations.specs.Declarations.{bounds_of};
ghost use Rattle.name_table.specs.Directives.{directive_expressions, entity_expressions, part_expressions, target_expressions};

use std::alloc::AllocError;
use syntax_tree::{Bound, Directive, Entity, Expr, Format, Header, Item, Subscript, Target};

/// A test of expressions.
pub(crate) trait ExpressionTest {
    /// The expression passes the test.
    ghost passes: { Self → Expression → Bool };

    /// Whether an expression passes the test. An `Err` is want of memory, here and below.
    fn test(&self, e: &Expr) -> Result<bool, AllocError>
        ensures { IfOk result (λ b. b ≡ passes self.now (expression e.now)) };
}

/// Whether an expression that may be there passes.
pub(crate) fn in_option<T: ExpressionTest>(test: &T, e: &Option<Expr>) -> Result<bool, AllocError>
    ensures { IfOk result (λ b. b ≡ list_all (T.passes test.now) (present (option_map expression e.now))) }
{
    match e {
        None => Ok(true),
        Some(e) => test.test(e),
    }
}

/// Whether the first and the last value of an index pass, and its step where there is one.
pub(crate) fn in_axis<T: ExpressionTest>(
    test: &T,
    first: &Expr,
    last: &Expr,
    step: &Option<Expr>,
) -> Result<bool, AllocError>
    ensures { IfOk result (λ b. b ≡ list_all (T.passes test.now) (expression first.now ∷ expression last.now ∷ present (option_map expression step.now))) }
{
    let first = test.test(first)?;
    let last = test.test(last)?;
    let step = in_option(test, step)?;
    Ok(first & last & step)
}

/// Whether the first and the last value of an index of a FORALL pass, and its step where there is one.
fn in_header<T: ExpressionTest>(test: &T, header: &Header) -> Result<bool, AllocError>
    ensures { IfOk result (λ b. b ≡ list_all (T.passes test.now) (axis_expressions (axis header.now))) }
{
    in_axis(test, &header.first, &header.last, &header.step)
}

/// Whether the expressions of all indices of a FORALL pass.
#[tactic(auto, using(expression_rules::proofs::Folds::all_append))]
pub(crate) fn in_headers<T: ExpressionTest>(
    test: &T,
    headers: &[Header],
) -> Result<bool, AllocError>
    ensures { IfOk result (λ b. b ≡ list_all (T.passes test.now) (flat_map axis_expressions (map axis headers.now))) }
{
    let mut all = true;
    for header in headers {
        let good = in_header(test, header)?;
        all &= good;
    }
    Ok(all)
}

/// Whether the expression in an item of a PRINT passes.
fn in_item<T: ExpressionTest>(test: &T, item: &Item) -> Result<bool, AllocError>
    ensures { IfOk result (λ b. b ≡ list_all (T.passes test.now) (item_expressions (item_of item.now))) }
{
    match item {
        Item::Value(e) => test.test(e),
        Item::Text(_) => Ok(true),
    }
}

/// Whether the expressions in all items of a PRINT pass.
#[tactic(auto, using(expression_rules::proofs::Folds::all_append))]
pub(crate) fn in_items<T: ExpressionTest>(test: &T, items: &[Item]) -> Result<bool, AllocError>
    ensures { IfOk result (λ b. b ≡ list_all (T.passes test.now) (flat_map item_expressions (map item_of items.now))) }
{
    let mut all = true;
    for item in items {
        let good = in_item(test, item)?;
        all &= good;
    }
    Ok(all)
}

/// Whether the expressions in the format of a dimension pass.
fn in_format<T: ExpressionTest>(test: &T, format: &Format) -> Result<bool, AllocError>
    ensures { IfOk result (λ b. b ≡ list_all (T.passes test.now) (format_expressions (format_of format.now))) }
{
    match format {
        Format::Star => Ok(true),
        Format::Block(e) | Format::Cyclic(e) => in_option(test, e),
        Format::GenBlock(sizes) => in_list(test, sizes),
    }
}

/// Whether all expressions of a list pass.
fn in_list<T: ExpressionTest>(test: &T, list: &[Expr]) -> Result<bool, AllocError>
    ensures { IfOk result (λ b. b ≡ list_all (T.passes test.now) (map expression list.now)) }
{
    let mut all = true;
    for e in list {
        let good = test.test(e)?;
        all &= good;
    }
    Ok(all)
}

/// Whether the expressions in the formats of all dimensions pass.
#[tactic(auto, using(expression_rules::proofs::Folds::all_append))]
pub(crate) fn in_formats<T: ExpressionTest>(
    test: &T,
    formats: &[Format],
) -> Result<bool, AllocError>
    ensures { IfOk result (λ b. b ≡ list_all (T.passes test.now) (flat_map format_expressions (map format_of formats.now))) }
{
    let mut all = true;
    for format in formats {
        let good = in_format(test, format)?;
        all &= good;
    }
    Ok(all)
}

/// Whether the bounds of a dimension pass.
#[tactic(auto, using(expression_rules::proofs::Folds::all_append))]
fn in_bound<T: ExpressionTest>(test: &T, dimension: &Bound) -> Result<bool, AllocError>
    ensures { IfOk result (λ b. b ≡ list_all (T.passes test.now) (bound_expressions (bound dimension.now))) }
{
    let lower = in_option(test, &dimension.lower)?;
    let upper = test.test(&dimension.upper)?;
    Ok(lower & upper)
}

/// Whether the bounds of all dimensions pass.
#[tactic(auto, using(expression_rules::proofs::Folds::all_append))]
fn in_bounds<T: ExpressionTest>(test: &T, bounds: &[Bound]) -> Result<bool, AllocError>
    ensures { IfOk result (λ b. b ≡ list_all (T.passes test.now) (flat_map bound_expressions (map bound bounds.now))) }
{
    let mut all = true;
    for dimension in bounds {
        let good = in_bound(test, dimension)?;
        all &= good;
    }
    Ok(all)
}

/// Whether the bounds of all dimensions pass, where there are bounds.
pub(crate) fn in_bounds_if_any<T: ExpressionTest>(
    test: &T,
    bounds: &Option<Vec<Bound>>,
) -> Result<bool, AllocError>
    ensures { IfOk result (λ b. b ≡ list_all (T.passes test.now) (flat_map bound_expressions (bounds_of (option_map (λ bs. map bound bs.items) bounds.now)))) }
{
    match bounds {
        None => Ok(true),
        Some(bounds) => in_bounds(test, bounds),
    }
}

/// Whether the expressions in a directive pass.
pub(crate) fn in_directive<T: ExpressionTest>(
    test: &T,
    directive: &Directive,
) -> Result<bool, AllocError>
    ensures { IfOk result (λ b. b ≡ list_all (T.passes test.now) (directive_expressions (directive_of directive.now))) }
{
    match directive {
        Directive::Processors(entities) | Directive::Template(entities) => {
            in_arrangements(test, entities)
        }
        Directive::Distribute(spec) => in_formats(test, &spec.formats),
        Directive::Align(spec) => match &spec.subs {
            None => Ok(true),
            Some(targets) => in_targets(test, targets),
        },
        Directive::Dynamic(_) | Directive::Passed => Ok(true),
    }
}

/// Whether the bounds of an arrangement or a template pass. It has bounds alone: where a tree has an initial value beside them,
/// there are none.
fn in_arrangement<T: ExpressionTest>(test: &T, entity: &Entity) -> Result<bool, AllocError>
    ensures { IfOk result (λ b. b ≡ list_all (T.passes test.now) (entity_expressions (arrangement entity.now))) }
{
    match &entity.start {
        None => in_bounds_if_any(test, &entity.dims),
        Some(_) => Ok(true),
    }
}

/// Whether the bounds of all arrangements or templates of a directive pass.
#[tactic(auto, using(expression_rules::proofs::Folds::all_append))]
fn in_arrangements<T: ExpressionTest>(test: &T, entities: &[Entity]) -> Result<bool, AllocError>
    ensures { IfOk result (λ b. b ≡ list_all (T.passes test.now) (flat_map entity_expressions (map arrangement entities.now))) }
{
    let mut all = true;
    for one in entities {
        let good = in_arrangement(test, one)?;
        all &= good;
    }
    Ok(all)
}

/// Whether the expressions in what stands for a dimension of the target of ALIGN pass.
fn in_target<T: ExpressionTest>(test: &T, target: &Target) -> Result<bool, AllocError>
    ensures { IfOk result (λ b. b ≡ list_all (T.passes test.now) (target_expressions (target_of target.now))) }
{
    match target {
        Target::Sub(part) => in_part(test, part),
        Target::Star => Ok(true),
    }
}

/// Whether the expressions in what stands for the dimensions of the target of ALIGN pass.
#[tactic(auto, using(expression_rules::proofs::Folds::all_append))]
fn in_targets<T: ExpressionTest>(test: &T, targets: &[Target]) -> Result<bool, AllocError>
    ensures { IfOk result (λ b. b ≡ list_all (T.passes test.now) (flat_map target_expressions (map target_of targets.now))) }
{
    let mut all = true;
    for target in targets {
        let good = in_target(test, target)?;
        all &= good;
    }
    Ok(all)
}

/// Whether the expressions in a subscript or a triplet pass.
#[tactic(auto, using(expression_rules::proofs::Folds::all_append_three))]
fn in_part<T: ExpressionTest>(test: &T, part: &Subscript) -> Result<bool, AllocError>
    ensures { IfOk result (λ b. b ≡ list_all (T.passes test.now) (part_expressions (subscript part.now))) }
{
    match part {
        Subscript::One(e) => test.test(e),
        Subscript::Triplet { first, last, step } => {
            let first = in_option(test, first)?;
            let last = in_option(test, last)?;
            let step = in_option(test, step)?;
            Ok(first & last & step)
        }
    }
}
