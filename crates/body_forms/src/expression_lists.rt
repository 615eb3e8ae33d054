//! The expressions of statements, each with all that is inside it.

ghost use Rattle.std.specs.Prelude.{◌≡◌, ◌&&◌, map, option_map};
ghost use Rattle.std.specs.List.{flat_map, list_all};
ghost use Rattle.syntax_tree.specs.Directive.{format_of};
ghost use Rattle.syntax_tree.specs.Expression.{expression};
ghost use Rattle.syntax_tree.specs.Statement.{axis, designator, item_of, variable};
ghost use Rattle.expression_rules.specs.Inner.{axis_expressions, format_expressions, item_expressions, present};
ghost use Rattle.body_forms.specs.Axes.{axis_of};
ghost use Rattle.body_forms.specs.Subexpressions.{all_inside};

use crate::subexpressions::{ExpressionTest, all_pass, all_pass_reference};
use syntax_tree::{Expr, Format, Header, Item, Ref};

/// Both sides of an assignment pass.
#[tactic(auto, using(syntax_tree::proofs::Designators::designated))]
pub fn sides_pass<T: ExpressionTest>(test: &T, left: &Ref, right: &Expr) -> bool
    ensures { result ≡ (all_inside (T.passes test.now) (designator (variable left.now)) && all_inside (T.passes test.now) (expression right.now)) }
{
    all_pass_reference(test, left) && all_pass(test, right)
}

/// The bounds and the step of an index pass.
pub fn axis_passes<T: ExpressionTest>(
    test: &T,
    first: &Expr,
    last: &Expr,
    step: &Option<Expr>,
) -> bool
    ensures { result ≡ list_all (all_inside (T.passes test.now)) (axis_expressions (axis_of first.now last.now step.now)) }
{
    all_pass(test, first) && all_pass(test, last) && option_passes(test, step)
}

/// An expression that may be there passes.
pub fn option_passes<T: ExpressionTest>(test: &T, e: &Option<Expr>) -> bool
    ensures { result ≡ list_all (all_inside (T.passes test.now)) (present (option_map expression e.now)) }
{
    match e {
        None => true,
        Some(e) => all_pass(test, e),
    }
}

/// Those of all indices of a FORALL pass.
#[tactic(auto, using(expression_rules::proofs::Folds::all_append))]
pub fn headers_pass<T: ExpressionTest>(test: &T, axes: &[Header]) -> bool
    ensures { result ≡ list_all (all_inside (T.passes test.now)) (flat_map axis_expressions (map axis axes.now)) }
{
    let mut all = true;
    for one in axes {
        all &= axis_passes(test, &one.first, &one.last, &one.step);
    }
    all
}

/// The items of a PRINT pass.
#[tactic(auto, using(expression_rules::proofs::Folds::all_append))]
pub fn items_pass<T: ExpressionTest>(test: &T, items: &[Item]) -> bool
    ensures { result ≡ list_all (all_inside (T.passes test.now)) (flat_map item_expressions (map item_of items.now)) }
{
    let mut all = true;
    for item in items {
        all &= item_passes(test, item);
    }
    all
}

/// One item of a PRINT passes.
fn item_passes<T: ExpressionTest>(test: &T, item: &Item) -> bool
    ensures { result ≡ list_all (all_inside (T.passes test.now)) (item_expressions (item_of item.now)) }
{
    match item {
        Item::Value(e) => all_pass(test, e),
        Item::Text(_) => true,
    }
}

/// The sizes of the blocks of formats pass.
#[tactic(auto, using(expression_rules::proofs::Folds::all_append))]
pub fn formats_pass<T: ExpressionTest>(test: &T, formats: &[Format]) -> bool
    ensures { result ≡ list_all (all_inside (T.passes test.now)) (flat_map format_expressions (map format_of formats.now)) }
{
    let mut all = true;
    for one in formats {
        all &= format_passes(test, one);
    }
    all
}

/// Those of one format pass.
fn format_passes<T: ExpressionTest>(test: &T, one: &Format) -> bool
    ensures { result ≡ list_all (all_inside (T.passes test.now)) (format_expressions (format_of one.now)) }
{
    match one {
        Format::Star => true,
        Format::Block(size) => option_passes(test, size),
        Format::Cyclic(size) => option_passes(test, size),
        Format::GenBlock(sizes) => list_passes(test, sizes),
    }
}

/// All expressions of a list pass.
fn list_passes<T: ExpressionTest>(test: &T, list: &[Expr]) -> bool
    ensures { result ≡ list_all (all_inside (T.passes test.now)) (map expression list.now) }
{
    let mut all = true;
    for e in list {
        all &= all_pass(test, e);
    }
    all
}
