//! How deep an expression is.

ghost use Rattle.std.specs.Prelude.{◌≡◌, ◌≤◌, ◌↔◌, IsTrue};
ghost use Rattle.syntax_tree.specs.Expression.{expression, subscript, arguments_of, parts_of};
ghost use Rattle.syntax_tree.specs.Spelling.{depth, part_depth, list_depth, maybe_depth};
ghost use Rattle.expr_reader.specs.TokenReading.{maybe_in};

use syntax_tree::{Expr, Subscript};

/// Whether an expression has at most so many levels.
#[cycle(depth)]
pub fn fits(tree: &Expr, levels: usize) -> bool
    ensures { IsTrue result ↔ (depth (expression tree.now) ≤ levels) }
{
    if levels == 0 {
        return false;
    }
    match tree {
        Expr::Int(_) | Expr::Bool(_) => true,
        Expr::Ref(reference) => match &reference.subs {
            None => true,
            Some(parts) => parts_fit(parts, levels - 1),
        },
        Expr::Unary(_, a) => fits(a, levels - 1),
        Expr::Binary(_, a, b) => fits(a, levels - 1) && fits(b, levels - 1),
        Expr::Call(_, arguments) => arguments_fit(arguments, levels - 1),
        Expr::Paren(a) => fits(a, levels - 1),
    }
}

/// Whether each part of a list has at most so many levels.
#[cycle(depth)]
fn parts_fit(parts: &[Subscript], levels: usize) -> bool
    ensures { IsTrue result ↔ (list_depth (parts_of parts.now) ≤ levels) }
{
    for part in parts {
        if !part_fits(part, levels) {
            return false;
        }
    }
    true
}

/// Whether each argument has at most so many levels.
#[cycle(depth)]
fn arguments_fit(arguments: &[Expr], levels: usize) -> bool
    ensures { IsTrue result ↔ (list_depth (arguments_of arguments.now) ≤ levels) }
{
    for argument in arguments {
        if !fits(argument, levels) {
            return false;
        }
    }
    true
}

/// Whether each expression of a part has at most so many levels.
#[cycle(depth)]
fn part_fits(part: &Subscript, levels: usize) -> bool
    ensures { IsTrue result ↔ (part_depth (subscript part.now) ≤ levels) }
{
    match part {
        Subscript::One(e) => fits(e, levels),
        Subscript::Triplet { first, last, step } => {
            maybe_fits(first, levels) && maybe_fits(last, levels) && maybe_fits(step, levels)
        }
    }
}

/// Whether an expression that may be there has at most so many levels.
#[cycle(depth)]
fn maybe_fits(tree: &Option<Expr>, levels: usize) -> bool
    ensures { IsTrue result ↔ (maybe_depth (maybe_in tree.now) ≤ levels) }
{
    match tree {
        None => true,
        Some(e) => fits(e, levels),
    }
}
