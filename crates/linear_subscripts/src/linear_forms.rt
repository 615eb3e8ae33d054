//! Subscripts of an align target that are linear in one align dummy (HPF 2.0, 3.4).

ghost use Rattle.std.specs.Prelude.{◌≡◌, ◌&&◌, ◌+ℤ◌, ◌*ℤ◌, bytes_eq, option_map, IfOk};
ghost use Rattle.std.specs.List.{list_all};
ghost use Rattle.op_tables.specs.Operators.{wrapped};
ghost use Rattle.syntax_tree.specs.Expression.{expression, Name as Alone};
ghost use Rattle.declarations.specs.DeclarationRules.{is_invalid};
ghost use Rattle.distribution_rules.specs.Setting.{value_in};
ghost use Rattle.linear_subscripts.specs.LinearForms.{are_same, combined_form, constant_form, has_invalid_part, is_free, is_linear, is_product, is_sign, is_sum, linear_form, signed_form, with_both};

use crate::dummies::is_free;
use crate::form::LinearForm;
use distribution_rules::{Setting, value_in};
use expression_rules::{Evaluated, is_among};
use hpf_base::Name;
use op_tables::Op;
use std::alloc::{AllocError, Global};
use syntax_tree::Expr;

/// Whether all names of a list are one. It takes no memory.
pub fn are_same(names: &[Name]) -> bool
    ensures { result ≡ are_same names.now }
{
    match names.split_first() {
        None => true,
        Some((first, rest)) => are_all(first, rest),
    }
}

/// All of them are this name.
fn are_all(name: &Name, others: &[Name]) -> bool
    ensures { result ≡ list_all (bytes_eq name.now) others.now }
{
    let mut all = true;
    for other in others {
        all &= *name == *other;
    }
    all
}

/// A sign.
fn is_sign(op: Op) -> bool
    ensures { result ≡ is_sign op }
{
    matches!(op, Op::Neg | Op::Plus)
}

/// A sum or a difference.
fn is_sum(op: Op) -> bool
    ensures { result ≡ is_sum op }
{
    matches!(op, Op::Add | Op::Sub)
}

/// A product.
fn is_product(op: Op) -> bool
    ensures { result ≡ is_product op }
{
    matches!(op, Op::Mul)
}

/// Whether neither of two expressions names a dummy. An `Err` is want of memory, here and below.
fn are_free(alloc: Global, dummies: &[Name], a: &Expr, b: &Expr) -> Result<bool, AllocError>
    ensures { IfOk result (λ r. r ≡ (is_free dummies.now (expression a.now) && is_free dummies.now (expression b.now))) }
{
    let left = is_free(alloc, dummies, a)?;
    let right = is_free(alloc, dummies, b)?;
    Ok(left && right)
}

/// Whether an expression is built as a linear one is: from dummies and from parts without any, by signs, sums, parentheses, and products with
/// a side without dummies. An `Err` is want of memory.
pub fn is_linear(alloc: Global, dummies: &[Name], e: &Expr) -> Result<bool, AllocError>
    ensures { IfOk result (λ b. b ≡ is_linear dummies.now (expression e.now)) }
{
    match e {
        Expr::Ref(reference) => match &reference.subs {
            None => Ok(true),
            Some(_) => is_free(alloc, dummies, e),
        },
        Expr::Paren(a) => is_linear(alloc, dummies, a),
        Expr::Unary(op, a) => {
            let free = is_free(alloc, dummies, a)?;
            let linear = is_linear(alloc, dummies, a)?;
            Ok(free || is_sign(*op) && linear)
        }
        Expr::Binary(op, a, b) => {
            let left_free = is_free(alloc, dummies, a)?;
            let right_free = is_free(alloc, dummies, b)?;
            let left = is_linear(alloc, dummies, a)?;
            let right = is_linear(alloc, dummies, b)?;
            let product = is_product(*op) && (left_free || right_free);
            Ok((left_free && right_free) || ((is_sum(*op) || product) && left && right))
        }
        Expr::Int(_) | Expr::Bool(_) => Ok(true),
        Expr::Call(_, _) => is_free(alloc, dummies, e),
    }
}

/// The value isn't constant, or divides by zero.
fn is_invalid(value: &Evaluated<i64>) -> bool
    ensures { result ≡ is_invalid value.now }
{
    matches!(value, Evaluated::Invalid)
}

/// Whether an expression isn't constant, or divides by zero. An `Err` is want of memory.
pub fn has_invalid_value(alloc: Global, setting: &Setting<'_>, e: &Expr) -> Result<bool, AllocError>
    ensures { IfOk result (λ b. b ≡ is_invalid (value_in setting.now (expression e.now))) }
{
    let value = value_in(alloc, setting, e)?;
    Ok(is_invalid(&value))
}

/// Whether an expression names no dummy, and isn't constant or divides by zero.
fn is_invalid_part(
    alloc: Global,
    setting: &Setting<'_>,
    dummies: &[Name],
    e: &Expr,
) -> Result<bool, AllocError>
    ensures { IfOk result (λ b. b ≡ (is_free dummies.now (expression e.now) && is_invalid (value_in setting.now (expression e.now)))) }
{
    let free = is_free(alloc, dummies, e)?;
    let invalid = has_invalid_value(alloc, setting, e)?;
    Ok(free && invalid)
}

/// Whether a part without dummies isn't constant, or divides by zero. An `Err` is want of memory.
#[tactic(auto, using(crate::proofs::References::invalid_reference))]
pub fn has_invalid_part(
    alloc: Global,
    setting: &Setting<'_>,
    dummies: &[Name],
    e: &Expr,
) -> Result<bool, AllocError>
    ensures { IfOk result (λ b. b ≡ has_invalid_part setting.now dummies.now (expression e.now)) }
{
    match e {
        Expr::Paren(a) => has_invalid_part(alloc, setting, dummies, a),
        Expr::Unary(_, a) => {
            let free = is_free(alloc, dummies, a)?;
            if free {
                has_invalid_value(alloc, setting, e)
            } else {
                has_invalid_part(alloc, setting, dummies, a)
            }
        }
        Expr::Binary(_, a, b) => {
            let free = are_free(alloc, dummies, a, b)?;
            if free {
                return has_invalid_value(alloc, setting, e);
            }
            let left = has_invalid_part(alloc, setting, dummies, a)?;
            let right = has_invalid_part(alloc, setting, dummies, b)?;
            Ok(left || right)
        }
        Expr::Ref(_) => {
            let invalid = is_invalid_part(alloc, setting, dummies, e)?;
            Ok(invalid)
        }
        Expr::Int(_) | Expr::Bool(_) | Expr::Call(_, _) => {
            is_invalid_part(alloc, setting, dummies, e)
        }
    }
}

/// The linear form of a part without dummies, where its value is known.
fn constant_form(value: Evaluated<i64>) -> Option<LinearForm>
    ensures { result ≡ constant_form value }
{
    match value {
        Evaluated::Known(b) => Some(LinearForm { a: 0, b }),
        Evaluated::Invalid | Evaluated::Unknown => None,
    }
}

/// The linear form after a sign.
#[tactic(auto, using(std::proofs::lemmas::Int::wraps))]
fn signed_form(op: Op, l: LinearForm) -> LinearForm
    ensures { result ≡ signed_form op l }
{
    match op {
        Op::Neg => LinearForm {
            a: l.a.wrapping_neg(),
            b: l.b.wrapping_neg(),
        },
        _ => l,
    }
}

/// The linear form after a sign, where that before it is known.
fn signed_if_known(op: Op, l: Option<LinearForm>) -> Option<LinearForm>
    ensures { result ≡ option_map (signed_form op) l }
{
    match l {
        None => None,
        Some(l) => Some(signed_form(op, l)),
    }
}

/// `a * b`, in arithmetic that wraps.
#[tactic(auto, using(std::proofs::lemmas::Int::wraps))]
fn product(a: i64, b: i64) -> i64
    ensures { result ≡ wrapped (a *ℤ b) }
{
    a.wrapping_mul(b)
}

/// `a * b + c * d`, in arithmetic that wraps.
#[tactic(auto, using(std::proofs::lemmas::Int::wraps))]
fn sum_of_products(a: i64, b: i64, c: i64, d: i64) -> i64
    ensures { result ≡ wrapped ((a *ℤ b) +ℤ (c *ℤ d)) }
{
    product(a, b).wrapping_add(product(c, d))
}

/// The linear form of a sum, of a difference or of a product.
#[tactic(auto, using(std::proofs::lemmas::Int::wraps))]
fn combined_form(op: Op, l: LinearForm, m: LinearForm) -> LinearForm
    ensures { result ≡ combined_form op l m }
{
    match op {
        Op::Add => LinearForm {
            a: l.a.wrapping_add(m.a),
            b: l.b.wrapping_add(m.b),
        },
        Op::Sub => LinearForm {
            a: l.a.wrapping_sub(m.a),
            b: l.b.wrapping_sub(m.b),
        },
        _ => LinearForm {
            a: sum_of_products(l.a, m.b, l.b, m.a),
            b: product(l.b, m.b),
        },
    }
}

/// The linear form of a sum, of a difference or of a product, where those of both operands are known.
fn combined_if_known(
    op: Op,
    left: Option<LinearForm>,
    right: Option<LinearForm>,
) -> Option<LinearForm>
    ensures { result ≡ with_both (combined_form op) left right }
{
    match (left, right) {
        (Some(l), Some(m)) => Some(combined_form(op, l, m)),
        _ => None,
    }
}

/// The linear form of an expression that must be constant, where its value is known.
fn constant_form_of(
    alloc: Global,
    setting: &Setting<'_>,
    e: &Expr,
) -> Result<Option<LinearForm>, AllocError>
    ensures { IfOk result (λ l. l ≡ constant_form (value_in setting.now (expression e.now))) }
{
    let value = value_in(alloc, setting, e)?;
    Ok(constant_form(value))
}

/// The linear form of a name.
fn form_of_name(
    alloc: Global,
    setting: &Setting<'_>,
    dummies: &[Name],
    name: &Name,
    e: &Expr,
) -> Result<Option<LinearForm>, AllocError>
    requires { expression e.now ≡ Alone name.now }
    ensures { IfOk result (λ l. l ≡ linear_form setting.now dummies.now (Alone name.now)) }
{
    if is_among(name, dummies) {
        Ok(Some(LinearForm { a: 1, b: 0 }))
    } else {
        let form = constant_form_of(alloc, setting, e)?;
        Ok(form)
    }
}

/// a and b of a linear expression, where they are known, in arithmetic that wraps. An `Err` is want of memory.
pub fn linear_form(
    alloc: Global,
    setting: &Setting<'_>,
    dummies: &[Name],
    e: &Expr,
) -> Result<Option<LinearForm>, AllocError>
    ensures { IfOk result (λ l. l ≡ linear_form setting.now dummies.now (expression e.now)) }
{
    match e {
        Expr::Ref(reference) => match &reference.subs {
            None => {
                let form = form_of_name(alloc, setting, dummies, &reference.name, e)?;
                Ok(form)
            }
            Some(_) => {
                let form = constant_form_of(alloc, setting, e)?;
                Ok(form)
            }
        },
        Expr::Paren(a) => linear_form(alloc, setting, dummies, a),
        Expr::Unary(op, a) => {
            let free = is_free(alloc, dummies, a)?;
            if free {
                return constant_form_of(alloc, setting, e);
            }
            let form = linear_form(alloc, setting, dummies, a)?;
            Ok(signed_if_known(*op, form))
        }
        Expr::Binary(op, a, b) => {
            let free = are_free(alloc, dummies, a, b)?;
            if free {
                return constant_form_of(alloc, setting, e);
            }
            let left = linear_form(alloc, setting, dummies, a)?;
            let right = linear_form(alloc, setting, dummies, b)?;
            Ok(combined_if_known(*op, left, right))
        }
        Expr::Int(_) | Expr::Bool(_) | Expr::Call(_, _) => constant_form_of(alloc, setting, e),
    }
}
