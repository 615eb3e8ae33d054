//! The type and the rank of each expression of a tree (Fortran 95, 7.1.4 and 7.1.5).

ghost use Rattle.std.specs.Prelude.{◌≡◌, ◌<◌, ◌+◌, [], ◌∷◌, option_copied, if◌then◌else◌, IfOk};
ghost use Rattle.std.specs.List.{list_all};
ghost use Rattle.syntax_tree.specs.Expression.{expression, subscript};
ghost use Rattle.expression_rules.specs.Partial.{maybe_of};
ghost use Rattle.syntax_tree.specs.Expression.{arguments_of, parts_of};
ghost use Rattle.expression_rules.specs.Symbols.{is_array, rank_of, satisfies};
ghost use Rattle.expression_rules.specs.Types.{are_integer_scalars, types_and_ranks, are_dimensions, are_inquired, are_subscripts, called_type, conforming, count_of, elemental, is_dimension, is_inquired, is_of_array, is_triplet_part, is_subscript, is_triplet, type_and_rank, triplets};

use crate::constants::{named_first, rest_of, values};
use crate::evaluated::{Evaluated, Numbers};
use crate::scope::Scope;
use crate::symbols::Symbol;
use crate::types::{
    Context, DataType, TypeAndRank, common, integer_scalar_if, is_directive, is_integer_scalar,
    of_type, operand_type, rank_in, reduction_of, result_type, subscripted,
};
use std::alloc::{AllocError, Global};
use syntax_tree::{Expr, Op, Ref, Subscript, is_inquiry, is_processor_count, is_reduction, takes};

/// What an expression is; None where a part of it isn't what its place asks.
#[cycle(typing)]
pub fn type_and_rank(
    alloc: Global,
    context: Context,
    scope: &Scope<'_>,
    e: &Expr,
) -> Result<Option<TypeAndRank>, AllocError>
    ensures { IfOk result (λ s. s ≡ type_and_rank context scope.now (expression e.now)) }
{
    match e {
        Expr::Int(_) => Ok(integer_scalar_if(true)),
        Expr::Bool(_) => Ok(of_type(DataType::Logical, Some(0))),
        Expr::Ref(reference) => reference_type(alloc, context, scope, reference),
        Expr::Unary(op, a) => {
            let a = type_and_rank(alloc, context, scope, a)?;
            Ok(elemental_one(*op, a))
        }
        Expr::Binary(op, a, b) => {
            let a = type_and_rank(alloc, context, scope, a)?;
            let b = type_and_rank(alloc, context, scope, b)?;
            Ok(elemental_two(*op, a, b))
        }
        Expr::Call(op, arguments) => {
            let type_and_rank = called_type(alloc, context, scope, *op, arguments)?;
            Ok(type_and_rank)
        }
        Expr::Paren(a) => type_and_rank(alloc, context, scope, a),
    }
}

/// What a name with its subscripts is.
#[cycle(typing)]
pub fn reference_type(
    alloc: Global,
    context: Context,
    scope: &Scope<'_>,
    reference: &Ref,
) -> Result<Option<TypeAndRank>, AllocError>
    ensures { IfOk result (λ s. s ≡ type_and_rank context scope.now (expression (Expr.Ref reference.now))) }
{
    let rank = rank_of(scope.find(&reference.name));
    match &reference.subs {
        None => Ok(of_type(DataType::Integer, Some(rank))),
        Some(parts) => {
            let good = are_subscripts(alloc, context, scope, parts)?;
            Ok(subscripted(rank, part_count(parts), good, triplets(parts)))
        }
    }
}

/// What a call of an intrinsic procedure is.
#[cycle(typing)]
fn called_type(
    alloc: Global,
    context: Context,
    scope: &Scope<'_>,
    op: Op,
    arguments: &[Expr],
) -> Result<Option<TypeAndRank>, AllocError>
    ensures { IfOk result (λ s. s ≡ called_type context scope.now op (arguments_of arguments.now) (types_and_ranks context scope.now (arguments_of arguments.now))) }
{
    if !takes(op, argument_count(arguments)) {
        return Ok(None);
    }
    if is_processor_count(op) {
        let numbers = are_integer_scalars(alloc, context, scope, arguments)?;
        return Ok(integer_scalar_if(is_directive(context) && numbers));
    }
    if is_inquiry(op) {
        let inquired = are_inquired(alloc, context, scope, arguments)?;
        let array = is_of_array(alloc, scope, arguments)?;
        return Ok(integer_scalar_if(inquired && (is_directive(context) || array)));
    }
    let rank = conforming(alloc, context, scope, operand_type(op), arguments)?;
    if is_reduction(op) {
        Ok(reduction_of(op, rank))
    } else {
        Ok(of_type(result_type(op), rank))
    }
}

/// All are integer scalars.
#[cycle(typing)]
fn are_integer_scalars(
    alloc: Global,
    context: Context,
    scope: &Scope<'_>,
    arguments: &[Expr],
) -> Result<bool, AllocError>
    ensures { IfOk result (λ b. b ≡ are_integer_scalars (types_and_ranks context scope.now (arguments_of arguments.now))) }
{
    let mut all = true;
    for argument in arguments {
        let type_and_rank = type_and_rank(alloc, context, scope, argument)?;
        all &= is_integer_scalar(type_and_rank);
    }
    Ok(all)
}

/// The arguments of SIZE, LBOUND and UBOUND are right by themselves.
#[cycle(typing)]
fn are_inquired(
    alloc: Global,
    context: Context,
    scope: &Scope<'_>,
    arguments: &[Expr],
) -> Result<bool, AllocError>
    ensures { IfOk result (λ b. b ≡ are_inquired (types_and_ranks context scope.now (arguments_of arguments.now))) }
{
    let mut all = true;
    let mut first = true;
    for argument in arguments {
        let type_and_rank = type_and_rank(alloc, context, scope, argument)?;
        all &= is_inquired(first, type_and_rank);
        first = false;
    }
    Ok(all)
}

/// The rank of operands together, if all are of the data_type.
#[cycle(typing)]
fn conforming(
    alloc: Global,
    context: Context,
    scope: &Scope<'_>,
    data_type: DataType,
    arguments: &[Expr],
) -> Result<Option<usize>, AllocError>
    ensures { IfOk result (λ r. r ≡ conforming data_type (types_and_ranks context scope.now (arguments_of arguments.now))) }
{
    let mut rank = Some(0);
    for argument in arguments {
        let type_and_rank = type_and_rank(alloc, context, scope, argument)?;
        rank = common(rank, rank_in(data_type, type_and_rank));
    }
    Ok(rank)
}

/// Each subscript is an integer scalar or a triplet of such.
#[cycle(typing)]
fn are_subscripts(
    alloc: Global,
    context: Context,
    scope: &Scope<'_>,
    parts: &[Subscript],
) -> Result<bool, AllocError>
    ensures { IfOk result (λ b. b ≡ are_subscripts context scope.now (parts_of parts.now)) }
{
    let mut all = true;
    for part in parts {
        let good = is_subscript(alloc, context, scope, part)?;
        all &= good;
    }
    Ok(all)
}

/// The subscript is an integer scalar or a triplet of such.
#[cycle(typing)]
fn is_subscript(
    alloc: Global,
    context: Context,
    scope: &Scope<'_>,
    part: &Subscript,
) -> Result<bool, AllocError>
    ensures { IfOk result (λ b. b ≡ is_subscript context scope.now (subscript part.now)) }
{
    match part {
        Subscript::One(e) => {
            let type_and_rank = type_and_rank(alloc, context, scope, e)?;
            Ok(is_integer_scalar(type_and_rank))
        }
        Subscript::Triplet { first, last, step } => {
            let first = is_triplet_part(alloc, context, scope, first)?;
            let last = is_triplet_part(alloc, context, scope, last)?;
            let step = is_triplet_part(alloc, context, scope, step)?;
            Ok(first && last && step)
        }
    }
}

/// A part of a triplet that may be there is an integer scalar.
#[cycle(typing)]
fn is_triplet_part(
    alloc: Global,
    context: Context,
    scope: &Scope<'_>,
    e: &Option<Expr>,
) -> Result<bool, AllocError>
    ensures { IfOk result (λ b. b ≡ is_triplet_part context scope.now (maybe_of e.now)) }
{
    match e {
        None => Ok(true),
        Some(e) => {
            let type_and_rank = type_and_rank(alloc, context, scope, e)?;
            Ok(is_integer_scalar(type_and_rank))
        }
    }
}

/// The value of an operator with one operand.
fn elemental_one(op: Op, a: Option<TypeAndRank>) -> Option<TypeAndRank>
    ensures { result ≡ elemental op (a ∷ []) }
{
    of_type(
        result_type(op),
        common(rank_in(operand_type(op), a), Some(0)),
    )
}

/// The value of an operator with two operands.
fn elemental_two(op: Op, a: Option<TypeAndRank>, b: Option<TypeAndRank>) -> Option<TypeAndRank>
    ensures { result ≡ elemental op (a ∷ b ∷ []) }
{
    let after = common(rank_in(operand_type(op), b), Some(0));
    of_type(result_type(op), common(rank_in(operand_type(op), a), after))
}

/// The rank of an array, and 0 of anything else.
pub(crate) fn rank_of(what: Option<&Symbol>) -> usize
    ensures { result ≡ rank_of (option_copied what.entry) }
{
    match what {
        Some(Symbol::Array(rank, _, _)) => *rank,
        _ => 0,
    }
}

/// An array.
fn is_array(what: Option<&Symbol>) -> bool
    ensures { result ≡ satisfies is_array (option_copied what.entry) }
{
    matches!(what, Some(Symbol::Array(_, _, _)))
}

/// It is a triplet.
fn is_triplet(part: &Subscript) -> bool
    ensures { result ≡ is_triplet (subscript part.now) }
{
    matches!(part, Subscript::Triplet { .. })
}

/// How many arguments there are.
fn argument_count(arguments: &[Expr]) -> usize
    ensures { result ≡ count_of (arguments_of arguments.now) }
{
    arguments.len()
}

/// How many subscripts there are.
fn part_count(parts: &[Subscript]) -> usize
    ensures { result ≡ count_of (parts_of parts.now) }
{
    parts.len()
}

/// The first argument of an inquiry, or one after it, is right by itself.
fn is_inquired(first: bool, type_and_rank: Option<TypeAndRank>) -> bool
    ensures { result ≡ is_inquired first type_and_rank }
{
    if first {
        type_and_rank.is_some()
    } else {
        is_integer_scalar(type_and_rank)
    }
}

/// One more, where the test holds.
fn count_more(test: bool, count: usize) -> usize
    requires { count < usize.MAX }
    ensures { result ≡ (if test then count + 1 else count) }
{
    if test { count + 1 } else { count }
}

/// How many triplets there are.
fn triplets(parts: &[Subscript]) -> usize
    ensures { result ≡ triplets (parts_of parts.now) }
{
    let mut count = 0;
    for part in parts {
        count = count_more(is_triplet(part), count);
    }
    count
}

/// SIZE, LBOUND or UBOUND of an array's name, with the constant number of one of its dimensions.
fn is_of_array(alloc: Global, scope: &Scope<'_>, arguments: &[Expr]) -> Result<bool, AllocError>
    ensures { IfOk result (λ b. b ≡ is_of_array scope.now (arguments_of arguments.now)) }
{
    let what = named_first(scope, arguments);
    let found = values(alloc, None, scope, rest_of(arguments))?;
    Ok(is_array(what) && are_dimensions(rank_of(what), &found))
}

/// Each is the number of one of so many dimensions.
fn are_dimensions(rank: usize, found: &Evaluated<Numbers>) -> bool
    ensures { result ≡ are_dimensions rank found.now }
{
    match found {
        Evaluated::Known(numbers) => all_dimensions(rank, numbers.as_slice()),
        _ => false,
    }
}

/// Each of these numbers is that of one of so many dimensions.
fn all_dimensions(rank: usize, numbers: &[i64]) -> bool
    ensures { result ≡ list_all (is_dimension rank) numbers.now }
{
    let mut all = true;
    for number in numbers {
        all &= is_dimension(rank, *number);
    }
    all
}

/// It is the number of one of so many dimensions.
fn is_dimension(rank: usize, number: i64) -> bool
    ensures { result ≡ is_dimension rank number }
{
    1 <= number && number as u64 <= rank as u64
}
