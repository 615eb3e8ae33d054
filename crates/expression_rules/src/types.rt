//! The type and the rank of an expression (Fortran 95, 7.1.4 and 7.1.5).

ghost use Rattle.std.specs.Prelude.{◌≡◌};
ghost use Rattle.expression_rules.specs.Types.{conforming, if_typed, is_directive, is_logical_scalar, is_integer_scalar, common, common_rank, integer_scalar_if, of_type, operand_type, rank_in, reduction_of, same_type, subscripted, result_type};

use syntax_tree::Op;

/// Where an expression stands: in a directive, or in a declaration or a statement.
#[derive(Clone, Copy)]
pub enum Context {
    Statement,
    Directive,
}

/// The type of an expression.
#[derive(Clone, Copy)]
pub enum DataType {
    Integer,
    Logical,
}

/// What an expression is: its type and its rank, which is 0 for a scalar.
#[derive(Clone, Copy)]
pub struct TypeAndRank {
    pub data_type: DataType,
    pub rank: usize,
}

/// Whether it is a directive.
pub(crate) fn is_directive(context: Context) -> bool
    ensures { result ≡ is_directive context }
{
    matches!(context, Context::Directive)
}

/// Whether the types are one.
fn same_type(a: DataType, b: DataType) -> bool
    ensures { result ≡ same_type a b }
{
    match (a, b) {
        (DataType::Integer, DataType::Integer) | (DataType::Logical, DataType::Logical) => true,
        _ => false,
    }
}

/// Whether an expression that breaks no rule itself is an integer scalar.
pub fn is_integer_scalar(type_and_rank: Option<TypeAndRank>) -> bool
    ensures { result ≡ if_typed is_integer_scalar type_and_rank }
{
    match type_and_rank {
        None => false,
        Some(type_and_rank) => same_type(type_and_rank.data_type, DataType::Integer)
            && type_and_rank.rank == 0,
    }
}

/// Whether an expression that breaks no rule itself is a logical scalar.
pub fn is_logical_scalar(type_and_rank: Option<TypeAndRank>) -> bool
    ensures { result ≡ if_typed is_logical_scalar type_and_rank }
{
    match type_and_rank {
        None => false,
        Some(type_and_rank) => same_type(type_and_rank.data_type, DataType::Logical)
            && type_and_rank.rank == 0,
    }
}

/// The type that the operands must have.
pub(crate) fn operand_type(op: Op) -> DataType
    ensures { result ≡ operand_type op }
{
    match op {
        Op::LogNot | Op::And | Op::Or | Op::Eqv | Op::Neqv => DataType::Logical,
        Op::Count | Op::Any | Op::All => DataType::Logical,
        _ => DataType::Integer,
    }
}

/// The type of the value.
pub(crate) fn result_type(op: Op) -> DataType
    ensures { result ≡ result_type op }
{
    match op {
        Op::Eq | Op::Ne | Op::Lt | Op::Le | Op::Gt | Op::Ge => DataType::Logical,
        Op::Count => DataType::Integer,
        _ => operand_type(op),
    }
}

/// The rank of two operands together.
fn common_rank(q: usize, r: usize) -> Option<usize>
    ensures { result ≡ common_rank q r }
{
    if q == 0 {
        Some(r)
    } else if r == 0 || q == r {
        Some(q)
    } else {
        None
    }
}

/// The rank of two operands together, where both are right.
pub(crate) fn common(q: Option<usize>, r: Option<usize>) -> Option<usize>
    ensures { result ≡ common q r }
{
    match (q, r) {
        (Some(q), Some(r)) => common_rank(q, r),
        _ => None,
    }
}

/// The rank of an expression, if it is of the type.
pub(crate) fn rank_in(data_type: DataType, type_and_rank: Option<TypeAndRank>) -> Option<usize>
    ensures { result ≡ rank_in data_type type_and_rank }
{
    match type_and_rank {
        None => None,
        Some(type_and_rank) => {
            if same_type(data_type, type_and_rank.data_type) {
                Some(type_and_rank.rank)
            } else {
                None
            }
        }
    }
}

/// An expression of a type.
pub(crate) fn of_type(data_type: DataType, rank: Option<usize>) -> Option<TypeAndRank>
    ensures { result ≡ of_type data_type rank }
{
    match rank {
        None => None,
        Some(rank) => Some(TypeAndRank { data_type, rank }),
    }
}

/// The value of a reduction.
pub(crate) fn reduction_of(op: Op, rank: Option<usize>) -> Option<TypeAndRank>
    ensures { result ≡ reduction_of op rank }
{
    match rank {
        None | Some(0) => None,
        Some(_) => Some(TypeAndRank {
            data_type: result_type(op),
            rank: 0,
        }),
    }
}

/// An integer scalar, if it is one.
pub(crate) fn integer_scalar_if(test: bool) -> Option<TypeAndRank>
    ensures { result ≡ integer_scalar_if test }
{
    if test {
        Some(TypeAndRank {
            data_type: DataType::Integer,
            rank: 0,
        })
    } else {
        None
    }
}

/// An element or a section of an array of a rank.
pub(crate) fn subscripted(
    rank: usize,
    count: usize,
    good: bool,
    triplets: usize,
) -> Option<TypeAndRank>
    ensures { result ≡ subscripted rank count good triplets }
{
    if rank == 0 || count != rank || !good {
        None
    } else {
        Some(TypeAndRank {
            data_type: DataType::Integer,
            rank: triplets,
        })
    }
}
