//! What operators and intrinsic procedures take.

ghost use Rattle.std.specs.Prelude.{◌≡◌};
ghost use Rattle.op_tables.specs.Arguments.{fewest, is_inquiry, is_processor_count, is_reduction, is_transformation, is_transformational, most, takes};

use crate::op::Op;

/// How few arguments it takes.
fn fewest(op: Op) -> usize
    ensures { result ≡ fewest op }
{
    match op {
        Op::Nodes => 0,
        Op::Neg | Op::Plus | Op::LogNot | Op::Abs | Op::BitNot | Op::Size => 1,
        Op::Sum | Op::Product | Op::MaxVal | Op::MinVal | Op::Count | Op::Any | Op::All => 1,
        _ => 2,
    }
}

/// How many arguments it takes at most.
fn most(op: Op) -> usize
    ensures { result ≡ most op }
{
    match op {
        Op::Max | Op::Min => 7,
        Op::Size => 2,
        Op::Nodes => 1,
        Op::SumPrefix | Op::CShift | Op::Transpose => 0,
        _ => fewest(op),
    }
}

/// Whether an operator or intrinsic procedure takes so many operands or arguments in an expression. SUM_PREFIX, CSHIFT and TRANSPOSE stand in
/// none. It takes no memory.
pub fn takes(op: Op, count: usize) -> bool
    ensures { result ≡ takes op count }
{
    fewest(op) <= count && count <= most(op)
}

/// Whether it is a reduction of an array to a scalar: SUM, PRODUCT, MAXVAL, MINVAL, COUNT, ANY or ALL. It takes no memory.
pub fn is_reduction(op: Op) -> bool
    ensures { result ≡ is_reduction op }
{
    matches!(
        op,
        Op::Sum | Op::Product | Op::MaxVal | Op::MinVal | Op::Count | Op::Any | Op::All
    )
}

/// Whether it is an inquiry on the bounds of an array: SIZE, LBOUND or UBOUND. It takes no memory.
pub fn is_inquiry(op: Op) -> bool
    ensures { result ≡ is_inquiry op }
{
    matches!(op, Op::Size | Op::LBound | Op::UBound)
}

/// Whether it is NUMBER_OF_PROCESSORS. It takes no memory.
pub fn is_processor_count(op: Op) -> bool
    ensures { result ≡ is_processor_count op }
{
    matches!(op, Op::Nodes)
}

/// Whether it makes of a whole array a whole array: SUM_PREFIX, CSHIFT or TRANSPOSE.
fn is_transformation(op: Op) -> bool
    ensures { result ≡ is_transformation op }
{
    matches!(op, Op::SumPrefix | Op::CShift | Op::Transpose)
}

/// Whether it isn't elemental: a reduction, or one of those. It takes no memory.
pub fn is_transformational(op: Op) -> bool
    ensures { result ≡ is_transformational op }
{
    is_reduction(op) || is_transformation(op)
}
