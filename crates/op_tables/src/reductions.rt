//! Reductions, and what joins the variables of REDUCTION clauses.

ghost use Rattle.std.specs.Prelude.{◌≡◌, Some};
ghost use Rattle.op_tables.specs.Reductions.{combined, joined_by, made, of_truths, of_values, reduction_of};

use crate::join::Join;
use crate::op::Op;
use crate::operators::truth;

/// What a reduction makes of an element, before it is joined.
#[derive(Clone, Copy, PartialEq, Eq)]
pub enum Made {
    /// The element itself.
    Value,
    /// 1 where it is true, else 0: COUNT, ANY and ALL.
    Truth,
}

impl Made {
    /// What it makes of an element. It takes no memory.
    pub fn of(self, v: i64) -> i64
        ensures { result ≡ made self v }
    {
        match self {
            Made::Value => v,
            Made::Truth => truth(v != 0),
        }
    }
}

/// A reduction (Fortran 95, 13.14): what joins its elements, and what it makes of each before.
#[derive(Clone, Copy, PartialEq, Eq)]
pub struct Reduction {
    /// What joins them.
    pub join: Join,
    /// What is made of each.
    pub made: Made,
}

impl Reduction {
    /// The value of the elements so far with one element more. It takes no memory.
    pub fn combined(self, so_far: i64, v: i64) -> i64
        ensures { result ≡ combined self so_far v }
    {
        self.join.join(so_far, self.made.of(v))
    }
}

/// The reduction of SUM, PRODUCT, MAXVAL, MINVAL, COUNT, ANY or ALL. That of anything else is the sum. It takes no memory.
pub fn reduction_of(op: Op) -> Reduction
    ensures { result ≡ reduction_of op }
{
    match op {
        Op::Product => of_values(Join::Product),
        Op::MaxVal => of_values(Join::Greatest),
        Op::MinVal => of_values(Join::Least),
        Op::Count => of_truths(Join::Sum),
        Op::Any => of_truths(Join::Any),
        Op::All => of_truths(Join::All),
        _ => of_values(Join::Sum),
    }
}

/// The reduction that joins the elements.
fn of_values(join: Join) -> Reduction
    ensures { result ≡ of_values join }
{
    Reduction {
        join,
        made: Made::Value,
    }
}

/// The reduction that joins what is true of the elements.
fn of_truths(join: Join) -> Reduction
    ensures { result ≡ of_truths join }
{
    Reduction {
        join,
        made: Made::Truth,
    }
}

/// What joins the variable of a reduction statement (HPF 2.0, 5.1.2) of this operator or procedure: `+` or `-`, `*`, MAX, MIN, IAND, IOR or
/// IEOR. None for any other. It takes no memory.
pub fn joined_by(op: Op) -> Option<Join>
    ensures { result ≡ joined_by op }
{
    match op {
        Op::Add | Op::Sub => Some(Join::Sum),
        Op::Mul => Some(Join::Product),
        Op::Max => Some(Join::Greatest),
        Op::Min => Some(Join::Least),
        Op::BitAnd => Some(Join::And),
        Op::BitOr => Some(Join::Or),
        Op::BitXor => Some(Join::ExclusiveOr),
        _ => None,
    }
}
