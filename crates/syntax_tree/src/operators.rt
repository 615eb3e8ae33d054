//! Operators and intrinsic procedures, and how tightly an operator binds (Fortran 95, 7.1.1 and 7.3).

ghost use Rattle.std.specs.Prelude.{◌≡◌, ◌≤◌};
ghost use Rattle.syntax_tree.specs.Operators.{binary, intrinsic, left_place, level, procedure_at, unary, right_place};

use crate::codes::at_code;
use crate::sign::Sign;
use op_tables::{Op, intrinsic_word};

/// The operator that a sign is between two operands.
pub fn binary(sign: Sign) -> Option<Op>
    ensures { result ≡ binary sign }
{
    match sign {
        Sign::Plus => Some(Op::Add),
        Sign::Minus => Some(Op::Sub),
        Sign::Star => Some(Op::Mul),
        Sign::Slash => Some(Op::Div),
        Sign::Power => Some(Op::Pow),
        Sign::Eq => Some(Op::Eq),
        Sign::Ne => Some(Op::Ne),
        Sign::Lt => Some(Op::Lt),
        Sign::Le => Some(Op::Le),
        Sign::Gt => Some(Op::Gt),
        Sign::Ge => Some(Op::Ge),
        Sign::And => Some(Op::And),
        Sign::Or => Some(Op::Or),
        Sign::Eqv => Some(Op::Eqv),
        Sign::Neqv => Some(Op::Neqv),
        _ => None,
    }
}

/// The operator that a sign is before an operand.
pub fn unary(sign: Sign) -> Option<Op>
    ensures { result ≡ unary sign }
{
    match sign {
        Sign::Plus => Some(Op::Plus),
        Sign::Minus => Some(Op::Neg),
        Sign::Not => Some(Op::LogNot),
        _ => None,
    }
}

/// How tightly an operator binds, from 1, the loosest, to 8; 0 for an intrinsic procedure.
pub fn level(op: Op) -> u8
    ensures value { result ≡ level op }
    ensures few { result ≤ 8 }
{
    match op {
        Op::Eqv | Op::Neqv => 1,
        Op::Or => 2,
        Op::And => 3,
        Op::LogNot => 4,
        Op::Eq | Op::Ne | Op::Lt | Op::Le | Op::Gt | Op::Ge => 5,
        Op::Add | Op::Sub | Op::Plus | Op::Neg => 6,
        Op::Mul | Op::Div => 7,
        Op::Pow => 8,
        _ => 0,
    }
}

/// How tightly the operand at the left of an operator has to bind. `**` groups to the right, and a relation to
/// neither side.
pub fn left_place(op: Op) -> u8
    ensures { result ≡ left_place op }
{
    match op {
        Op::Pow | Op::Eq | Op::Ne | Op::Lt | Op::Le | Op::Gt | Op::Ge => level(op) + 1,
        _ => level(op),
    }
}

/// How tightly the operand at the right of an operator has to bind.
pub fn right_place(op: Op) -> u8
    ensures { result ≡ right_place op }
{
    match op {
        Op::Pow => level(op),
        _ => level(op) + 1,
    }
}

/// The intrinsic procedures, in the order of their words' codes.
static INTRINSICS: [Option<Op>; 26] = [
    Some(Op::Abs),
    Some(Op::All),
    Some(Op::Any),
    Some(Op::Count),
    Some(Op::CShift),
    Some(Op::Dim),
    Some(Op::BitAnd),
    Some(Op::BitXor),
    Some(Op::BitOr),
    Some(Op::LBound),
    Some(Op::Max),
    Some(Op::MaxVal),
    Some(Op::Min),
    Some(Op::MinVal),
    Some(Op::Mod),
    Some(Op::Modulo),
    Some(Op::BitNot),
    Some(Op::Nodes),
    None,
    Some(Op::Product),
    Some(Op::Sign),
    Some(Op::Size),
    Some(Op::Sum),
    Some(Op::SumPrefix),
    Some(Op::Transpose),
    Some(Op::UBound),
];

/// The intrinsic procedure that a word in upper case names. PROCESSORS_SHAPE is left out.
pub fn intrinsic(word: &[u8]) -> Option<Op>
    ensures { result ≡ intrinsic word.now }
{
    match intrinsic_word(word) {
        Some(code) => procedure(code),
        None => None,
    }
}

/// The intrinsic procedure whose word has this code.
fn procedure(code: u16) -> Option<Op>
    ensures { result ≡ procedure_at (Some code) }
{
    match at_code(&INTRINSICS, code) {
        Some(op) => op,
        None => None,
    }
}
