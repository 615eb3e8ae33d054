//! Why a text is refused, and where.

ghost use Rattle.std.specs.Prelude.{◌≡◌};
ghost use Rattle.hpf_base.specs.Refusal.{name_of, number_of};
ghost use Rattle.hpf_base.specs.declared.refusal.StaticError.TheVariants.{Memory, Refused};

use std::alloc::{AllocError, AllocFailed};

/// The rule that a text breaks.
#[derive(Clone, Copy, Debug, PartialEq, Eq)]
pub enum Reason {
    BadLine,
    NotAStatement,
    BadNest,
    BadName,
    BadRank,
    BadDirective,
    BadSubscript,
    BadIndependent,
    BadArrangement,
    Limit,
    LeftOut,
    BadConstant,
}

impl Reason {
    /// The reason's number, from 1, as the variants stand.
    pub fn number(self) -> u8
        ensures { result ≡ number_of self }
    {
        match self {
            Reason::BadLine => 1,
            Reason::NotAStatement => 2,
            Reason::BadNest => 3,
            Reason::BadName => 4,
            Reason::BadRank => 5,
            Reason::BadDirective => 6,
            Reason::BadSubscript => 7,
            Reason::BadIndependent => 8,
            Reason::BadArrangement => 9,
            Reason::Limit => 10,
            Reason::LeftOut => 11,
            Reason::BadConstant => 12,
        }
    }

    /// The reason's name, as it is printed.
    pub fn name(self) -> &'static str
        ensures { result.now ≡ name_of self }
    {
        match self {
            Reason::BadLine => "BadLine",
            Reason::NotAStatement => "NotAStatement",
            Reason::BadNest => "BadNest",
            Reason::BadName => "BadName",
            Reason::BadRank => "BadRank",
            Reason::BadDirective => "BadDirective",
            Reason::BadSubscript => "BadSubscript",
            Reason::BadIndependent => "BadIndependent",
            Reason::BadArrangement => "BadArrangement",
            Reason::Limit => "Limit",
            Reason::LeftOut => "LeftOut",
            Reason::BadConstant => "BadConstant",
        }
    }
}

/// A refusal: the number of the line, from 1, and the reason.
#[derive(Clone, Copy, Debug, PartialEq, Eq)]
pub struct Refusal {
    pub line: u32,
    pub reason: Reason,
}

/// Why no answer is given: the text is refused, or a growth was. What a refusal is of, each call says.
#[derive(Clone, Copy, Debug, PartialEq, Eq)]
pub enum StaticError {
    Refused(Refusal),
    Memory,
}

impl StaticError {
    /// The refusal of a line for a reason.
    pub fn at(line: u32, reason: Reason) -> StaticError
        ensures { result ≡ Refused (record { line = line; reason = reason }) }
    {
        StaticError::Refused(Refusal { line, reason })
    }
}

impl From<AllocError> for StaticError {
    ghost from_gives = { λ _ e. e ≡ Memory };

    fn from(_error: AllocError) -> StaticError {
        StaticError::Memory
    }
}

impl<T: Drop> From<AllocFailed<T>> for StaticError {
    ghost from_gives = { λ _ e. e ≡ Memory };

    fn from(_error: AllocFailed<T>) -> StaticError {
        StaticError::Memory
    }
}
