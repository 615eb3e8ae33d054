//! How many stored conditions the innermost block of a nest has, and how many slots its inner loops take.

ghost use Rattle.std.specs.Prelude.{◌≡◌, ◌+◌, ◌&&◌, ℕ, IfOk, max, not};
ghost use Rattle.program_code.specs.NestCode.{PlainArms, PlainBody, plain, plain_arms, plain_else, plain_in};
ghost use Rattle.program_code.specs.NestInstructions.{count_nest, count_nest_arms, slots_of_arms, slots_of_nest};
ghost use Rattle.resolved_program.specs.Resolved.{arms_of, block_of, statement};
ghost use Rattle.node_codegen.specs.NestTexts.{is_bare, statement_conditions};

use expression_code::plus;
use hpf_base::OutOfMemory;
use resolved_program::{Action, Arm, Statement};

// ---- conditions

/// How many conditions a block has: one for each arm.
#[cycle(conditions)]
pub(crate) fn block_conditions(statements: &[Statement]) -> Result<usize, OutOfMemory>
    ensures { IfOk result (λ n. n ≡ count_nest (plain (block_of statements.now))) }
{
    let mut sum = 0;
    for s in statements {
        sum = plus(sum, statement_conditions(&s.what)?)?;
    }
    Ok(sum)
}

/// How many a statement has.
#[cycle(conditions)]
pub(crate) fn statement_conditions(s: &Action) -> Result<usize, OutOfMemory>
    ensures { IfOk result (λ n. n ≡ statement_conditions (statement s.now)) }
{
    match s {
        Action::If(arms, other) => {
            let own = arms_conditions(arms)?;
            let rest = else_conditions(other)?;
            let all = plus(own, rest)?;
            Ok(all)
        }
        Action::Do(_, _, body) => {
            let all = block_conditions(body)?;
            Ok(all)
        }
        _ => Ok(0),
    }
}

/// How many IF and its ELSE IFs have.
#[cycle(conditions)]
fn arms_conditions(arms: &[Arm]) -> Result<usize, OutOfMemory>
    ensures { IfOk result (λ n. (other : PlainArms) → n + count_nest_arms other ≡ count_nest_arms (plain_arms (arms_of arms.now) other)) }
{
    let mut sum = 0;
    for a in arms {
        let inside = block_conditions(&a.body)?;
        let one = plus(1, inside)?;
        sum = plus(sum, one)?;
    }
    Ok(sum)
}

/// How many an ELSE has. One without statements is none.
#[cycle(conditions)]
fn else_conditions(other: &[Statement]) -> Result<usize, OutOfMemory>
    ensures { IfOk result (λ n. n ≡ count_nest_arms (plain_else (plain (block_of other.now)))) }
{
    if is_bare(other) {
        return Ok(0);
    }
    let inside = block_conditions(other)?;
    let all = plus(1, inside)?;
    Ok(all)
}

/// Whether a block has no statement that does something.
pub(crate) fn is_bare(statements: &[Statement]) -> bool
    ensures { result ≡ is_bare (plain (block_of statements.now)) }
{
    for s in statements {
        if has_text(&s.what) {
            return false;
        }
    }
    true
}

/// Whether a statement of a nest does something.
fn has_text(s: &Action) -> bool
    ensures { (line : ℕ) (rest : PlainBody) → is_bare (plain_in line (statement s.now) rest) ≡ (not result && is_bare rest) }
{
    match s {
        Action::AssignScalar(_, _)
        | Action::AssignElement(_, _, _)
        | Action::If(_, _)
        | Action::Do(_, _, _) => true,
        _ => false,
    }
}

// ---- slots

/// How many slots the inner loops of a block take.
#[cycle(slots)]
pub(crate) fn inner_slots(statements: &[Statement]) -> Result<usize, OutOfMemory>
    ensures { IfOk result (λ n. n ≡ slots_of_nest (plain (block_of statements.now))) }
{
    let mut most: usize = 0;
    for s in statements {
        let here = statement_slots(&s.what)?;
        most = most.max(here);
    }
    Ok(most)
}

/// How many those of a statement take.
#[cycle(slots)]
fn statement_slots(s: &Action) -> Result<usize, OutOfMemory>
    ensures { IfOk result (λ n. (line : ℕ) (rest : PlainBody) → max n (slots_of_nest rest) ≡ slots_of_nest (plain_in line (statement s.now) rest)) }
{
    match s {
        Action::If(arms, other) => {
            let most = arms_slots(arms)?;
            let rest = inner_slots(other)?;
            Ok(most.max(rest))
        }
        Action::Do(_, _, body) => {
            let inner = inner_slots(body)?;
            let all = plus(4, inner)?;
            Ok(all)
        }
        _ => Ok(0),
    }
}

/// How many those of IF and its ELSE IFs take.
#[cycle(slots)]
fn arms_slots(arms: &[Arm]) -> Result<usize, OutOfMemory>
    ensures { IfOk result (λ n. (other : PlainArms) → max n (slots_of_arms other) ≡ slots_of_arms (plain_arms (arms_of arms.now) other)) }
{
    let mut most: usize = 0;
    for a in arms {
        let here = inner_slots(&a.body)?;
        most = most.max(here);
    }
    Ok(most)
}
