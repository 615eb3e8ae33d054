//! The scalars that a nest assigns, and what joins the copies of its REDUCTION variables (HPF 2.0, 5.1.2).

ghost use Rattle.std.specs.Prelude.{◌≡◌, is_some, if◌then◌else◌, [], ◌∷◌, IfOk};
ghost use Rattle.std.specs.Option.{option_or};
ghost use Rattle.array_meaning.specs.Iterations.{is_in};
ghost use Rattle.array_meaning.specs.Touches.{assigned_by, assigned_in, assigned_in_arms};
ghost use Rattle.statement_trail.specs.NestParts.{among_from};
ghost use Rattle.program_code.specs.NestCode.{operator_by, operator_in, rights_in, rights_in_arms, rights_of};
ghost use Rattle.resolved_program.specs.Resolved.{arms_of, block_of, statement, term};
ghost use Rattle.node_codegen.specs.NestScalars.{first_operator};

use hpf_base::OutOfMemory;
use op_tables::{Join, joined_by};
use resolved_program::{Action, Arm, Statement, Term};
use std::alloc::Global;

/// Whether a number is among others.
pub(crate) fn is_in(k: usize, list: &[usize]) -> bool
    ensures { result ≡ is_in k list.now }
{
    list.iter().any(|x| k == *x)
}

/// The scalars that a block assigns, of so many names, as declared.
pub(crate) fn scalars(
    alloc: Global,
    names: usize,
    body: &Vec<Statement>,
) -> Result<Vec<usize>, OutOfMemory>
    ensures { IfOk result (λ v. v.items ≡ among_from (assigned_in (block_of body.now.items)) 0 names) }
{
    let mut found = Vec::new(alloc);
    for k in 0..names {
        if first_operator(body, k).is_some() {
            found.push(k)?;
        }
    }
    Ok(found)
}

/// What joins the copies of a REDUCTION variable.
pub(crate) fn operator_in(body: &Vec<Statement>, k: usize) -> Join
    ensures { result ≡ operator_in (block_of body.now.items) k }
{
    first_operator(body, k).unwrap_or(Join::Sum)
}

/// The operator of the first assignment of a scalar in a block, if there is one.
#[cycle(first_operator)]
fn first_operator(statements: &[Statement], k: usize) -> Option<Join>
    ensures operator { result ≡ first_operator (rights_of k (block_of statements.now)) }
    ensures assigned { is_some result ≡ is_in k (assigned_in (block_of statements.now)) }
{
    for s in statements {
        let first = operator_by(&s.what, k);
        if first.is_some() {
            return first;
        }
    }
    None
}

/// That of a statement.
#[cycle(first_operator)]
fn operator_by(s: &Action, k: usize) -> Option<Join>
    ensures operator { result ≡ first_operator (rights_in k (statement s.now)) }
    ensures assigned { is_some result ≡ is_in k (assigned_by (statement s.now)) }
{
    match s {
        Action::AssignScalar(x, right) => assignment_operator(*x, right, k),
        Action::If(arms, other) => earlier(operator_in_arms(arms, k), first_operator(other, k)),
        Action::Do(_, _, body) => first_operator(body, k),
        _ => None,
    }
}

/// That of the arms of an IF.
#[cycle(first_operator)]
fn operator_in_arms(arms: &[Arm], k: usize) -> Option<Join>
    ensures operator { result ≡ first_operator (rights_in_arms k (arms_of arms.now)) }
    ensures assigned { is_some result ≡ is_in k (assigned_in_arms (arms_of arms.now)) }
{
    for a in arms {
        let first = first_operator(&a.body, k);
        if first.is_some() {
            return first;
        }
    }
    None
}

/// That of an assignment.
fn assignment_operator(x: usize, right: &Term, k: usize) -> Option<Join>
    ensures operator { result ≡ first_operator (if is_in k (x ∷ []) then term right.now ∷ [] else []) }
    ensures assigned { is_some result ≡ is_in k (x ∷ []) }
{
    if k == x {
        Some(operator_of(right))
    } else {
        None
    }
}

/// What joins by the right side of a reduction statement.
fn operator_of(right: &Term) -> Join
    ensures { result ≡ operator_by (term right.now ∷ []) }
{
    match right {
        Term::Apply(op, _) => joined_by(*op).unwrap_or(Join::Sum),
        _ => Join::Sum,
    }
}

/// The first of two, or the other one.
fn earlier(first: Option<Join>, other: Option<Join>) -> Option<Join>
    ensures { result ≡ option_or first other }
{
    match first {
        Some(j) => Some(j),
        None => other,
    }
}
