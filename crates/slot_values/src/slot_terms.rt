//! Expressions over slots as terms over scalars, in a state that has the slots as its scalars.

ghost use Rattle.std.specs.Prelude.{◌≡◌, IfOk};
ghost use Rattle.code_meaning.specs.ForallLimits.{sequences_of, slots_state, term_of, terms_of};
ghost use Rattle.node_code.specs.Texts.{flat, flats_of};
ghost use Rattle.resolved_program.specs.Resolved.{term, terms_of as plan_terms_of};
ghost use Rattle.term_values.specs.States.{state_of};

use array_meaning::{Selection, Sequence};
use node_code::Flat;
use resolved_program::Term;
use std::alloc::{AllocError, Global};
use term_values::State;

/// The state that has the slots as its scalars, and nothing else.
pub(crate) fn slots_state(alloc: Global, slots: &[i64]) -> Result<State, AllocError>
    ensures { IfOk result (λ s. state_of s ≡ slots_state slots.now) }
{
    let mut scalars = Vec::new(alloc);
    scalars.extend_from_slice(slots)?;
    Ok(State {
        scalars,
        arrays: Vec::new(alloc),
        printed: Vec::new(alloc),
    })
}

/// The term of an expression.
#[cycle(term)]
pub(crate) fn term(alloc: Global, f: &Flat) -> Result<Term, AllocError>
    ensures { IfOk result (λ t. term t ≡ term_of (flat f.now)) }
{
    match f {
        Flat::Int(n) => Ok(Term::Number(*n)),
        Flat::Slot(k) => Ok(Term::Scalar(*k)),
        Flat::Axis(k) => Ok(Term::Index(*k)),
        Flat::Read(_) => Ok(Term::Number(0)),
        Flat::Operated(op, operands) => {
            let ts = terms(alloc, operands)?;
            Ok(Term::Apply(*op, ts))
        }
    }
}

/// The terms of expressions in order.
#[cycle(term)]
pub(crate) fn terms(alloc: Global, fs: &Vec<Flat>) -> Result<Vec<Term>, AllocError>
    ensures { IfOk result (λ ts. plan_terms_of ts.items ≡ terms_of (flats_of fs.now.items)) }
{
    let mut ts = Vec::new(alloc);
    for f in fs {
        let t = term(alloc, f)?;
        ts.push(t)?;
    }
    Ok(ts)
}

/// The values of the triplets of a section, in order.
pub(crate) fn sequences_of(alloc: Global, ds: &[Selection]) -> Result<Vec<Sequence>, AllocError>
    ensures { IfOk result (λ ps. ps.items ≡ sequences_of ds.now) }
{
    let mut ps = Vec::new(alloc);
    for d in ds {
        match d {
            Selection::At(_) => {}
            Selection::Along(p) => ps.push(*p)?,
        }
    }
    Ok(ps)
}
