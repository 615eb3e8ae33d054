//! The numbers in expressions.

ghost use Rattle.std.specs.Prelude.{FitsSigned};
ghost use Rattle.std.specs.Int.{w64};
ghost use Rattle.array_meaning.specs.Terms.{SectionSubscripts};
ghost use Rattle.fitting_states.specs.FittingStates.{SubscriptsFit, TermFits, TermsFit};
ghost use Rattle.resolved_program.specs.Resolved.{subscripts_of, term, terms_of, with_subscript};

use resolved_program::{SectionSubscript, Term};

/// A number that is read is of 64 bits.
pub(crate) fn number_fits(n: &i64)
    ensures { FitsSigned w64 n.now }
{
    let _n = *n;
}

/// The numbers in an expression fit.
#[cycle(term_fits)]
pub(crate) fn term_fits(t: &Term)
    ensures { TermFits (term t.now) }
{
    match t {
        Term::Number(n) => number_fits(n),
        Term::Element(_, subscripts) => terms_fit(subscripts),
        Term::Section(_, subscripts) => subscripts_fit(subscripts),
        Term::Apply(_, operands) => terms_fit(operands),
        Term::Reduce(_, t) => term_fits(t),
        Term::Scalar(_) | Term::Index(_) => {}
    }
}

/// The numbers in expressions fit.
#[cycle(term_fits)]
pub(crate) fn terms_fit(terms: &[Term])
    ensures { TermsFit (terms_of terms.now) }
{
    for t in terms {
        term_fits(t);
    }
}

/// The numbers in the subscripts of a section fit.
#[cycle(term_fits)]
pub(crate) fn subscripts_fit(subscripts: &[SectionSubscript])
    ensures { SubscriptsFit (subscripts_of subscripts.now) }
{
    for d in subscripts {
        subscript_fits(d);
    }
}

/// The numbers in a subscript of a section fit.
#[cycle(term_fits)]
fn subscript_fits(d: &SectionSubscript)
    ensures { (rest : SectionSubscripts) → SubscriptsFit rest → SubscriptsFit (with_subscript d.now rest) }
{
    match d {
        SectionSubscript::Subscript(t) => term_fits(t),
        SectionSubscript::Triplet(first, last, step) => {
            term_fits(first);
            term_fits(last);
            term_fits(step);
        }
    }
}
