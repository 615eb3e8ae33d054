//! The lesser of reasons at one line.

ghost use Rattle.std.specs.Prelude.{◌≡◌};
ghost use Rattle.declarations.specs.Declaring.{lesser, reason_if};

use hpf_base::Reason;

/// The reason of the lesser number, where there is one. It takes no memory.
pub fn lesser(a: Option<Reason>, b: Option<Reason>) -> Option<Reason>
    ensures { result ≡ lesser a b }
{
    match (a, b) {
        (None, _) => b,
        (Some(_), None) => a,
        (Some(x), Some(y)) => if y.number() < x.number() { b } else { a },
    }
}

/// The reason, where the test holds. It takes no memory.
pub fn reason_if(test: bool, reason: Reason) -> Option<Reason>
    ensures { result ≡ reason_if test reason }
{
    if test { Some(reason) } else { None }
}
