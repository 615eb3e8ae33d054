//! What the names of a program stand for.

ghost use Rattle.std.specs.Prelude.{◌≡◌, bytes_eq, option_copied, position};
ghost use Rattle.expression_rules.specs.Dims.{AreDims};
ghost use Rattle.syntax_tree.specs.Expression.{arguments_of};
ghost use Rattle.array_meaning.specs.Resolution.{dims_of, first_named, place_of};

use expression_rules::Dim;
use hpf_base::Name;
use name_table::{Names, What};
use syntax_tree::Expr;

/// The place of a name among the declared ones; 0 where it isn't declared.
pub(crate) fn place_of(names: &Names, name: &Name) -> usize
    ensures { result ≡ place_of names.now name.now }
{
    names.find(name).unwrap_or(0)
}

/// The dimensions of an array; none of anything else.
pub(crate) fn dims_of(what: Option<&What>) -> &[Dim]
    ensures value { result.now ≡ dims_of (option_copied what.entry) }
    ensures valid { AreDims result.now }
{
    match what {
        Some(What::Array(dims, _)) => dims.as_slice(),
        _ => &[],
    }
}

/// The place of a name among the indices of a FORALL.
pub(crate) fn index_of(indices: &[Name], name: &Name) -> Option<usize>
    ensures { result ≡ position (bytes_eq name.now) indices.now }
{
    indices.iter().position(|index| *name == *index)
}

/// What the first argument of a call stands for, where it is a name by itself.
pub(crate) fn first_named<'a>(names: &'a Names, arguments: &[Expr]) -> Option<&'a What>
    ensures { option_copied result ≡ first_named names.now (arguments_of arguments.now) }
{
    let (first, _) = arguments.split_first()?;
    let Expr::Ref(reference) = first else {
        return None;
    };
    match &reference.subs {
        None => names.declared_as(&reference.name),
        Some(_) => None,
    }
}
