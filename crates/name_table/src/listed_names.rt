//! The names in the lists of directives.

ghost use Rattle.std.specs.Prelude.{◌≡◌};
ghost use Rattle.std.specs.List.{list_all};
ghost use Rattle.syntax_tree.specs.Directive.{distribution, names_of};
ghost use Rattle.expression_rules.specs.Symbols.{is_declared};
ghost use Rattle.name_table.specs.Directives.{distribution_names};
ghost use Rattle.expression_rules.specs.Inner.{present};

use expression_rules::SymbolTable;
use hpf_base::Name;
use syntax_tree::DistSpec;

/// Whether the names are declared.
pub(crate) fn are_declared(table: &SymbolTable, names: &[Name]) -> bool
    ensures { result ≡ list_all (λ x. is_declared x table.now) names.now }
{
    names.iter().all(|name| table.find(name).is_some())
}

/// Whether a name that may be there is declared.
pub(crate) fn is_declared_if_any(table: &SymbolTable, name: &Option<Name>) -> bool
    ensures { result ≡ list_all (λ x. is_declared x table.now) (present name.now) }
{
    match name {
        None => true,
        Some(name) => table.find(name).is_some(),
    }
}

/// Whether what DISTRIBUTE, REDISTRIBUTE or ALIGN maps is declared: the names after `::`, or the one name before its list. Where there
/// isn't exactly one, as in no text, the answer is no.
pub(crate) fn are_mapped_declared(table: &SymbolTable, colons: bool, names: &[Name]) -> bool
    ensures { result ≡ list_all (λ x. is_declared x table.now) (names_of colons names.now) }
{
    if colons {
        return are_declared(table, names);
    }
    table.valid();
    match names {
        [name] => table.find(name).is_some(),
        _ => false,
    }
}

/// Whether the names of DISTRIBUTE or REDISTRIBUTE are declared: what it maps, and the name after ONTO where there is one.
#[tactic(auto, using(expression_rules::proofs::Folds::all_append))]
pub(crate) fn is_distribution_declared(table: &SymbolTable, spec: &DistSpec) -> bool
    ensures { result ≡ list_all (λ x. is_declared x table.now) (distribution_names (distribution spec.now)) }
{
    are_mapped_declared(table, spec.colons, spec.names.as_slice())
        && is_declared_if_any(table, &spec.onto)
}
