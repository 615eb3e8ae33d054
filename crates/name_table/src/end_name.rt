//! The name after END PROGRAM (Fortran 95, 11.1).

ghost use Rattle.std.specs.Prelude.{◌≡◌, option_copied};
ghost use Rattle.hpf_base.specs.FirstBreach.{least};
ghost use Rattle.syntax_tree.specs.MainProgram.{end_name_of, main_program};
ghost use Rattle.name_table.specs.NameRules.{end_breaches, is_named};

use crate::refused::refused_unless;
use hpf_base::{Name, Reason, Refusal};
use syntax_tree::{EndForm, Tree};

/// The breach of a name after END PROGRAM that isn't the program's. It takes no memory.
pub(crate) fn bad_end_name(tree: &Tree) -> Option<Refusal>
    ensures { result ≡ least (end_breaches (main_program tree.now)) }
{
    match end_name(&tree.end) {
        None => None,
        Some(bytes) => {
            refused_unless(is_named(&tree.name, bytes), tree.end.line, Reason::BadName)
        }
    }
}

/// The bytes of the name after END PROGRAM, where one stands there.
fn end_name(end: &EndForm) -> Option<&[u8]>
    ensures { option_copied result ≡ end_name_of end.now.word end.now.name }
{
    match &end.name {
        None => None,
        Some(name) => if end.word {
            Some(name.bytes())
        } else {
            Some(&[])
        },
    }
}

/// The bytes are the program's name.
fn is_named(name: &Option<Name>, bytes: &[u8]) -> bool
    ensures { result ≡ is_named name.now bytes.now }
{
    match name {
        None => false,
        Some(name) => name.bytes() == bytes,
    }
}
