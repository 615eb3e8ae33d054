//! What is known before an instruction.

ghost use Rattle.std.specs.Prelude.{◌≡◌, ◌==◌, true};
ghost use Rattle.std.specs.List.{list_all};

use name_table::Names;
use node_program::NodeProgram;
use owner_tables::Owners;

/// What is known before an instruction of a program: the declared names, who owns the elements of the rows, of which the first are theirs, and the
/// slots.
#[derive(Drop)]
pub(crate) struct Before<'a> {
    pub(crate) program: &'a NodeProgram,
    pub(crate) names: &'a Names,
    pub(crate) owners: &'a Owners,
    pub(crate) slots: &'a [i64],
    ghost nodes: { program.now.nodes ≡ owners.now.nodes },
    ghost tables: { list_all (λ t. t.nodes == program.now.nodes) program.now.tables.items ≡ true },
}
