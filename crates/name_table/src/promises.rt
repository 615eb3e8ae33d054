//! Laws of programs that keep the rules.

ghost use Rattle.syntax_tree.specs.MainProgram.{MainProgram};
ghost use Rattle.name_table.specs.KnownSymbols.{AllAreKnown};

/// All that a program declares is known where it breaks no rule of names, constants, types and ranks.
pub fn all_are_known()
    ensures { (p : MainProgram) → AllAreKnown p }
{}
