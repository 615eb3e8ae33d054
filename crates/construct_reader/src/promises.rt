//! Laws of programs and their lines.

ghost use Rattle.std.specs.Prelude.{◌≡◌, List};
ghost use Rattle.construct_rules.specs.ProgramLine.{ProgramLine};
ghost use Rattle.construct_reader.specs.Formed.{IsProgram};
ghost use Rattle.construct_reader.specs.Meant.{meant};
ghost use Rattle.construct_reader.specs.ProgramLines.{IsSpelled};
ghost use Rattle.construct_reader.specs.Said.{AreSaid};
ghost use Rattle.construct_reader.specs.SpelledProgram.{SpelledProgram};
ghost use Rattle.construct_reader.specs.Views.{spelled_program};
ghost use Rattle.syntax_tree.specs.MainProgram.{main_program};
ghost use Rattle.syntax_tree.specs.declared.decl.Tree.{Tree};

/// Lines spell one program at most.
pub fn one_program()
    ensures { (p q : SpelledProgram) → IsProgram p → IsProgram q → (ls : List ProgramLine) → IsSpelled ls p → IsSpelled ls q → p ≡ q }
{}

/// What the lines of a tree mean is its abstract syntax, where its declarations are said by lexemes. So lines determine the program that they spell and what it says.
pub fn one_meaning()
    ensures { (t : Tree) → IsProgram (spelled_program t) → AreSaid (spelled_program t).declarations → meant (spelled_program t) ≡ main_program t }
{}
