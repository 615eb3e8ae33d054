//! Reading a program line by line.

ghost use Rattle.std.specs.Prelude.{◌≡◌, ℕ, List, [], ◌∷◌, Some, IfOk};
ghost use Rattle.hpf_base.specs.Refusal.{NoBreach};
ghost use Rattle.statement_reader.specs.declared.kind.Kind.TheVariants as kind;
ghost use Rattle.statement_reader.specs.Forms as statements;
ghost use Rattle.statement_reader.specs.Views.{form_of};
ghost use Rattle.construct_rules.specs.Breaches.{IsNestBreach};
ghost use Rattle.construct_rules.specs.ProgramLine.{ProgramLine as PlainLine, line_of, lines_of};
ghost use Rattle.construct_reader.specs.Formed.{IsProgram};
ghost use Rattle.construct_reader.specs.ProgramLines.{IsSpelled};
ghost use Rattle.construct_reader.specs.Progress.{GoesPast, IsBefore, IsClassOf, IsInner, IsProgress};
ghost use Rattle.construct_reader.specs.NextLine.{statement_line};
ghost use Rattle.construct_reader.specs.Views.{declaration_line, spelled_program};

use crate::draft::Draft;
use crate::next_line::after;
use construct_rules::{LineContent, ProgramLine};
use directive_reader::DirectiveLine;
use hpf_base::Name;
use statement_reader::Statement;
use std::alloc::{AllocError, Global};
use syntax_tree::{Decl, DeclKind, Tree};

/// A program up to a line.
#[derive(Drop)]
pub(crate) struct Progress {
    name: Option<Name>,
    decls: Vec<Decl>,
    draft: Draft,
    /// The declarations are over.
    over: bool,
}

/// What a line is to a program.
#[derive(Drop)]
enum LineClass {
    Name(Name),
    /// A declaration, or a directive that is passed over.
    Decl(Decl),
    /// A statement, a part of a construct, END, or a directive among the statements.
    Inner(ProgramLine),
}

/// What a line is to a program.
fn classify(line: ProgramLine) -> LineClass
    ensures { IsClassOf (line_of line) result }
{
    let ProgramLine { number, what } = line;
    match what {
        LineContent::Statement(what) => classify_statement(number, what),
        LineContent::Directive(DirectiveLine::Mapping(mapping)) => LineClass::Decl(Decl {
            line: number,
            what: DeclKind::Directive(mapping),
        }),
        what => LineClass::Inner(ProgramLine { number, what }),
    }
}

/// What a statement is to a program.
fn classify_statement(line: u32, what: Statement) -> LineClass
    ensures { IsClassOf (statement_line line (form_of what)) result }
{
    match what {
        Statement::Program(name) => LineClass::Name(name),
        Statement::ImplicitNone => LineClass::Decl(Decl {
            line,
            what: DeclKind::ImplicitNone,
        }),
        Statement::Integer(decl) => LineClass::Decl(Decl {
            line,
            what: DeclKind::Integer(decl),
        }),
        Statement::Parameter(defs) => LineClass::Decl(Decl {
            line,
            what: DeclKind::Parameter(defs),
        }),
        what => LineClass::Inner(ProgramLine {
            number: line,
            what: LineContent::Statement(what),
        }),
    }
}

/// PROGRAM. What was passed over before it is no part of the tree.
fn named(alloc: Global, so_far: Progress, name: Name) -> Progress
    ensures { (n : ℕ) → GoesPast so_far (statement_line n (statements.Plain kind.Program name)) result }
{
    let Progress {
        name: _,
        decls: _,
        draft,
        over,
    } = so_far;
    Progress {
        name: Some(name),
        decls: Vec::new(alloc),
        draft,
        over,
    }
}

/// A declaration. After the declarations it is one that is passed over, and no part of the tree.
fn declared(so_far: Progress, decl: Decl) -> Result<Progress, AllocError>
    ensures { IfOk result (GoesPast so_far (declaration_line decl)) }
{
    let Progress {
        name,
        mut decls,
        draft,
        over,
    } = so_far;
    if !over {
        decls.push(decl)?;
    }
    Ok(Progress {
        name,
        decls,
        draft,
        over,
    })
}

/// A line after the declarations.
fn inner(alloc: Global, so_far: Progress, line: ProgramLine) -> Result<Progress, AllocError>
    requires inside { IsInner (line_of line) }
    requires held { IsBefore so_far (line_of line) }
    ensures { IfOk result (GoesPast so_far (line_of line)) }
{
    let Progress {
        name,
        decls,
        draft,
        over: _,
    } = so_far;
    let draft = after(alloc, draft, line)?;
    Ok(Progress {
        name,
        decls,
        draft,
        over: true,
    })
}

/// One line more.
fn further(alloc: Global, so_far: Progress, line: ProgramLine) -> Result<Progress, AllocError>
    requires held { IsBefore so_far (line_of line) }
    ensures { IfOk result (GoesPast so_far (line_of line)) }
{
    match classify(line) {
        LineClass::Name(name) => Ok(named(alloc, so_far, name)),
        LineClass::Decl(decl) => declared(so_far, decl),
        LineClass::Inner(line) => inner(alloc, so_far, line),
    }
}

/// Before the first line.
fn nothing(alloc: Global) -> Progress
    ensures { (ls : List PlainLine) (last : ℕ) → NoBreach (IsNestBreach last ls) → IsProgress ls last result ls }
{
    Progress {
        name: None,
        decls: Vec::new(alloc),
        draft: Draft {
            opens: Vec::new(alloc),
            block: Vec::new(alloc),
            mark: None,
            end: None,
        },
        over: false,
    }
}

/// The tree, after the last line.
fn tree(so_far: Progress) -> Tree
    requires held { (ls : List PlainLine) × (last : ℕ) × IsProgress ls last so_far [] }
    ensures { (ls : List PlainLine) (last : ℕ) → IsProgress ls last so_far [] → IsSpelled ls (spelled_program result) × IsProgram (spelled_program result) }
{
    let Progress {
        name,
        decls,
        draft,
        over: _,
    } = so_far;
    let Draft {
        opens: _,
        block,
        mark: _,
        end,
    } = draft;
    let Some(end) = end else { unreachable!() };
    Tree {
        name,
        decls,
        body: block,
        end,
    }
}

/// The tree of a program, from its lines.
///
/// The lines are those of a text, in order, each with its number, and break no rule of constructs, declarations and
/// directives. The answer is the one tree that they spell, with the numbers of their lines. A directive that is passed
/// over is a declaration of the tree where it stands among them: after PROGRAM, where there is one, and before anything
/// but a declaration; elsewhere nothing is kept of it. An `Err` is want of memory, and nothing else.
pub fn read_nest(alloc: Global, lines: Vec<ProgramLine>) -> Result<Tree, AllocError>
    requires { (last : ℕ) × NoBreach (IsNestBreach last (lines_of lines.items)) }
    ensures spelled { IfOk result (λ t. IsSpelled (lines_of lines.items) (spelled_program t)) }
    ensures formed { IfOk result (λ t. IsProgram (spelled_program t)) }
{
    let mut so_far = nothing(alloc);
    for line in lines {
        so_far = further(alloc, so_far, line)?;
    }
    Ok(tree(so_far))
}
