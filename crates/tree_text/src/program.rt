//! Programs.

use crate::decl::write_decl;
use crate::list::write_name;
use crate::stmt::write_block;
use crate::writer::Writer;
use std::alloc::AllocError;
use syntax_tree::{EndForm, Tree};

/// Writes a program: the PROGRAM statement, which has no number, the declarations, the statements, and END.
pub fn write_program(out: &mut String, tree: &Tree) -> Result<(), AllocError> {
    let mut out = Writer::new(out);
    write_tree(&mut out, tree);
    out.outcome()
}

fn write_tree(out: &mut Writer<'_>, tree: &Tree) {
    if let Some(name) = &tree.name {
        out.text("  PROGRAM ");
        write_name(out, name);
        out.text("\n");
    }
    for decl in &tree.decls {
        write_decl(out, decl);
    }
    write_block(out, 0, &tree.body);
    write_end(out, &tree.end);
}

fn write_end(out: &mut Writer<'_>, end: &EndForm) {
    out.text("  ");
    out.number(i64::from(end.line));
    out.text(": END");
    if end.word {
        out.text(" PROGRAM");
    }
    if let Some(name) = &end.name {
        out.text(" ");
        write_name(out, name);
    }
    out.text("\n");
}
