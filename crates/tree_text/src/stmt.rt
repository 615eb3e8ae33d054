//! Statements, each on a line of its own with its number first. A part of a construct whose number the tree doesn't keep
//! has none, and what is inside a statement stands two blanks further to the right.

use crate::directive::write_distribution;
use crate::expr::{write_expr, write_optional, write_ref};
use crate::list::{write_comma, write_name, write_names};
use crate::writer::Writer;
use syntax_tree::{Arm, DoLoop, Expr, Header, Item, Mark, StatementKind, Stmt};

/// Writes statements, one after the other, `depth` deep.
#[cycle(statement)]
pub(crate) fn write_block(out: &mut Writer<'_>, depth: usize, block: &[Stmt]) {
    for stmt in block {
        write_stmt(out, depth, stmt);
    }
}

#[cycle(statement)]
fn write_stmt(out: &mut Writer<'_>, depth: usize, stmt: &Stmt) {
    match &stmt.what {
        StatementKind::IfOne { cond, body } => {
            write_condition(out, depth, stmt.line, "IF ", cond, "\n");
            write_stmt(out, depth.saturating_add(1), body);
        }
        StatementKind::If { arms, rest, glued } => {
            write_arms(out, depth, stmt.line, arms);
            if let Some(block) = rest {
                write_rest(out, depth, "ELSE\n", block);
            }
            write_end(out, depth, "IF", *glued);
        }
        StatementKind::Do(head) => write_loop(out, depth, stmt.line, head),
        what => write_array_stmt(out, depth, stmt.line, what),
    }
}

/// Writes a statement that is neither IF nor DO.
#[cycle(statement)]
fn write_array_stmt(out: &mut Writer<'_>, depth: usize, line: u32, what: &StatementKind) {
    match what {
        StatementKind::Where {
            mask,
            body,
            rest,
            one,
            glued,
        } => {
            write_condition(out, depth, line, "WHERE ", mask, "\n");
            write_block(out, depth.saturating_add(1), body);
            if let Some(block) = rest {
                write_rest(out, depth, "ELSEWHERE\n", block);
            }
            write_end_unless(out, *one, depth, "WHERE", *glued);
        }
        StatementKind::Forall {
            axes,
            mask,
            body,
            one,
            glued,
            marked,
        } => {
            write_independent(out, depth, *marked);
            write_forall(out, depth, line, axes, mask);
            write_block(out, depth.saturating_add(1), body);
            write_end_unless(out, *one, depth, "FORALL", *glued);
        }
        what => write_action(out, depth, line, what),
    }
}

/// Writes a word without a number, as ELSE, and the block after it.
#[cycle(statement)]
fn write_rest(out: &mut Writer<'_>, depth: usize, word: &str, block: &[Stmt]) {
    write_word(out, depth, word);
    write_block(out, depth.saturating_add(1), block);
}

/// Writes the arms of an IF construct; the first one's number is written again where it isn't the construct's.
#[cycle(statement)]
fn write_arms(out: &mut Writer<'_>, depth: usize, line: u32, arms: &[Arm]) {
    for (place, arm) in arms.iter().enumerate() {
        let word = match (place, arm.glued) {
            (0, _) => "IF ",
            (_, true) => "ELSEIF ",
            (_, false) => "ELSE IF ",
        };
        if place == 0 && arm.line != line {
            write_number(out, depth, line);
        }
        write_condition(out, depth, arm.line, word, &arm.cond, " THEN\n");
        write_block(out, depth.saturating_add(1), &arm.body);
    }
}

#[cycle(statement)]
fn write_loop(out: &mut Writer<'_>, depth: usize, line: u32, head: &DoLoop) {
    if let Some(mark) = &head.mark {
        write_mark(out, depth, mark);
    }
    write_number(out, depth, line);
    out.text("DO ");
    write_name(out, &head.index);
    out.text(" = ");
    write_expr(out, &head.first);
    out.text(", ");
    write_expr(out, &head.last);
    if head.step.is_some() {
        write_optional(out, ", ", &head.step);
    }
    out.text("\n");
    write_block(out, depth.saturating_add(1), &head.body);
    write_end(out, depth, "DO", head.glued);
}

fn write_mark(out: &mut Writer<'_>, depth: usize, mark: &Mark) {
    write_number(out, depth, mark.line);
    out.text("INDEPENDENT");
    if !mark.new.as_slice().is_empty() {
        out.text(", NEW(");
        write_names(out, mark.new.as_slice());
        out.text(")");
    }
    if !mark.reduction.as_slice().is_empty() {
        out.text(", REDUCTION(");
        write_names(out, mark.reduction.as_slice());
        out.text(")");
    }
    out.text("\n");
}

/// Writes a word that has no number.
fn write_word(out: &mut Writer<'_>, depth: usize, word: &str) {
    write_margin(out, depth);
    out.text(word);
}

/// Writes INDEPENDENT without lists, where it stands before a FORALL.
fn write_independent(out: &mut Writer<'_>, depth: usize, marked: bool) {
    if !marked {
        return;
    }
    write_word(out, depth, "INDEPENDENT\n");
}

/// Writes the number of a FORALL, its indices and its mask.
fn write_forall(
    out: &mut Writer<'_>,
    depth: usize,
    line: u32,
    axes: &[Header],
    mask: &Option<Expr>,
) {
    write_number(out, depth, line);
    out.text("FORALL (");
    for (place, axis) in axes.iter().enumerate() {
        write_comma(out, place);
        write_name(out, &axis.name);
        out.text(" = ");
        write_expr(out, &axis.first);
        out.text(":");
        write_expr(out, &axis.last);
        if axis.step.is_some() {
            write_optional(out, ":", &axis.step);
        }
    }
    if mask.is_some() {
        write_optional(out, ", ", mask);
    }
    out.text(")\n");
}

/// Writes a statement that has no others inside it.
fn write_action(out: &mut Writer<'_>, depth: usize, line: u32, what: &StatementKind) {
    write_number(out, depth, line);
    match what {
        StatementKind::Assign { left, right } => {
            write_ref(out, left);
            out.text(" = ");
            write_expr(out, right);
        }
        StatementKind::Print(items) => write_print(out, items),
        StatementKind::Stop => out.text("STOP"),
        StatementKind::Exit => out.text("EXIT"),
        StatementKind::Cycle => out.text("CYCLE"),
        StatementKind::Continue => out.text("CONTINUE"),
        StatementKind::Redistribute(spec) => {
            out.text("REDISTRIBUTE ");
            write_distribution(out, spec);
        }
        _ => out.text("?"),
    }
    out.text("\n");
}

/// Writes PRINT; a text stands between apostrophes as `case_texts` writes it.
fn write_print(out: &mut Writer<'_>, items: &[Item]) {
    out.text("PRINT *");
    for item in items {
        out.text(", ");
        match item {
            Item::Value(expr) => write_expr(out, expr),
            Item::Text(text) => {
                out.text("'");
                out.bytes(text.as_slice());
                out.text("'");
            }
        }
    }
}

/// Writes the number of a line, a word, a condition or mask, and what stands after it.
fn write_condition(
    out: &mut Writer<'_>,
    depth: usize,
    line: u32,
    word: &str,
    cond: &Expr,
    after: &str,
) {
    write_number(out, depth, line);
    out.text(word);
    write_expr(out, cond);
    out.text(after);
}

/// Writes the last line of a construct.
fn write_end(out: &mut Writer<'_>, depth: usize, word: &str, glued: bool) {
    write_margin(out, depth);
    out.text(if glued { "END" } else { "END " });
    out.text(word);
    out.text("\n");
}

/// Writes the last line of a construct, which a statement in one line doesn't have.
fn write_end_unless(out: &mut Writer<'_>, one: bool, depth: usize, word: &str, glued: bool) {
    if one {
        return;
    }
    write_end(out, depth, word, glued);
}

/// Writes the margin and the number of a line.
fn write_number(out: &mut Writer<'_>, depth: usize, line: u32) {
    write_margin(out, depth);
    out.number(i64::from(line));
    out.text(": ");
}

fn write_margin(out: &mut Writer<'_>, depth: usize) {
    out.text("  ");
    for _ in 0..depth {
        out.text("  ");
    }
}
