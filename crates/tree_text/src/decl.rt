//! Declarations.

use crate::directive::write_directive;
use crate::expr::{write_expr, write_optional};
use crate::list::{write_comma, write_name};
use crate::writer::Writer;
use syntax_tree::{Bound, ConstDef, Decl, DeclKind, Entity, IntegerDecl};

/// Writes a declaration on a line of its own, its number first.
pub(crate) fn write_decl(out: &mut Writer<'_>, decl: &Decl) {
    out.text("  ");
    out.number(i64::from(decl.line));
    out.text(": ");
    match &decl.what {
        DeclKind::ImplicitNone => out.text("IMPLICIT NONE"),
        DeclKind::Integer(integer) => write_integer(out, integer),
        DeclKind::Parameter(constants) => write_parameter(out, constants),
        DeclKind::Directive(directive) => write_directive(out, directive),
    }
    out.text("\n");
}

fn write_integer(out: &mut Writer<'_>, decl: &IntegerDecl) {
    out.text("INTEGER");
    if decl.constant {
        out.text(", PARAMETER");
    }
    if let Some(dims) = &decl.dims {
        out.text(", DIMENSION");
        write_bounds(out, dims);
    }
    out.text(if decl.colons { " :: " } else { " " });
    write_entities(out, &decl.entities);
}

fn write_parameter(out: &mut Writer<'_>, constants: &[ConstDef]) {
    out.text("PARAMETER (");
    for (place, constant) in constants.iter().enumerate() {
        write_comma(out, place);
        write_name(out, &constant.name);
        out.text(" = ");
        write_expr(out, &constant.value);
    }
    out.text(")");
}

pub(crate) fn write_entities(out: &mut Writer<'_>, entities: &[Entity]) {
    for (place, entity) in entities.iter().enumerate() {
        write_comma(out, place);
        write_name(out, &entity.name);
        if let Some(dims) = &entity.dims {
            write_bounds(out, dims);
        }
        if entity.start.is_some() {
            write_optional(out, " = ", &entity.start);
        }
    }
}

fn write_bounds(out: &mut Writer<'_>, bounds: &[Bound]) {
    out.text("(");
    for (place, bound) in bounds.iter().enumerate() {
        write_comma(out, place);
        if let Some(lower) = &bound.lower {
            write_expr(out, lower);
            out.text(":");
        }
        write_expr(out, &bound.upper);
    }
    out.text(")");
}
