//! Directives.

use crate::decl::write_entities;
use crate::expr::{write_expr, write_subscript};
use crate::list::{write_comma, write_name, write_names};
use crate::writer::Writer;
use hpf_base::Name;
use syntax_tree::{AlignSpec, Directive, DistSpec, Expr, Format, Source, Target};

/// Writes a directive of the declarations.
pub(crate) fn write_directive(out: &mut Writer<'_>, directive: &Directive) {
    match directive {
        Directive::Processors(entities) => {
            out.text("PROCESSORS ");
            write_entities(out, entities);
        }
        Directive::Template(entities) => {
            out.text("TEMPLATE ");
            write_entities(out, entities);
        }
        Directive::Dynamic(names) => {
            out.text("DYNAMIC ");
            write_names(out, names.as_slice());
        }
        Directive::Distribute(spec) => {
            out.text("DISTRIBUTE ");
            write_distribution(out, spec);
        }
        Directive::Align(spec) => {
            out.text("ALIGN ");
            write_alignment(out, spec);
        }
        Directive::Passed => out.text("passed over"),
    }
}

/// Writes what stands after DISTRIBUTE or REDISTRIBUTE.
pub(crate) fn write_distribution(out: &mut Writer<'_>, spec: &DistSpec) {
    if !spec.colons {
        write_names(out, spec.names.as_slice());
    }
    out.text("(");
    for (place, format) in spec.formats.iter().enumerate() {
        write_comma(out, place);
        write_format(out, format);
    }
    out.text(")");
    if let Some(name) = &spec.onto {
        out.text(" ONTO ");
        write_name(out, name);
    }
    write_named_after(out, spec.colons, spec.names.as_slice());
}

fn write_format(out: &mut Writer<'_>, format: &Format) {
    match format {
        Format::Star => out.text("*"),
        Format::Block(size) => {
            out.text("BLOCK");
            write_size(out, size);
        }
        Format::Cyclic(size) => {
            out.text("CYCLIC");
            write_size(out, size);
        }
        Format::GenBlock(sizes) => {
            out.text("GEN_BLOCK(");
            for (place, size) in sizes.iter().enumerate() {
                write_comma(out, place);
                write_expr(out, size);
            }
            out.text(")");
        }
    }
}

fn write_size(out: &mut Writer<'_>, size: &Option<Expr>) {
    let Some(size) = size else {
        return;
    };
    out.text("(");
    write_expr(out, size);
    out.text(")");
}

/// Writes what stands after ALIGN.
fn write_alignment(out: &mut Writer<'_>, spec: &AlignSpec) {
    if !spec.colons {
        write_names(out, spec.names.as_slice());
    }
    if let Some(sources) = &spec.source {
        write_sources(out, sources);
    }
    out.text(" WITH ");
    write_name(out, &spec.target);
    if let Some(targets) = &spec.subs {
        write_targets(out, targets);
    }
    write_named_after(out, spec.colons, spec.names.as_slice());
}

fn write_sources(out: &mut Writer<'_>, sources: &[Source]) {
    out.text("(");
    for (place, source) in sources.iter().enumerate() {
        write_comma(out, place);
        match source {
            Source::Dummy(name) => write_name(out, name),
            Source::Colon => out.text(":"),
            Source::Star => out.text("*"),
        }
    }
    out.text(")");
}

fn write_targets(out: &mut Writer<'_>, targets: &[Target]) {
    out.text("(");
    for (place, target) in targets.iter().enumerate() {
        write_comma(out, place);
        match target {
            Target::Sub(sub) => write_subscript(out, sub),
            Target::Star => out.text("*"),
        }
    }
    out.text(")");
}

/// Writes the names that stand after two colons, where they do.
fn write_named_after(out: &mut Writer<'_>, colons: bool, names: &[Name]) {
    if colons {
        out.text(" :: ");
        write_names(out, names);
    }
}
