//! Expressions, with each operation in parentheses; the parentheses of the text are brackets.

use crate::list::{write_comma, write_name};
use crate::writer::Writer;
use op_tables::Op;
use syntax_tree::{Expr, Ref, Subscript};

/// Writes an expression, as `((-A) + [B(1, 2:N:3)])`.
#[cycle(expression)]
pub(crate) fn write_expr(out: &mut Writer<'_>, expr: &Expr) {
    match expr {
        Expr::Int(value) => out.number(*value),
        Expr::Bool(value) => out.text(if *value { ".TRUE." } else { ".FALSE." }),
        Expr::Ref(reference) => write_ref(out, reference),
        Expr::Unary(op, operand) => {
            out.text("(");
            out.text(spelling(*op));
            write_expr(out, operand);
            out.text(")");
        }
        Expr::Binary(op, left, right) => {
            out.text("(");
            write_expr(out, left);
            out.text(" ");
            out.text(spelling(*op));
            out.text(" ");
            write_expr(out, right);
            out.text(")");
        }
        Expr::Call(op, arguments) => {
            out.text(spelling(*op));
            out.text("(");
            for (place, argument) in arguments.iter().enumerate() {
                write_comma(out, place);
                write_expr(out, argument);
            }
            out.text(")");
        }
        Expr::Paren(inner) => {
            out.text("[");
            write_expr(out, inner);
            out.text("]");
        }
    }
}

/// Writes a name with its subscripts.
#[cycle(expression)]
pub(crate) fn write_ref(out: &mut Writer<'_>, reference: &Ref) {
    write_name(out, &reference.name);
    let Some(subs) = &reference.subs else {
        return;
    };
    out.text("(");
    for (place, sub) in subs.iter().enumerate() {
        write_comma(out, place);
        write_subscript(out, sub);
    }
    out.text(")");
}

#[cycle(expression)]
pub(crate) fn write_subscript(out: &mut Writer<'_>, sub: &Subscript) {
    match sub {
        Subscript::One(expr) => write_expr(out, expr),
        Subscript::Triplet { first, last, step } => {
            write_optional(out, "", first);
            write_optional(out, ":", last);
            if step.is_some() {
                write_optional(out, ":", step);
            }
        }
    }
}

/// Writes a sign, and the expression after it where there is one.
#[cycle(expression)]
pub(crate) fn write_optional(out: &mut Writer<'_>, sign: &str, expr: &Option<Expr>) {
    out.text(sign);
    if let Some(expr) = expr {
        write_expr(out, expr);
    }
}

/// How an operator or an intrinsic procedure is spelled.
fn spelling(op: Op) -> &'static str {
    match op {
        Op::Add | Op::Plus => "+",
        Op::Sub | Op::Neg => "-",
        Op::Mul => "*",
        Op::Div => "/",
        Op::Pow => "**",
        Op::Eq => "==",
        Op::Ne => "/=",
        Op::Lt => "<",
        Op::Le => "<=",
        Op::Gt => ">",
        Op::Ge => ">=",
        Op::LogNot => ".NOT. ",
        Op::And => ".AND.",
        Op::Or => ".OR.",
        Op::Eqv => ".EQV.",
        Op::Neqv => ".NEQV.",
        op => intrinsic_spelling(op),
    }
}

fn intrinsic_spelling(op: Op) -> &'static str {
    match op {
        Op::Abs => "ABS",
        Op::Dim => "DIM",
        Op::Sign => "SIGN",
        Op::Mod => "MOD",
        Op::Modulo => "MODULO",
        Op::Max => "MAX",
        Op::Min => "MIN",
        Op::BitAnd => "IAND",
        Op::BitOr => "IOR",
        Op::BitXor => "IEOR",
        Op::BitNot => "NOT",
        Op::Sum => "SUM",
        Op::Product => "PRODUCT",
        Op::MaxVal => "MAXVAL",
        Op::MinVal => "MINVAL",
        Op::Count => "COUNT",
        Op::Any => "ANY",
        Op::All => "ALL",
        Op::Size => "SIZE",
        Op::LBound => "LBOUND",
        Op::UBound => "UBOUND",
        Op::Nodes => "NUMBER_OF_PROCESSORS",
        Op::SumPrefix => "SUM_PREFIX",
        Op::CShift => "CSHIFT",
        Op::Transpose => "TRANSPOSE",
        _ => "?",
    }
}
