//! The rules of types and ranks in statements (Fortran 95, 7.4.1.4, 7.5.1.1, 7.5.3, 7.5.4, 8.1.2, 8.1.4, 9.4.2 and 13.14;
//! HPF 2.0, 7.4).

ghost use Rattle.std.specs.Prelude.{◌≡◌, ◌&&◌, ◌||◌, nat_eq, nat_le, [], ◌∷◌, IfOk};
ghost use Rattle.std.specs.List.{flat_map};
ghost use Rattle.hpf_base.specs.FirstBreach.{least};
ghost use Rattle.syntax_tree.specs.Expression.{arguments_of, expression};
ghost use Rattle.op_tables.specs.declared.op.Op.TheVariants as op;
ghost use Rattle.syntax_tree.specs.Statement.{block_of, designator, variable};
ghost use Rattle.expression_rules.specs.declared.types.Context.TheVariants as context;
ghost use Rattle.expression_rules.specs.Types.{if_typed, is_integer_scalar, type_and_rank};
ghost use Rattle.statement_walk.specs.Heads.{all_heads};
ghost use Rattle.name_table.specs.Places.{all_meet, context_of, is_designator, is_element, is_integer, is_mask, is_masked_by, is_right_of, is_transformed, meets, place, places, transforms_to, whole_rank, ArrayElement, AssignedTo, IntegerScalar, LogicalArray, LogicalScalar, MaskedArray, RightOf, Variable};
ghost use Rattle.name_table.specs.RankRules.{rank_breaches_at};
ghost use Rattle.statement_walk.specs.Views.{head_of};

use crate::expressions::{ExpressionTest, in_axis, in_formats, in_headers, in_items, in_option};
use crate::integer_scalars::IntegerScalars;
use crate::refused::refused_unless;
use expression_rules::{
    Context, DataType, Scope, SymbolTable, TypeAndRank, is_integer_scalar, is_logical_scalar,
    reference_type, type_and_rank,
};
use hpf_base::{Name, Reason, Refusal};
use statement_walk::{Head, Judge, first_bad};
use std::alloc::{AllocError, Global};
use syntax_tree::{Expr, Op, Ref, Stmt};

/// Judges the types and ranks of a statement.
#[derive(Clone, Copy)]
struct Ranks<'a> {
    scope: &'a Scope<'a>,
}

impl<'a> Judge for Ranks<'a> {
    ghost use Rattle.name_table.specs.RankRules.{rank_breaches_at};

    ghost breaches = { λ j p. rank_breaches_at j.scope.now p };

    fn judge(
        &self,
        alloc: Global,
        line: u32,
        _do_variables: &[Name],
        head: Head<'_>,
    ) -> Result<Option<Refusal>, AllocError> {
        let good = all_meet(alloc, self.scope, head)?;
        Ok(refused_unless(good, line, Reason::BadRank))
    }
}

/// The first breach of the rules of types and ranks in statements, where there is one. An `Err` is want of memory.
pub(crate) fn first_bad_rank(
    alloc: Global,
    table: &SymbolTable,
    stmts: &[Stmt],
) -> Result<Option<Refusal>, AllocError>
    ensures { IfOk result (λ r. r ≡ least (flat_map (rank_breaches_at table.now) (all_heads (block_of stmts.now)))) }
{
    let scope = Scope::new(table);
    let judge = Ranks { scope: &scope };
    let first = first_bad(alloc, &judge, stmts)?;
    Ok(first)
}

/// Whether expressions are logical scalars.
#[derive(Clone, Copy)]
struct LogicalScalars<'a> {
    alloc: Global,
    scope: &'a Scope<'a>,
}

impl<'a> ExpressionTest for LogicalScalars<'a> {
    ghost use Rattle.expression_rules.specs.declared.types.Context.TheVariants as context;
    ghost use Rattle.name_table.specs.Places.{meets, LogicalScalar};

    ghost passes = { λ t e. meets context.Statement t.scope.now LogicalScalar e };

    fn test(&self, e: &Expr) -> Result<bool, AllocError> {
        let what = type_and_rank(self.alloc, Context::Statement, self.scope, e)?;
        Ok(is_logical_scalar(what))
    }
}

/// Whether expressions may be items of a PRINT.
#[derive(Clone, Copy)]
struct PrintItems<'a> {
    alloc: Global,
    scope: &'a Scope<'a>,
}

impl<'a> ExpressionTest for PrintItems<'a> {
    ghost use Rattle.expression_rules.specs.declared.types.Context.TheVariants as context;
    ghost use Rattle.name_table.specs.Places.{meets, PrintItem};

    ghost passes = { λ t e. meets context.Statement t.scope.now PrintItem e };

    fn test(&self, e: &Expr) -> Result<bool, AllocError> {
        let what = type_and_rank(self.alloc, Context::Statement, self.scope, e)?;
        Ok(is_printed(what, is_designator(e)))
    }
}

/// Whether each expression of a statement is what its place asks. An `Err` is want of memory, here and below.
#[tactic(auto, using(crate::proofs::Scalars::all_alike, crate::proofs::Scalars::header_meets))]
fn all_meet(alloc: Global, scope: &Scope<'_>, head: Head<'_>) -> Result<bool, AllocError>
    ensures { IfOk result (λ b. b ≡ all_meet (context_of (head_of head.entry)) scope.now (places (head_of head.entry))) }
{
    let scalars = IntegerScalars {
        alloc,
        context: Context::Statement,
        scope,
    };
    match head {
        Head::Assignment(left, right) => is_assignment(alloc, scope, left, right),
        Head::MaskedAssignment(mask, left, right) => {
            is_masked_assignment(alloc, scope, mask, left, right)
        }
        Head::ForallAssignment(_, left, right) => {
            is_forall_assignment(alloc, scope, left, right)
        }
        Head::Condition(e) => LogicalScalars { alloc, scope }.test(e),
        Head::Independent(_) | Head::Transfer => Ok(true),
        Head::Do(_, _, first, last, step) => in_axis(&scalars, first, last, step),
        Head::Where(mask) => is_logical_array(alloc, scope, mask),
        Head::Forall(axes, mask) => {
            let axes = in_headers(&scalars, axes)?;
            let mask = in_option(&LogicalScalars { alloc, scope }, mask)?;
            Ok(axes & mask)
        }
        Head::Print(items) => in_items(&PrintItems { alloc, scope }, items),
        Head::Redistribute(spec) => {
            let scalars = IntegerScalars {
                alloc,
                context: Context::Directive,
                scope,
            };
            in_formats(&scalars, &spec.formats)
        }
    }
}

/// The type and the rank of the left side of an assignment.
#[tactic(auto, using(syntax_tree::proofs::Designators::designated))]
fn variable_type(
    alloc: Global,
    scope: &Scope<'_>,
    left: &Ref,
) -> Result<Option<TypeAndRank>, AllocError>
    ensures { IfOk result (λ s. s ≡ type_and_rank context.Statement scope.now (designator (variable left.now))) }
{
    let found = reference_type(alloc, Context::Statement, scope, left)?;
    Ok(found)
}

/// Whether an integer stands on the right side, a scalar or of the rank of the left side.
fn is_right_of(left: Option<TypeAndRank>, right: Option<TypeAndRank>) -> bool
    ensures { result ≡ if_typed (λ l. if_typed (is_right_of l) right) left }
{
    match (left, right) {
        (Some(left), Some(right)) => {
            is_integer(right) && (right.rank == 0 || right.rank == left.rank)
        }
        _ => false,
    }
}

/// Whether an array of the mask's rank stands on the left side.
fn is_masked_by(mask: Option<TypeAndRank>, left: Option<TypeAndRank>) -> bool
    ensures { result ≡ if_typed (λ m. if_typed (is_masked_by m) left) mask }
{
    match (mask, left) {
        (Some(mask), Some(left)) => 1 <= left.rank && left.rank == mask.rank,
        _ => false,
    }
}

/// Whether it is an integer, or an array of them.
fn is_integer(what: TypeAndRank) -> bool
    ensures { result ≡ is_integer what }
{
    matches!(what.data_type, DataType::Integer)
}

/// Whether the variable is an element or a section of an array.
#[tactic(auto, using(syntax_tree::proofs::Designators::designated))]
fn is_element(left: &Ref) -> bool
    ensures { result ≡ is_element (designator (variable left.now)) }
{
    match &left.subs {
        None => false,
        Some(_) => true,
    }
}

/// Whether the sides of an assignment are what they must be.
fn is_assignment(
    alloc: Global,
    scope: &Scope<'_>,
    left: &Ref,
    right: &Expr,
) -> Result<bool, AllocError>
    ensures { IfOk result (λ b. b ≡ all_meet context.Statement scope.now (place Variable (designator (variable left.now))
        ∷ place (AssignedTo (designator (variable left.now))) (expression right.now) ∷ [])) }
{
    let rank = whole_rank(alloc, scope, left)?;
    let transformed = is_transformed(alloc, scope, rank, right)?;
    let left = variable_type(alloc, scope, left)?;
    let right = type_and_rank(alloc, Context::Statement, scope, right)?;
    Ok(left.is_some() && (is_right_of(left, right) || transformed))
}

/// The rank of an array that is named by itself, and 0 of an element or a section.
#[tactic(auto, using(syntax_tree::proofs::Designators::designated))]
fn whole_rank(alloc: Global, scope: &Scope<'_>, left: &Ref) -> Result<usize, AllocError>
    ensures { IfOk result (λ r. r ≡ whole_rank scope.now (designator (variable left.now))) }
{
    match &left.subs {
        Some(_) => Ok(0),
        None => {
            let found = reference_type(alloc, Context::Statement, scope, left)?;
            match found {
                None => Ok(0),
                Some(what) => Ok(what.rank),
            }
        }
    }
}

/// Whether CSHIFT, TRANSPOSE or SUM_PREFIX of a whole array stands on the right side of a whole array of this rank.
fn is_transformed(
    alloc: Global,
    scope: &Scope<'_>,
    rank: usize,
    right: &Expr,
) -> Result<bool, AllocError>
    ensures { IfOk result (λ b. b ≡ is_transformed context.Statement scope.now rank (expression right.now)) }
{
    match right {
        Expr::Call(op, arguments) => transforms_to(alloc, scope, rank, *op, arguments),
        _ => Ok(false),
    }
}

/// Whether a procedure with these arguments is such a transformation into a whole array of this rank.
fn transforms_to(
    alloc: Global,
    scope: &Scope<'_>,
    rank: usize,
    op: Op,
    arguments: &[Expr],
) -> Result<bool, AllocError>
    ensures { IfOk result (λ b. b ≡ transforms_to context.Statement scope.now rank op (arguments_of arguments.now)) }
{
    match op {
        Op::CShift => is_shifted(alloc, scope, rank, arguments),
        Op::Transpose => is_transposed(alloc, scope, rank, arguments),
        Op::SumPrefix => is_prefix_sum(alloc, scope, rank, arguments),
        _ => Ok(false),
    }
}

/// Whether these are the arguments of a CSHIFT: a whole array, and how far it is shifted.
fn is_shifted(
    alloc: Global,
    scope: &Scope<'_>,
    rank: usize,
    arguments: &[Expr],
) -> Result<bool, AllocError>
    ensures { IfOk result (λ b. b ≡ transforms_to context.Statement scope.now rank op.CShift (arguments_of arguments.now)) }
{
    let Some((source, rest)) = arguments.split_first() else {
        return Ok(false);
    };
    let Some((by, more)) = rest.split_first() else {
        return Ok(false);
    };
    if let Some(_) = more.split_first() {
        return Ok(false);
    }
    let source = source_rank(alloc, scope, source)?;
    let by = type_and_rank(alloc, Context::Statement, scope, by)?;
    Ok(are_shifted(rank, source, by))
}

/// Whether the ranks of a CSHIFT are one, and it is shifted by an integer scalar.
fn are_shifted(rank: usize, source: usize, by: Option<TypeAndRank>) -> bool
    ensures { result ≡ (nat_le 1 rank && (nat_eq source rank && if_typed is_integer_scalar by)) }
{
    1 <= rank && source == rank && is_integer_scalar(by)
}

/// Whether this is the argument of a TRANSPOSE: a whole array.
fn is_transposed(
    alloc: Global,
    scope: &Scope<'_>,
    rank: usize,
    arguments: &[Expr],
) -> Result<bool, AllocError>
    ensures { IfOk result (λ b. b ≡ transforms_to context.Statement scope.now rank op.Transpose (arguments_of arguments.now)) }
{
    let Some((source, more)) = arguments.split_first() else {
        return Ok(false);
    };
    if let Some(_) = more.split_first() {
        return Ok(false);
    }
    let source = source_rank(alloc, scope, source)?;
    Ok(are_transposed(rank, source))
}

/// Whether both ranks of a TRANSPOSE are 2.
fn are_transposed(rank: usize, source: usize) -> bool
    ensures { result ≡ (nat_eq rank 2 && nat_eq source 2) }
{
    rank == 2 && source == 2
}

/// Whether this is the argument of a SUM_PREFIX: a whole array (HPF 2.0, 7.4).
fn is_prefix_sum(
    alloc: Global,
    scope: &Scope<'_>,
    rank: usize,
    arguments: &[Expr],
) -> Result<bool, AllocError>
    ensures { IfOk result (λ b. b ≡ transforms_to context.Statement scope.now rank op.SumPrefix (arguments_of arguments.now)) }
{
    let Some((source, more)) = arguments.split_first() else {
        return Ok(false);
    };
    if let Some(_) = more.split_first() {
        return Ok(false);
    }
    let source = source_rank(alloc, scope, source)?;
    Ok(are_summed(rank, source))
}

/// Whether both ranks of a SUM_PREFIX are 1.
fn are_summed(rank: usize, source: usize) -> bool
    ensures { result ≡ (nat_eq rank 1 && nat_eq source 1) }
{
    rank == 1 && source == 1
}

/// The rank of an array that an expression names by itself, and 0 of any other expression.
fn source_rank(alloc: Global, scope: &Scope<'_>, e: &Expr) -> Result<usize, AllocError>
    ensures { IfOk result (λ r. r ≡ whole_rank scope.now (expression e.now)) }
{
    match e {
        Expr::Ref(reference) => whole_rank(alloc, scope, reference),
        _ => Ok(0),
    }
}

/// Whether the sides of an assignment under a mask are what they must be, the left one an array of the mask's rank.
fn is_masked_assignment(
    alloc: Global,
    scope: &Scope<'_>,
    mask: &Expr,
    left: &Ref,
    right: &Expr,
) -> Result<bool, AllocError>
    ensures { IfOk result (λ b. b ≡ all_meet context.Statement scope.now (place (MaskedArray (expression mask.now)) (designator (variable left.now))
        ∷ place (RightOf (designator (variable left.now))) (expression right.now) ∷ [])) }
{
    let mask = type_and_rank(alloc, Context::Statement, scope, mask)?;
    let left = variable_type(alloc, scope, left)?;
    let right = type_and_rank(alloc, Context::Statement, scope, right)?;
    Ok(is_masked_by(mask, left) & is_right_of(left, right))
}

/// Whether the sides of an assignment of a FORALL are an integer element of an array and an integer scalar.
fn is_forall_assignment(
    alloc: Global,
    scope: &Scope<'_>,
    left: &Ref,
    right: &Expr,
) -> Result<bool, AllocError>
    ensures { IfOk result (λ b. b ≡ all_meet context.Statement scope.now (place ArrayElement (designator (variable left.now)) ∷ place IntegerScalar (expression right.now) ∷ [])) }
{
    let element = is_element(left);
    let left = variable_type(alloc, scope, left)?;
    let right = type_and_rank(alloc, Context::Statement, scope, right)?;
    Ok(element & is_integer_scalar(left) & is_integer_scalar(right))
}

/// Whether it is an array of logical values.
fn is_mask(what: Option<TypeAndRank>) -> bool
    ensures { result ≡ if_typed is_mask what }
{
    match what {
        None => false,
        Some(what) => !is_integer(what) && 1 <= what.rank,
    }
}

/// Whether an expression is a mask, which is no scalar.
fn is_logical_array(alloc: Global, scope: &Scope<'_>, mask: &Expr) -> Result<bool, AllocError>
    ensures { IfOk result (λ b. b ≡ meets context.Statement scope.now LogicalArray (expression mask.now)) }
{
    let what = type_and_rank(alloc, Context::Statement, scope, mask)?;
    Ok(is_mask(what))
}

/// Whether the expression is a name, or a name with subscripts after it.
fn is_designator(e: &Expr) -> bool
    ensures { result ≡ is_designator (expression e.now) }
{
    matches!(e, Expr::Ref(_))
}

/// Whether it is an integer scalar or, where it is a designator, an integer array.
fn is_printed(what: Option<TypeAndRank>, designator: bool) -> bool
    ensures { result ≡ if_typed (λ s. is_integer s && (nat_eq s.rank 0 || designator)) what }
{
    match what {
        None => false,
        Some(what) => is_integer(what) && (what.rank == 0 || designator),
    }
}
