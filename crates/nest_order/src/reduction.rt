//! The value of a REDUCTION variable after a nest.

ghost use Rattle.std.specs.Prelude.{◌≡◌, ℤ, List};
ghost use Rattle.std.specs.List.{AllByRecursion};
ghost use Rattle.op_tables.specs.declared.join.Join.{Join};
ghost use Rattle.op_tables.specs.Joins.{IsValue, join, unit};
ghost use Rattle.nest_order.specs.Reduction.{plain_value, copies_of, folded};
ghost use Rattle.nest_order.specs.Reduction.{Statement, IsOf, value_in, all_assigned};

/// A REDUCTION variable. Each statement is `S = S op e` or `S = e op S` of the variable's operator, or `S = S - e` where
/// that is `+`, and all values are those that the operator joins. The plain order makes of the entry value its join with
/// the fold of the copies.
pub fn reduction_variable()
    ensures { (op : Join) (entry : ℤ) (iterations : List (List Statement))
        → IsValue op entry
        → AllByRecursion (AllByRecursion (λ s. IsOf op s × IsValue op (value_in s))) iterations
        → plain_value entry (all_assigned op iterations)
        ≡ join op entry
        (folded (join op) (unit op) (copies_of (unit op) (all_assigned op iterations))) }
{}
