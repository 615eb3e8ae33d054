//! What the definitions promise, as functions that do nothing.

ghost use Rattle.std.specs.Prelude.{◌≡◌, ℤ, FitsSigned};
ghost use Rattle.std.specs.Int.{w64};
ghost use Rattle.op_tables.specs.declared.join.Join.{Join};
ghost use Rattle.op_tables.specs.Joins.{IsJoin, IsOverNumbers, IsValue, join, unit};

/// Each way to join gives a value of its own values, is associative and commutative on them, and has a unit there. Its values are all numbers
/// of 64 bits, or 1 and 0 where it joins what is true. Order and grouping make no difference to numbers of more bits either.
pub fn law_of_joins()
    ensures joins { (j : Join) → IsJoin (IsValue j) (join j) (unit j) }
    ensures numbers { (j : Join) → IsOverNumbers j → IsJoin (FitsSigned w64) (join j) (unit j) }
    ensures associative { (j : Join) (a b c : ℤ) → join j (join j a b) c ≡ join j a (join j b c) }
{}
