//! What a tree joins.

ghost use Rattle.std.specs.Prelude.{◌≡◌, fold};
ghost use Rattle.op_tables.specs.Joins.{IsJoin};

/// A way to join two items of one type. Its items are values where its own predicate says so. On values the join is
/// associative and commutative, and its unit is neutral.
pub trait Fold {
    /// What is joined.
    type Item: Copy;

    ghost is_value: { Self.Item → Type 0 };

    ghost neutral: { Self.Item };

    ghost joined: { Self.Item → Self.Item → Self.Item };

    /// The unit of the join.
    fn unit() -> Self::Item
        ensures { result ≡ neutral };

    /// The two items joined.
    fn join(a: Self::Item, b: Self::Item) -> Self::Item
        ensures { result ≡ joined a b };

    /// Does nothing. An item in hand is a value.
    fn tell(a: Self::Item)
        ensures { is_value a };

    ghost laws: { IsJoin is_value joined neutral };
}

/// The plain fold: the items joined from the left, beginning with the unit. It takes no memory.
pub fn fold_tree<F: Fold>(items: &[F::Item]) -> F::Item
    ensures { result ≡ fold F.joined F.neutral items.now }
{
    let mut all = F::unit();
    for item in items {
        all = F::join(all, *item);
    }
    all
}
