//! Laws of alignment.

ghost use Rattle.std.specs.Prelude.{◌≡◌, ℕ, ℤ, List, map, Option};
ghost use Rattle.mappings.specs.Alignment.{aligned, composed, owns_at};
ghost use Rattle.mappings.specs.declared.mapping.AlignDim.{AlignDim};
ghost use Rattle.mappings.specs.declared.mapping.Mapping.{Mapping};

/// To compose and then to own is to own through both: a node owns an element of the alignee, by the composed mapping,
/// exactly where it owns, by the target's mapping, what the element is aligned with. A subscript that is `*` stays
/// one (HPF 2.0, ALIGN).
pub fn composed_owners()
    ensures { (target : Mapping) (align : List AlignDim) (subscripts : List (Option ℤ)) (node : ℕ)
        → owns_at (composed target align) subscripts node ≡ owns_at target (map (λ entry. aligned entry subscripts) align) node }
{}
