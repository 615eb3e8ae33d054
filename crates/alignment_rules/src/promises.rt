//! Laws of alignments that break no rule (HPF 2.0, 3.4).

ghost use Rattle.std.specs.Prelude.{◌≡◌, ℤ, [], List, length};
ghost use Rattle.mappings.specs.declared.mapping.AlignDim.{AlignDim};
ghost use Rattle.syntax_tree.specs.Directive.{Alignment};
ghost use Rattle.expression_rules.specs.Symbols.{Name};
ghost use Rattle.distribution_rules.specs.Setting.{Setting, dims_of};
ghost use Rattle.alignment_rules.specs.declared.alignment_values.Alignment.TheVariants.{Known};
ghost use Rattle.alignment_rules.specs.AlignedEntries.{AreAligned, AreSubscripts, MapsInto};
ghost use Rattle.alignment_rules.specs.AlignmentEntries.{alignment_of};
ghost use Rattle.alignment_rules.specs.AlignmentRules.{alignee_reasons, alignment_reasons};

/// The alignment of an object by an ALIGN that breaks no rule has an entry for each dimension of the target; each moves along a dimension of
/// the object, if any, and no two move along one; and every element maps inside the target's bounds.
pub fn aligned_entries()
    ensures aligned { (s : Setting) (a : Alignment) (x : Name) (es : List AlignDim) → alignment_reasons s a ≡ [] → alignee_reasons s a x ≡ [] → alignment_of s a x ≡ Known es
        → AreAligned (length (dims_of s x)) (dims_of s a.target) es }
    ensures inside { (s : Setting) (a : Alignment) (x : Name) (es : List AlignDim) (index : List ℤ) → alignee_reasons s a x ≡ [] → alignment_of s a x ≡ Known es
        → AreSubscripts (dims_of s x) index → MapsInto (dims_of s a.target) es index }
{}
