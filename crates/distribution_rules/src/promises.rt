//! Laws of distributions.

ghost use Rattle.mappings.specs.declared.mapping.Mapping.{Mapping};
ghost use Rattle.distribution_rules.specs.declared.evaluated_formats.DistributionValues.{DistributionValues};
ghost use Rattle.distribution_rules.specs.declared.objects.Object.{Object};
ghost use Rattle.distribution_rules.specs.MappingOf.{GivesMapping};
ghost use Rattle.distribution_rules.specs.Setting.{Setting};

/// Where neither a distribution nor its object breaks a rule, the mapping that the object is given is valid, onto all nodes, and has every
/// subscript of a distributed dimension among the positions of its line (HPF 2.0, 3.3).
pub fn distributed_maps()
    ensures { (s : Setting) (v : DistributionValues) (o : Object) (m : Mapping) → GivesMapping s v o m }
{}
