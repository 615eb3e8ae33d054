//! A node and a reference, of whose elements the node may own some.

ghost use Rattle.std.specs.Prelude.{◌≡◌, ◌<◌, length};
ghost use Rattle.hpf_base.specs.ElementOrder.{product};
ghost use Rattle.owned_places.specs.Dims.{LieInside};
ghost use Rattle.owned_places.specs.HeldProps.{lie-prop};

use course_forms::Course;
use expression_rules::Dim;
use mappings::Mapping;

/// A node and a reference, where all that is the same at each tuple tells that the node can own what is named.
#[derive(Drop)]
pub struct Holding<'a> {
    pub(crate) dims: &'a [Dim],
    pub(crate) mapping: &'a Mapping,
    pub(crate) node: u32,
    pub(crate) courses: &'a [Course],
    ghost lie: { LieInside dims.now mapping.now } by { lie-prop dims.now mapping.now },
    ghost inside: { node < product mapping.now.grid },
    ghost rank: { length courses.now ≡ length dims.now },
}
