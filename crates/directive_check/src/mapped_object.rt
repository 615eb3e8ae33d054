//! Objects of DISTRIBUTE and ALIGN (HPF 2.0, 3.3 and 3.4).

use hpf_base::Name;
use syntax_tree::Directive;

/// An object of a DISTRIBUTE or an ALIGN, with the number of its line, the directive, and whether this is known to be an ALIGN that breaks a
/// rule by itself.
#[derive(Clone, Copy)]
pub(crate) struct MappedObject<'a> {
    pub(crate) line: u32,
    pub(crate) name: &'a Name,
    pub(crate) directive: &'a Directive,
    pub(crate) refused: bool,
}
