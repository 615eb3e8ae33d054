//! What a node owns of what a reference names.

ghost use Rattle.std.specs.Prelude.{◌≡◌, length};
ghost use Rattle.course_forms.specs.Views.{named_of};

use course_forms::Reference;
use owned_places::Holding;

/// What a node owns of what a reference names.
#[derive(Clone, Copy)]
pub(crate) struct Owning<'a> {
    pub(crate) holding: &'a Holding<'a>,
    pub(crate) reference: &'a Reference,
    ghost rank: { length (named_of reference.now).courses ≡ length (named_of reference.now).dims },
}
