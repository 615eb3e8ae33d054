//! Lists in the order of codes.

ghost use Rattle.std.specs.Prelude.{◌≡◌, slice_get};

/// What stands for a code.
pub(crate) fn at_code<T: Copy>(list: &[T], code: u16) -> Option<T>
    ensures { result ≡ slice_get list.now code }
{
    list.get(usize::from(code)).copied()
}
