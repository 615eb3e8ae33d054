//! Upper case.

ghost use Rattle.std.specs.Prelude.{◌≡◌, IfOk};
ghost use Rattle.token_scan.specs.Tokens.{upper};

use std::alloc::{AllocError, Global};

/// The bytes in upper case.
pub(crate) fn upper_case(alloc: Global, bytes: &[u8]) -> Result<Vec<u8>, AllocError>
    ensures { IfOk result (λ v. v.items ≡ upper bytes.now) }
{
    bytes.iter().map(|b| b.to_ascii_uppercase()).collect(alloc)
}
