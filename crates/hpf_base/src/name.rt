//! Names of a program's things.

ghost use Rattle.std.specs.Prelude.{◌≡◌, ◌↔◌, nat_eq, IsSome, IfSome, IsTrue};
ghost use Rattle.std.specs.List.{list_all};
ghost use Rattle.std.specs.Cmp.{partial_equiv_from_equiv};
ghost use Rattle.std.specs.Cmp.Lexicographic.{pointwise, nat_list_eq_equiv};
ghost use Rattle.std.proofs.Common.{rules};
ghost use Rattle.std.specs.Cmp.Rules.{hashing};
ghost use Rattle.std.specs.Hash as fed;
ghost use Rattle.hpf_base.specs.Name.{IsName, is_name_byte};

use std::hash::{Hash, Hasher};
use std::marker::Model;

/// The most bytes that a name has room for.
pub const NAME_CAPACITY: usize = 31;

/// A name in upper case. Contracts see the list of its bytes: 1 to 31 of `A` to `Z`, `0` to `9` and `_`.
#[derive(Clone, Copy)]
pub struct Name {
    bytes: [u8; NAME_CAPACITY],
    len: u8,
}

impl Model for Name {
    ghost use Rattle.std.specs.Prelude.{List, ℕ};

    ghost Value = { List ℕ };

    ghost use Rattle.hpf_base.specs.Name.{held, holding, holding-held, IsHeld};

    ghost view = { held };

    ghost invariant = { IsHeld };

    ghost inverse = { holding };

    ghost inverse_ok = { holding-held };
}

impl Name {
    /// The name of these bytes; None exactly where they aren't 1 to 31 of `A` to `Z`, `0` to `9` and `_`. It takes
    /// no memory.
    pub fn new(bytes: &[u8]) -> Option<Name>
        ensures some { IsSome result ↔ IsName bytes.now }
        ensures value { IfSome result (λ name. name ≡ bytes.now) }
    {
        if bytes.is_empty() || bytes.len() > NAME_CAPACITY || !are_name_bytes(bytes) {
            return None;
        }
        let mut held = [0; NAME_CAPACITY];
        held[..bytes.len()].copy_from_slice(bytes);
        Some(Name {
            bytes: held,
            len: bytes.len() as u8,
        })
    }

    /// The bytes, in order. It takes no memory.
    pub fn bytes(&self) -> &[u8]
        ensures value { result.now ≡ self.now }
        ensures valid { IsName self.now }
    {
        &self.bytes[..self.len as usize]
    }
}

impl PartialEq for Name {
    ghost eq = { pointwise nat_eq };

    ghost laws = { partial_equiv_from_equiv nat_list_eq_equiv };

    fn eq(&self, other: &Name) -> bool {
        self.bytes() == other.bytes()
    }
}

impl Eq for Name {
    ghost laws = { nat_list_eq_equiv };
}

impl Hash for Name {
    ghost hash_input = { λ a. fed.slice fed.u8 a };

    ghost respects_eq = { Prim.search (hashing, rules) };

    fn hash<H: Hasher>(&self, state: &mut H) {
        self.bytes().hash(state);
    }
}

/// Whether each byte may stand in a name.
fn are_name_bytes(bytes: &[u8]) -> bool
    ensures { result ≡ list_all is_name_byte bytes.now }
{
    bytes.iter().all(|b| b.is_ascii_uppercase() || b.is_ascii_digit() || *b == b'_')
}
