//! Names of legs and products.
ghost use Rattle.std.specs.Prelude.{◌≡◌, ◌<◌, ◌≤◌, ◌-◌, ◌++◌, length, replicate, slice_index, take, IsTrue, MatchOption, true, false};
ghost use Rattle.std.specs.Int.{IsInRange};
ghost use Rattle.nrm_text.specs.Names.{is_name, is_name_byte, name_before, name_in};
ghost use Rattle.std.specs.List.{list_all};

use crate::limits::MOST_NAME_BYTES;
use std::hash::{Hash, Hasher};
use std::marker::Model;

/// The name of a leg or a product: 1 to 12 bytes out of `A` to `Z`, `0` to `9` and `-`.
#[derive(Clone, Copy, Debug)]
pub struct Name {
    bytes: [u8; MOST_NAME_BYTES],
    len: u8,
}

impl Model for Name {
    ghost use Rattle.std.specs.Prelude.{ℕ, List, ◌≡◌, ◌-◌, ◌≤◌, ◌++◌, take, drop, length, replicate, IsTrue};
    ghost use Rattle.nrm_text.specs.Names.{is_name};
    ghost use Rattle.nrm_text.specs.declared.limits.TheConstants.{MOST_NAME_BYTES};

    ghost Value = { List ℕ };

    ghost view = { λ n. take n.len n.bytes };

    ghost invariant = { λ n. (length n.bytes ≡ MOST_NAME_BYTES) × (n.len ≤ MOST_NAME_BYTES)
        × (drop n.len n.bytes ≡ replicate (MOST_NAME_BYTES - n.len) 0) × IsTrue (is_name (take n.len n.bytes)) };

    ghost inverse = { λ name. record { bytes = name ++ replicate (MOST_NAME_BYTES - length name) 0; len = length name } };

    ghost use Rattle.nrm_text.specs.NameBytes.{same_bytes};

    ghost inverse_ok = { λ n kept. same_bytes n kept };
}

impl Name {
    /// The bytes of the name: 1 to 12 of them.
    pub fn bytes(&self) -> &[u8]
        ensures bytes { result.now ≡ self.now }
        ensures name { IsTrue (is_name self.now) }
        ensures length { IsInRange 1 MOST_NAME_BYTES (length self.now) }
    {
        let len = self.len as usize;
        &self.bytes[..len]
    }

    // The bytes of the name with zeros behind them.
    pub(crate) fn padded(&self) -> &[u8; MOST_NAME_BYTES]
        ensures padded { result.now ≡ self.now ++ replicate (MOST_NAME_BYTES - length self.now) 0 }
        ensures length { length result.now ≡ MOST_NAME_BYTES }
        ensures within { length self.now ≤ MOST_NAME_BYTES }
    {
        &self.bytes
    }

    // How many bytes the name has.
    pub(crate) fn len(&self) -> usize
        ensures { result ≡ length self.now }
    {
        self.len as usize
    }
}

impl PartialEq for Name {
    ghost use Rattle.std.specs.Prelude.{bytes_eq};
    ghost use Rattle.std.proofs.Common.{rules};
    ghost use Rattle.std.specs.Cmp.Rules.{comparing};

    ghost eq = { bytes_eq };

    ghost laws = { Prim.search (comparing, rules) };

    fn eq(&self, other: &Name) -> bool {
        self.len == other.len && self.bytes == other.bytes
    }
}

impl Eq for Name {
    ghost use Rattle.std.proofs.Common.{rules};
    ghost use Rattle.std.specs.Cmp.Rules.{comparing};

    ghost laws = { Prim.search (comparing, rules) };
}

impl Hash for Name {
    ghost use Rattle.std.proofs.Common.{rules};
    ghost use Rattle.std.specs.Prelude.{◌∷◌, ◌++◌, ◌-◌, [], length, replicate};
    ghost use Rattle.nrm_text.specs.declared.limits.TheConstants.{MOST_NAME_BYTES};
    ghost use Rattle.std.specs.Cmp.Rules.{hashing};

    // The bytes with the zeros behind them.
    ghost hash_input = { λ name. (name ++ replicate (MOST_NAME_BYTES - length name) 0) ∷ [] };

    ghost respects_eq = { Prim.search (hashing, rules) };

    fn hash<H: Hasher>(&self, state: &mut H) {
        state.write(&self.bytes);
    }
}

// Each byte that may stand in a name, at its own place. At the other places is `-`, which is none of their bytes.
static NAME_BYTES: [u8; 256] = *b"------------------------------------------------0123456789------\
    -ABCDEFGHIJKLMNOPQRSTUVWXYZ-------------------------------------\
    ----------------------------------------------------------------\
    ----------------------------------------------------------------";

// Whether a byte may stand in a name.
fn may_stand(c: u8) -> bool
    ensures { result ≡ is_name_byte c }
{
    NAME_BYTES[c as usize] == c
}

// The bytes at the front that may stand in a name, up to twelve of them, with zeros behind them, and how many they are.
#[inline(always)]
fn front_of(bytes: &[u8]) -> ([u8; MOST_NAME_BYTES], usize)
    ensures few { result.1 ≤ MOST_NAME_BYTES }
    ensures within { result.1 ≤ length bytes.now }
    ensures may_stand { list_all is_name_byte (take result.1 bytes.now) ≡ true }
    ensures stops { result.1 < MOST_NAME_BYTES → result.1 < length bytes.now → is_name_byte (slice_index bytes.now result.1) ≡ false }
    ensures padded { result.0 ≡ take result.1 bytes.now ++ replicate (MOST_NAME_BYTES - result.1) 0 }
{
    let most = bytes.len().min(MOST_NAME_BYTES);
    let mut kept = [0; MOST_NAME_BYTES];
    let mut len = 0;
    while len < most && may_stand(bytes[len]) {
        kept[len] = bytes[len];
        len += 1;
    }
    (kept, len)
}

/// The name that these bytes are, if they are one.
pub fn name_of(bytes: &[u8]) -> Option<Name>
    ensures { result ≡ name_in bytes.now }
{
    let (kept, len) = front_of(bytes);
    if len == 0 || len < bytes.len() {
        return None;
    }
    Some(Name {
        bytes: kept,
        len: len as u8,
    })
}

/// The name before the first byte of a kind that stands in no name, and the bytes after that byte, if there is such a byte and a
/// name before it.
pub fn name_before(bytes: &[u8], end: u8) -> Option<(Name, &[u8])>
    requires { is_name_byte end ≡ false }
    ensures { MatchOption result (name_before end bytes.now ≡ None) (λ cut. name_before end bytes.now ≡ Some (cut.0, cut.1.now)) }
{
    let (kept, len) = front_of(bytes);
    if len == 0 || len == bytes.len() || bytes[len] != end {
        return None;
    }
    let name = Name {
        bytes: kept,
        len: len as u8,
    };
    Some((name, &bytes[len + 1..]))
}
