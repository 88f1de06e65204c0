//! Names of parts and of a map's entries.

ghost use Rattle.std.specs.Prelude.{◌≡◌, Ok, Err, Some, List, ℕ, if◌then◌else◌, nat_eq, refl, true};
ghost use Rattle.std.specs.Ordering.{nat_cmp};
ghost use Rattle.std.specs.Cmp.{partial_equiv_from_equiv};
ghost use Rattle.std.specs.Cmp.Lexicographic.{pointwise, slice_cmp, nat_list_eq_equiv, nat_list_cmp_total, texts_po, texts_ties};
ghost use Rattle.std.specs.Cmp.Rules.{hashing};
ghost use Rattle.std.specs.List.{list_all};
ghost use Rattle.std.specs.Hash as fed;
ghost use Rattle.std.proofs.Common.{rules};
ghost use Rattle.df_frozen.specs.Name.{is_name, is_name_byte, is_letter};
ghost use Rattle.df_frozen.specs.code.NameBytes.{head_of};

use std::cmp::Ordering;
use std::error::Error;
use std::hash::{Hash, Hasher};
use std::marker::Model;
use std::{fmt, str};

/// How many bytes a name has at most.
pub const LONGEST_NAME: usize = 32;

/// A name of 1 to 32 bytes: a letter a to z, and then letters a to z, digits and `_`.
#[derive(Clone, Copy)]
pub struct Name {
    bytes: [u8; LONGEST_NAME],
    len: u8,
}

impl Model for Name {
    ghost use Rattle.std.specs.Prelude.{ℕ, List, take, length};
    ghost use Rattle.df_frozen.specs.code.NameBytes.{IsKept, padded, padded-take, length-take_kept};

    ghost Value = { List ℕ };

    ghost view = { λ n. take n.len n.bytes };

    ghost invariant = { λ n. IsKept n.bytes n.len };

    ghost inverse = { λ v. record { bytes = padded v; len = length v } };

    ghost inverse_ok = { λ n h i. record {
      bytes = padded-take n.bytes n.len h i;
      len = length-take_kept n.bytes n.len h i;
    } };
}

/// Why a text is not made a name.
#[derive(Clone, Copy, Debug, PartialEq, Eq)]
pub enum NameRefused {
    BadName,
    NoMemory,
}

impl fmt::Display for NameRefused {
    fn fmt<W: fmt::Write>(&self, f: &mut fmt::Formatter<W>) -> fmt::Result {
        f.write_str(match self {
            NameRefused::BadName => "not a name",
            NameRefused::NoMemory => "out of memory",
        })
    }
}

impl Error for NameRefused {}

impl Name {
    /// The text as a name. Takes no memory.
    pub fn new(text: &str) -> Result<Name, NameRefused>
        ensures { result ≡ (if is_name text.now then Ok text.now else Err NameRefused.BadName) }
    {
        let text = text.as_bytes();
        if is_name(text) {
            Ok(padded(text))
        } else {
            Err(NameRefused::BadName)
        }
    }

    // Its first eight bytes, with zeros after its own, as one number.
    fn head(&self) -> u64
        ensures value { result ≡ head_of self.now }
        ensures name { is_name self.now ≡ true }
    {
        let bytes = &self.bytes;
        u64::from_be_bytes([
            bytes[0], bytes[1], bytes[2], bytes[3], bytes[4], bytes[5], bytes[6], bytes[7],
        ])
    }

    pub fn as_bytes(&self) -> &[u8]
        ensures value { result.now ≡ self.now }
        ensures name { is_name self.now ≡ true }
    {
        &self.bytes[..self.len as usize]
    }

    pub fn as_str(&self) -> &str
        ensures value { result.now ≡ self.now }
        ensures name { is_name self.now ≡ true }
    {
        unsafe { str::from_utf8_unchecked(self.as_bytes()) }
    }
}

/// Whether this is a letter a to z.
pub fn is_letter(b: u8) -> bool
    ensures { result ≡ is_letter b }
{
    b.is_ascii_lowercase()
}

/// Whether this is a letter a to z, a digit or `_`.
pub fn is_name_byte(b: u8) -> bool
    ensures { result ≡ is_name_byte b }
{
    is_letter(b) || b.is_ascii_digit() || b == b'_'
}

fn is_name(text: &[u8]) -> bool
    ensures { result ≡ is_name text.now }
{
    match text.split_first() {
        None => false,
        Some((first, rest)) => {
            is_letter(*first) && rest.len() < LONGEST_NAME && are_name_bytes(rest)
        }
    }
}

fn are_name_bytes(bytes: &[u8]) -> bool
    ensures { result ≡ list_all is_name_byte bytes.now }
{
    bytes.iter().all(|b| is_name_byte(*b))
}

// The name with zeros after it.
fn padded(text: &[u8]) -> Name
    requires { is_name text.now ≡ true }
    ensures { result ≡ text.now }
{
    let mut bytes = [0; LONGEST_NAME];
    let len = text.len();
    bytes[..len].copy_from_slice(text);
    Name {
        bytes,
        len: len as u8,
    }
}

impl fmt::Display for Name {
    fn fmt<W: fmt::Write>(&self, f: &mut fmt::Formatter<W>) -> fmt::Result {
        f.write_str(self.as_str())
    }
}

impl fmt::Debug for Name {
    fn fmt<W: fmt::Write>(&self, f: &mut fmt::Formatter<W>) -> fmt::Result {
        fmt::Debug::fmt(self.as_str(), f)
    }
}

impl PartialEq for Name {
    ghost eq = { pointwise nat_eq };

    ghost laws = { partial_equiv_from_equiv nat_list_eq_equiv };

    fn eq(&self, other: &Name) -> bool {
        if self.head() != other.head() || self.len != other.len {
            return false;
        }
        self.len <= 8 || self.as_bytes() == other.as_bytes()
    }
}

impl Eq for Name {
    ghost laws = { nat_list_eq_equiv };
}

impl PartialOrd for Name {
    ghost partial_cmp = { λ a b. Some (slice_cmp nat_cmp a b) };

    ghost laws = { texts_po };

    fn partial_cmp(&self, other: &Name) -> Option<Ordering> {
        Some(self.cmp(other))
    }
}

impl Ord for Name {
    ghost cmp = { slice_cmp nat_cmp };

    ghost total = { nat_list_cmp_total };

    ghost matches_partial_cmp = { λ a b. refl };

    ghost matches_eq = { texts_ties };

    fn cmp(&self, other: &Name) -> Ordering {
        match self.head().cmp(&other.head()) {
            Ordering::Equal if self == other => Ordering::Equal,
            Ordering::Equal => self.as_bytes().cmp(&other.as_bytes()),
            order => order,
        }
    }
}

impl Hash for Name {
    ghost hash_input = { λ a. fed.str a };

    ghost respects_eq = { Prim.search (hashing, rules) };

    fn hash<H: Hasher>(&self, state: &mut H) {
        self.as_str().hash(state);
    }
}
