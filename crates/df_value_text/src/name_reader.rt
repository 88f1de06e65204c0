//! Reading names.
ghost use Rattle.std.specs.Prelude.{◌≡◌, ◌≤◌, ◌<◌, ◌+◌, ◌-◌, length, drop, true, IfOk};
ghost use Rattle.df_frozen.specs.Limits.{longest_name};
ghost use Rattle.df_frozen.specs.Name.{is_name};
ghost use Rattle.df_value_text.specs.code.Answer.{Gives};
ghost use Rattle.df_value_text.specs.ReadName.{name_at, name_bytes};

use crate::Fault;
use df_frozen::{LONGEST_NAME, Name, is_letter, is_name_byte};
use std::str;

/// The place behind the further bytes of a name, of which there is room for all but one.
fn name_end(bytes: &[u8], at: usize) -> usize
    requires { at ≤ length bytes.now }
    ensures place { result ≤ length bytes.now }
    ensures value { result ≡ at + name_bytes (longest_name - 1) (drop at bytes.now) }
{
    let mut count = 0;
    while count < LONGEST_NAME - 1 && at + count < bytes.len() && is_name_byte(bytes[at + count]) {
        count += 1;
    }
    at + count
}

/// These bytes as a name.
fn name_of(text: &[u8]) -> Name
    requires { is_name text.now ≡ true }
    ensures { result ≡ text.now }
{
    match Name::new(unsafe { str::from_utf8_unchecked(text) }) {
        Ok(name) => name,
        Err(_) => unreachable!(),
    }
}

/// The longest name at the place, and the place behind it.
#[tactic(auto, using(crate::proofs::WordsSteps::name_is))]
pub fn name_at(bytes: &[u8], at: usize) -> Result<(Name, usize), Fault>
    requires { at ≤ length bytes.now }
    ensures exact { Gives (λ n. n) bytes.now result (name_at (drop at bytes.now)) }
    ensures onward { IfOk result (λ r. at < r.1) }
{
    if at == bytes.len() || !is_letter(bytes[at]) {
        return Err(Fault::Bad(at));
    }
    let end = name_end(bytes, at + 1);
    Ok((name_of(&bytes[at..end]), end))
}
