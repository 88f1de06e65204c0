ghost use Rattle.std.specs.Prelude.{◌≡◌, ◌∷◌, [], ◌++◌, OnOk, decimal};
ghost use Rattle.df_value_text.specs.Label.{label_text};
ghost use Rattle.df_journal_text.specs.Line.{spaced};
ghost use Rattle.df_journal_text.specs.Reply.{reply_words};

use crate::line::{
    append_label_word, append_number_word, append_privilege_word, append_tag_word, append_word,
};
use df_label::Label;
use df_memory::NoMemory;
use df_unit::Reply;

/// Appends the words of a reply.
pub fn append_reply(reply: &Reply, to: &mut Vec<u8>) -> Result<(), NoMemory>
    ensures { OnOk result (to.new.items ≡ to.old.items ++ spaced (reply_words reply.now)) }
{
    match reply {
        Reply::Ok => append_word(b"ok", to),
        Reply::Handle(h) => append_numbered(b"handle", u64::from(*h), to),
        Reply::Tag(tag) => {
            append_word(b"tag", to)?;
            append_tag_word(tag, to)?;
            Ok(())
        }
        Reply::Sub(n) => append_numbered(b"sub", u64::from(*n), to),
        Reply::Unit(n) => append_numbered(b"unit", u64::from(*n), to),
        Reply::Event { h, sub } => {
            append_numbered(b"event", u64::from(*h), to)?;
            append_number_word(u64::from(*sub), to)?;
            Ok(())
        }
        Reply::Parts(_) => append_word(b"parts", to),
        Reply::Nothing => append_word(b"nothing", to),
        Reply::NoSuchUnit => append_word(b"no unit", to),
        Reply::NoSuchHandle => append_word(b"no handle", to),
        Reply::NoSuchPart => append_word(b"no part", to),
        Reply::NotDraft => append_word(b"not draft", to),
        Reply::NotReceived => append_word(b"not received", to),
        Reply::EmptyEvent => append_word(b"empty event", to),
        Reply::NotInManaged => append_word(b"not in managed", to),
        Reply::TooManyHandles => append_word(b"too many handles", to),
        Reply::TooManyParts { wanted } => append_numbered(b"too many parts", *wanted, to),
        Reply::TooManySubs => append_word(b"too many subs", to),
        Reply::TooManyUnits => append_word(b"too many units", to),
        Reply::TooDeep => append_word(b"too deep", to),
        Reply::Exhausted => append_word(b"exhausted", to),
        Reply::Lacks(p) => {
            append_word(b"lacks", to)?;
            append_privilege_word(p, to)?;
            Ok(())
        }
        Reply::CannotWrite { out, part } => append_labels(b"cannot write", out, part, to),
    }
}

/// Appends a keyword and a number.
fn append_numbered(keyword: &[u8], number: u64, to: &mut Vec<u8>) -> Result<(), NoMemory>
    ensures { OnOk result (to.new.items ≡ to.old.items
        ++ spaced (keyword.now ∷ decimal number ∷ [])) }
{
    append_word(keyword, to)?;
    append_number_word(number, to)?;
    Ok(())
}

/// Appends a keyword and two labels.
fn append_labels(
    keyword: &[u8],
    first: &Label,
    second: &Label,
    to: &mut Vec<u8>,
) -> Result<(), NoMemory>
    ensures { OnOk result (to.new.items ≡ to.old.items
        ++ spaced (keyword.now ∷ label_text first.now ∷ label_text second.now ∷ [])) }
{
    append_word(keyword, to)?;
    append_label_word(first, to)?;
    append_label_word(second, to)?;
    Ok(())
}
