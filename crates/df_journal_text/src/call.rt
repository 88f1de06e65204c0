ghost use Rattle.std.specs.Prelude.{◌≡◌, ◌∷◌, [], ◌++◌, OnOk, codes, decimal};
ghost use Rattle.df_value_text.specs.Label.{label_text, tag_text, tags_text};
ghost use Rattle.df_filter_text.specs.Filter.{filter_text};
ghost use Rattle.df_journal_text.specs.Call.{act_text, call_words, half_text};
ghost use Rattle.df_journal_text.specs.Line.{spaced};

use crate::line::{
    append_label_word, append_name_word, append_number_word, append_privilege_word,
    append_privilege_words, append_tag_word, append_value_word, append_word,
};
use df_filter::Filter;
use df_filter_text::append_filter;
use df_frozen::Name;
use df_label::{Label, Tag, TagSet};
use df_memory::NoMemory;
use df_priv::{Act, Half};
use df_unit::Call;
use df_value_text::append_tags;

/// Appends the words of a call.
pub fn append_call(call: &Call, to: &mut Vec<u8>) -> Result<(), NoMemory>
    ensures { OnOk result (to.new.items ≡ to.old.items ++ spaced (call_words call.now)) }
{
    match call {
        Call::CreateEvent => append_word(b"create", to),
        Call::AddPart {
            h,
            label,
            name,
            value,
        } => {
            append_spot(b"add", *h, label, name, to)?;
            append_value_word(value, to)?;
            Ok(())
        }
        Call::DelPart { h, label, name } => append_spot(b"del", *h, label, name, to),
        Call::ReadPart { h, name } => {
            append_at(b"read", *h, to)?;
            append_name_word(name, to)?;
            Ok(())
        }
        Call::CloneEvent { h, label } => {
            append_at(b"clone", *h, to)?;
            append_label_word(label, to)?;
            Ok(())
        }
        Call::AttachPrivilege { h, label, name, p } => {
            append_spot(b"attach", *h, label, name, to)?;
            append_privilege_word(p, to)?;
            Ok(())
        }
        Call::ChangeOutLabel { half, act, tag } => append_change(b"out", *half, *act, tag, to),
        Call::CreateTag => append_word(b"tag", to),
        Call::DropEvent { h } => append_at(b"drop", *h, to),
        Call::Subscribe { filter } => append_subscription(b"sub", filter, to),
        Call::SubscribeManaged { filter } => append_subscription(b"msub", filter, to),
        Call::Get => append_word(b"get", to),
        Call::Publish { h } => append_at(b"publish", *h, to),
        Call::Release { h } => append_at(b"release", *h, to),
        Call::ChangeInOut { half, act, tag } => append_change(b"inout", *half, *act, tag, to),
        Call::Instantiate { s, privileges } => {
            append_spawn(s, to)?;
            append_privilege_words(privileges.as_slice(), to)?;
            Ok(())
        }
    }
}

/// Appends a keyword and a handle.
fn append_at(keyword: &[u8], h: u32, to: &mut Vec<u8>) -> Result<(), NoMemory>
    ensures { OnOk result (to.new.items ≡ to.old.items ++ spaced (keyword.now ∷ decimal h ∷ [])) }
{
    append_word(keyword, to)?;
    append_number_word(u64::from(h), to)?;
    Ok(())
}

/// Appends a keyword, a handle, a label and a name.
fn append_spot(
    keyword: &[u8],
    h: u32,
    label: &Label,
    name: &Name,
    to: &mut Vec<u8>,
) -> Result<(), NoMemory>
    ensures { OnOk result (to.new.items ≡ to.old.items
        ++ spaced (keyword.now ∷ decimal h ∷ label_text label.now ∷ name.now ∷ [])) }
{
    append_at(keyword, h, to)?;
    append_label_word(label, to)?;
    append_name_word(name, to)?;
    Ok(())
}

/// Appends a keyword, a half of a label, what is done there, and a tag.
fn append_change(
    keyword: &[u8],
    half: Half,
    act: Act,
    tag: &Tag,
    to: &mut Vec<u8>,
) -> Result<(), NoMemory>
    ensures { OnOk result (to.new.items ≡ to.old.items
        ++ spaced (keyword.now ∷ half_text half ∷ act_text act ∷ tag_text tag.now ∷ [])) }
{
    append_word(keyword, to)?;
    append_word(half_word(half), to)?;
    append_word(act_word(act), to)?;
    append_tag_word(tag, to)?;
    Ok(())
}

fn half_word(half: Half) -> &'static [u8]
    ensures { result.now ≡ half_text half }
{
    match half {
        Half::S => b"S",
        Half::I => b"I",
    }
}

fn act_word(act: Act) -> &'static [u8]
    ensures { result.now ≡ act_text act }
{
    match act {
        Act::Add => b"add",
        Act::Del => b"del",
    }
}

/// Appends a keyword and a filter.
fn append_subscription(keyword: &[u8], filter: &Filter, to: &mut Vec<u8>) -> Result<(), NoMemory>
    ensures { OnOk result (to.new.items ≡ to.old.items
        ++ spaced (keyword.now ∷ filter_text filter.now ∷ [])) }
{
    append_word(keyword, to)?;
    to.push(b' ')?;
    append_filter(filter, to)?;
    Ok(())
}

/// Appends `spawn` and a set of tags in braces.
fn append_spawn(s: &TagSet, to: &mut Vec<u8>) -> Result<(), NoMemory>
    ensures { OnOk result (to.new.items ≡ to.old.items
        ++ spaced (codes "spawn" ∷ (codes "{" ++ tags_text s.now ++ codes "}") ∷ [])) }
{
    append_word(b"spawn", to)?;
    to.extend_from_slice(b" {")?;
    append_tags(s, to)?;
    to.push(b'}')?;
    Ok(())
}
