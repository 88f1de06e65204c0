//! The public readers: the longest literal at a place, and the place behind it.
ghost use Rattle.std.specs.Prelude.{◌≤◌, ℕ, List, length, drop, IfErr, IfOk};
ghost use Rattle.df_format.specs.Grammar.{Stands};
ghost use Rattle.df_frozen.specs.Plain.{Plain};
ghost use Rattle.df_label.specs.declared.label.Label.{Label};
ghost use Rattle.df_label.specs.declared.privilege.Privilege.{Privilege};
ghost use Rattle.df_value_text.specs.code.Answer.{IsFound, IsRead, IsSyntaxAt, NamesBad, NamesBadOrLow};
ghost use Rattle.df_value_text.specs.Fits.{IsLabel, IsPrivilege, IsTag, IsValue};
ghost use Rattle.df_value_text.specs.Label.{label_text, privilege_text, tag_text};
ghost use Rattle.df_value_text.specs.Order.{IsLowTag, LowInLabel};
ghost use Rattle.df_value_text.specs.OrderNames.{LowInValue};
ghost use Rattle.df_value_text.specs.Value.{value_text};
ghost use Rattle.df_value_text.specs.ValueFault.{FirstTooLarge, IsTooLargeAt, IsWithinBefore, NamesTooLarge, NamesValueFault, NoLowBefore};

use crate::TextRefused;
use crate::label_reader::{label_at, privilege_at};
use crate::limits::frozen_at;
use crate::refused::told;
use crate::tag_reader::tag_at;
use df_frozen::Frozen;
use df_label::{Label, Privilege, Tag};
use std::alloc::Global;

/// The longest tag at the place, and the place behind it.
pub fn read_tag(alloc: Global, bytes: &[u8], at: usize) -> Result<(Tag, usize), TextRefused>
    requires { at ≤ length bytes.now }
    ensures found { IfOk result (IsFound tag_text IsTag bytes.now at) }
    ensures only { (tag rest : List ℕ) → Stands tag_text IsTag (drop at bytes.now) tag rest →
        IsRead bytes.now tag rest result }
    ensures syntax { IfErr result (NamesBad tag_text IsTag bytes.now at) }
{
    told(tag_at(alloc, bytes, at))
}

/// The label at the place, and the place behind it.
pub fn read_label(alloc: Global, bytes: &[u8], at: usize) -> Result<(Label, usize), TextRefused>
    requires { at ≤ length bytes.now }
    ensures found { IfOk result (IsFound label_text IsLabel bytes.now at) }
    ensures only { (label : Label) (rest : List ℕ) →
        Stands label_text IsLabel (drop at bytes.now) label rest →
        IsRead bytes.now label rest result }
    ensures syntax { IfErr result (NamesBadOrLow IsLowTag label_text IsLabel bytes.now at) }
    ensures order { (rest : List ℕ) → LowInLabel (drop at bytes.now) rest →
        IsSyntaxAt bytes.now rest result }
{
    told(label_at(alloc, bytes, at))
}

/// The longest privilege at the place, and the place behind it.
pub fn read_privilege(
    alloc: Global,
    bytes: &[u8],
    at: usize,
) -> Result<(Privilege, usize), TextRefused>
    requires { at ≤ length bytes.now }
    ensures found { IfOk result (IsFound privilege_text IsPrivilege bytes.now at) }
    ensures only { (privilege : Privilege) (rest : List ℕ) →
        Stands privilege_text IsPrivilege (drop at bytes.now) privilege rest →
        IsRead bytes.now privilege rest result }
    ensures syntax { IfErr result (NamesBad privilege_text IsPrivilege bytes.now at) }
{
    told(privilege_at(alloc, bytes, at))
}

/// The longest value at the place, frozen, and the place behind it.
pub fn read_value(alloc: Global, bytes: &[u8], at: usize) -> Result<(Frozen, usize), TextRefused>
    requires { at ≤ length bytes.now }
    ensures found { IfOk result (IsFound value_text IsValue bytes.now at) }
    ensures only { (value : Plain) (rest : List ℕ) →
        Stands value_text IsValue (drop at bytes.now) value rest →
        IsRead bytes.now value rest result }
    ensures syntax { IfErr result (NamesValueFault bytes.now at) }
    ensures order { (rest : List ℕ) → LowInValue (drop at bytes.now) rest →
        IsWithinBefore (drop at bytes.now) rest → IsSyntaxAt bytes.now rest result }
    ensures too_large { IfErr result (NamesTooLarge bytes.now at) }
    ensures over { (rest : List ℕ) → FirstTooLarge (drop at bytes.now) rest →
        NoLowBefore (drop at bytes.now) rest → IsTooLargeAt bytes.now rest result }
{
    frozen_at(alloc, bytes, at)
}
