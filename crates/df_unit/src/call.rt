ghost use Rattle.std.specs.Prelude.{◌≡◌, ◌↔◌, IsTrue};

use df_filter::Filter;
use df_frozen::{Frozen, Name};
use df_label::{Label, Privilege, Privileges, Tag, TagSet};
use df_priv::{Act, Half};

/// A call of a unit. `h` is the number of one of the unit's handles.
#[derive(Drop)]
pub enum Call {
    CreateEvent,
    AddPart {
        h: u32,
        label: Label,
        name: Name,
        value: Frozen,
    },
    DelPart {
        h: u32,
        label: Label,
        name: Name,
    },
    ReadPart {
        h: u32,
        name: Name,
    },
    CloneEvent {
        h: u32,
        label: Label,
    },
    AttachPrivilege {
        h: u32,
        label: Label,
        name: Name,
        p: Privilege,
    },
    ChangeOutLabel {
        half: Half,
        act: Act,
        tag: Tag,
    },
    CreateTag,
    DropEvent {
        h: u32,
    },
    Subscribe {
        filter: Filter,
    },
    SubscribeManaged {
        filter: Filter,
    },
    Get,
    Publish {
        h: u32,
    },
    Release {
        h: u32,
    },
    ChangeInOut {
        half: Half,
        act: Act,
        tag: Tag,
    },
    Instantiate {
        s: TagSet,
        privileges: Privileges,
    },
}

impl Call {
    /// Whether the two calls are equal, values by their plain content.
    pub fn same(&self, other: &Call) -> bool
        ensures { IsTrue result ↔ (self.now ≡ other.now) }
    {
        match (self, other) {
            (Call::CreateEvent, Call::CreateEvent) => true,
            (
                Call::AddPart {
                    h,
                    name,
                    label,
                    value,
                },
                Call::AddPart {
                    h: other_h,
                    name: other_name,
                    label: other_label,
                    value: other_value,
                },
            ) => h == other_h
                && name == other_name
                && label.same(other_label)
                && value.plain_eq(other_value),
            (
                Call::DelPart { h, name, label },
                Call::DelPart {
                    h: other_h,
                    name: other_name,
                    label: other_label,
                },
            ) => h == other_h && name == other_name && label.same(other_label),
            (
                Call::ReadPart { h, name },
                Call::ReadPart {
                    h: other_h,
                    name: other_name,
                },
            ) => h == other_h && name == other_name,
            (
                Call::CloneEvent { h, label },
                Call::CloneEvent {
                    h: other_h,
                    label: other_label,
                },
            ) => h == other_h && label.same(other_label),
            (
                Call::AttachPrivilege { h, name, label, p },
                Call::AttachPrivilege {
                    h: other_h,
                    name: other_name,
                    label: other_label,
                    p: other_p,
                },
            ) => h == other_h && name == other_name && label.same(other_label) && p.same(other_p),
            (
                Call::ChangeOutLabel { half, act, tag },
                Call::ChangeOutLabel {
                    half: other_half,
                    act: other_act,
                    tag: other_tag,
                },
            ) => half == other_half && act == other_act && tag.same(other_tag),
            (Call::CreateTag, Call::CreateTag) => true,
            (Call::DropEvent { h }, Call::DropEvent { h: other_h }) => h == other_h,
            (
                Call::Subscribe { filter },
                Call::Subscribe {
                    filter: other_filter,
                },
            ) => filter.same(other_filter),
            (
                Call::SubscribeManaged { filter },
                Call::SubscribeManaged {
                    filter: other_filter,
                },
            ) => filter.same(other_filter),
            (Call::Get, Call::Get) => true,
            (Call::Publish { h }, Call::Publish { h: other_h }) => h == other_h,
            (Call::Release { h }, Call::Release { h: other_h }) => h == other_h,
            (
                Call::ChangeInOut { half, act, tag },
                Call::ChangeInOut {
                    half: other_half,
                    act: other_act,
                    tag: other_tag,
                },
            ) => half == other_half && act == other_act && tag.same(other_tag),
            (
                Call::Instantiate { s, privileges },
                Call::Instantiate {
                    s: other_s,
                    privileges: other_privileges,
                },
            ) => s.same(other_s) && privileges.same(other_privileges),
            _ => false,
        }
    }
}
