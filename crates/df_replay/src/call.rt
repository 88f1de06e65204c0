ghost use Rattle.std.specs.Prelude.{◌≡◌, IfOk};
ghost use Rattle.df_unit.specs.declared.call.Call.TheVariants.{AddPart, AttachPrivilege, Instantiate};

use df_frozen::{Frozen, Name};
use df_label::{Label, Privilege, Privileges, TagSet};
use df_memory::NoMemory;
use df_unit::Call;

/// An equal call, which shares the value of a part.
pub fn copy_call(call: &Call) -> Result<Call, NoMemory>
    ensures { IfOk result (λ c. c ≡ call.now) }
{
    match call {
        Call::CreateEvent => Ok(Call::CreateEvent),
        Call::AddPart {
            h,
            label,
            name,
            value,
        } => copy_add(*h, label, *name, value),
        Call::DelPart { h, label, name } => Ok(Call::DelPart {
            h: *h,
            label: label.copy()?,
            name: *name,
        }),
        Call::ReadPart { h, name } => Ok(Call::ReadPart { h: *h, name: *name }),
        Call::CloneEvent { h, label } => Ok(Call::CloneEvent {
            h: *h,
            label: label.copy()?,
        }),
        Call::AttachPrivilege { h, label, name, p } => copy_attach(*h, label, *name, p),
        Call::ChangeOutLabel { half, act, tag } => Ok(Call::ChangeOutLabel {
            half: *half,
            act: *act,
            tag: tag.copy()?,
        }),
        Call::CreateTag => Ok(Call::CreateTag),
        Call::DropEvent { h } => Ok(Call::DropEvent { h: *h }),
        Call::Subscribe { filter } => Ok(Call::Subscribe {
            filter: filter.copy()?,
        }),
        Call::SubscribeManaged { filter } => Ok(Call::SubscribeManaged {
            filter: filter.copy()?,
        }),
        Call::Get => Ok(Call::Get),
        Call::Publish { h } => Ok(Call::Publish { h: *h }),
        Call::Release { h } => Ok(Call::Release { h: *h }),
        Call::ChangeInOut { half, act, tag } => Ok(Call::ChangeInOut {
            half: *half,
            act: *act,
            tag: tag.copy()?,
        }),
        Call::Instantiate { s, privileges } => copy_making(s, privileges),
    }
}

fn copy_add(h: u32, label: &Label, name: Name, value: &Frozen) -> Result<Call, NoMemory>
    ensures { IfOk result (λ c. c ≡ AddPart h label.now name value.now) }
{
    let label = label.copy()?;
    let value = value.share()?;
    Ok(Call::AddPart {
        h,
        label,
        name,
        value,
    })
}

fn copy_attach(h: u32, label: &Label, name: Name, p: &Privilege) -> Result<Call, NoMemory>
    ensures { IfOk result (λ c. c ≡ AttachPrivilege h label.now name p.now) }
{
    let label = label.copy()?;
    let p = p.copy()?;
    Ok(Call::AttachPrivilege { h, label, name, p })
}

fn copy_making(s: &TagSet, privileges: &Privileges) -> Result<Call, NoMemory>
    ensures { IfOk result (λ c. c ≡ Instantiate s.now privileges.now) }
{
    let s = s.copy()?;
    let privileges = privileges.copy()?;
    Ok(Call::Instantiate { s, privileges })
}
