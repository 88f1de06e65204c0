//! Calls that the units want.

ghost use Rattle.std.specs.Prelude.{◌≡◌, IfOk, true};
ghost use Rattle.df_brain.specs.Brain.{want_of};
ghost use Rattle.df_frozen.specs.Name.{is_name};
ghost use Rattle.ward_units.specs.Wishes.{lets_out, reads, subscribes};

use df_brain::Want;
use df_filter::Filter;
use df_frozen::Name;
use df_label::Tag;
use df_memory::NoMemory;
use df_priv::{Act, Half};
use df_unit::Call;

/// To be handed the events that match.
pub(crate) fn subscribing(filter: &Filter) -> Result<Want, NoMemory>
    ensures { IfOk result (λ w. want_of w ≡ subscribes filter.now) }
{
    let filter = filter.copy()?;
    Ok(Want::Call(Call::Subscribe { filter }))
}

/// To read the parts of this name in the view of a handle.
pub(crate) fn reading(h: u32, name: &str) -> Want
    requires { is_name name.now ≡ true }
    ensures { want_of result ≡ reads h name.now }
{
    match Name::new(name) {
        Ok(name) => Want::Call(Call::ReadPart { h, name }),
        Err(_) => unreachable!(),
    }
}

/// To let out what a tag holds back.
pub(crate) fn letting_out(tag: &Tag) -> Result<Want, NoMemory>
    ensures { IfOk result (λ w. want_of w ≡ lets_out tag.now) }
{
    Ok(Want::Call(Call::ChangeOutLabel {
        half: Half::S,
        act: Act::Del,
        tag: tag.copy()?,
    }))
}
