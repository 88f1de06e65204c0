ghost use Rattle.std.specs.Prelude.{◌≡◌, ◌++◌, OnOk};
ghost use Rattle.df_value_text.specs.Label.{privilege_text};

use crate::append_tag;
use df_label::{Privilege, Right};
use df_memory::NoMemory;

/// Appends a privilege: its tag, and `+`, `-`, `+auth` or `-auth`.
pub fn append_privilege(privilege: &Privilege, to: &mut Vec<u8>) -> Result<(), NoMemory>
    ensures { OnOk result (to.new.items ≡ to.old.items ++ privilege_text privilege.now) }
{
    append_tag(&privilege.tag, to)?;
    match privilege.right {
        Right::Plus => to.extend_from_slice(b"+")?,
        Right::Minus => to.extend_from_slice(b"-")?,
        Right::PlusAuth => to.extend_from_slice(b"+auth")?,
        Right::MinusAuth => to.extend_from_slice(b"-auth")?,
    }
    Ok(())
}
