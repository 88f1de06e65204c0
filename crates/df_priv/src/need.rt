//! The privilege that a change of a label or an attachment asks for.
ghost use Rattle.std.specs.Prelude.{◌≡◌, IfOk};
ghost use Rattle.df_priv.specs.Needed.{needed, needed_to_attach};

use df_label::{Privilege, Right, Tag};
use df_memory::NoMemory;

/// A half of a label.
#[derive(Clone, Copy, Debug, PartialEq, Eq, PartialOrd, Ord, Hash)]
pub enum Half {
    /// Confidentiality.
    S,
    /// Integrity.
    I,
}

/// A change of a half of a label by one tag.
#[derive(Clone, Copy, Debug, PartialEq, Eq, PartialOrd, Ord, Hash)]
pub enum Act {
    Add,
    Del,
}

/// The privilege for changing a half of a unit's label, whichever half it is: `t+` for adding `t`,
/// `t-` for taking it out.
pub fn needed(act: Act, tag: &Tag) -> Result<Privilege, NoMemory>
    ensures { IfOk result (λ p. p ≡ needed act tag.now) }
{
    let right = match act {
        Act::Add => Right::Plus,
        Act::Del => Right::Minus,
    };
    let tag = tag.copy()?;
    Ok(Privilege { tag, right })
}

/// The privilege for attaching one to a part: `t+auth` for `t+` and `t+auth`, `t-auth` for `t-`
/// and `t-auth`.
pub fn needed_to_attach(p: &Privilege) -> Result<Privilege, NoMemory>
    ensures { IfOk result (λ q. q ≡ needed_to_attach p.now) }
{
    let right = match p.right {
        Right::Plus | Right::PlusAuth => Right::PlusAuth,
        Right::Minus | Right::MinusAuth => Right::MinusAuth,
    };
    let tag = p.tag.copy()?;
    Ok(Privilege { tag, right })
}
