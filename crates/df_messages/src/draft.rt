use df_frozen::{Frozen, Name};
use df_label::Label;

/// A part that is to be added to an event.
#[derive(Drop)]
pub struct Draft {
    pub label: Label,
    pub name: Name,
    pub value: Frozen,
}
