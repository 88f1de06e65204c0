use df_start::Start;
use std::collections::LinkedList;

/// With what a crew was started. Only contracts speak of it: no code makes one.
#[derive(Drop)]
pub struct Origin<B> {
    pub start: Start,
    /// A state for each root's brain, root 0 first.
    pub brains: LinkedList<B>,
}
