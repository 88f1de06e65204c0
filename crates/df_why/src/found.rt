//! What a machine tells of an entry's unit.

/// Where the delivery arose that an entry's unit takes next, and where its first one arose, where
/// there are such.
#[derive(Clone, Copy, Drop)]
pub(crate) struct Found {
    pub next: Option<usize>,
    pub first: Option<usize>,
}
