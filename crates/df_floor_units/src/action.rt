use crate::stage::Stage;
use df_unit::PartRead;

/// What follows a reply.
#[derive(Clone, Copy)]
pub(crate) enum Action<'a> {
    /// The next call, and nothing is done.
    Goes(Stage),
    /// An event came.
    Takes {
        h: u32,
        sub: u32,
    },
    /// Parts were read.
    Hears {
        h: u32,
        sub: u32,
        place: u32,
        parts: &'a [PartRead],
    },
    /// The event is dropped.
    Acts,
    /// An event was told.
    Passes,
}
