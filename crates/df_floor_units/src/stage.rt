/// Which call of its list a unit has made last, or that it waits.
#[derive(Clone, Copy, Debug, PartialEq, Eq)]
pub(crate) enum Stage {
    /// Nothing was wanted yet.
    Fresh,
    /// A call with which the unit opens, by its place.
    Opens { place: u32 },
    Rests,
    /// A read of an event that came for a subscription, by its place.
    Reads { h: u32, sub: u32, place: u32 },
    Drops { h: u32 },
    Creates,
    /// A part that is added to a draft, by its place.
    Adds { h: u32, place: u32 },
    Publishes { h: u32 },
    /// A reply came that isn't foreseen.
    Stopped,
    /// An event that came to a stopped unit is dropped.
    StoppedDrops { h: u32 },
}
