//! What has a spelling, as its type gives it.
ghost use Rattle.std.specs.List.{All};

/// A thing that has a spelling.
pub(crate) trait Spelled {
    /// The thing has a spelling.
    ghost fits: { Self → Type 0 };

    fn is_spelled(&self)
        ensures { fits self.now };
}

/// Each of these things has a spelling.
pub(crate) fn each_is_spelled<T: Spelled>(things: &[T])
    ensures { All T.fits things.now }
{
    for thing in things {
        thing.is_spelled();
    }
}
