ghost use Rattle.std.specs.Prelude.{◌≡◌, List, length};

/// What contracts see of the value: a list of entries, and an origin.
pub trait Journaled {
    /// The type of the origin. Only contracts speak of it.
    type Origin;

    /// The type of an entry. Only contracts speak of it.
    type Entry;

    // From what the value began.
    ghost origin: { Self → Self.Origin };

    // The entries, oldest first.
    ghost list: { Self → List Self.Entry };

    /// The length of the list.
    fn count(&self) -> u64
        ensures { result ≡ length (list self.now) };
}
