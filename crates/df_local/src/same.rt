//! Whether two units have equal names and states.

ghost use Rattle.std.specs.Prelude.{◌≡◌, ◌↔◌, IsTrue};

use crate::Local;

impl Local {
    /// Whether the two have equal names and equal states, values by their plain content.
    pub fn same(&self, other: &Local) -> bool
        ensures { IsTrue result ↔ (self.now ≡ other.now) }
    {
        self.name.same(&other.name)
            && self.reading.input.same(&other.reading.input)
            && self.writing.output.same(&other.writing.output)
            && self
                .reading
                .contamination
                .same(&other.reading.contamination)
            && self.writing.dropped.same(&other.writing.dropped)
            && self.writing.endorsed.same(&other.writing.endorsed)
            && self.held.same(&other.held)
            && self.events == other.events
            && self.tags == other.tags
            && self.subs == other.subs
            && self.units == other.units
            && self.given == other.given
            && self.handles.same(&other.handles)
    }
}
