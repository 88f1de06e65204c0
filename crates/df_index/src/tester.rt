//! Who tests a filter, and counts the tests.

ghost use Rattle.std.specs.Prelude.{◌≡◌, ◌+◌, ℕ};
ghost use Rattle.df_part.specs.Part.{cut};

use crate::Listed;
use df_label::Label;
use df_part::Contents;

/// Tests filters, and counts its tests.
pub trait Tester<F: Listed> {
    // How many tests it made.
    ghost count: { Self → ℕ };

    /// Whether the filter matches the parts that are readable at the label.
    fn test(&mut self, filter: &F, at: &Label, contents: &Contents) -> bool
        ensures tested { result ≡ F.matches filter.now (cut at.now contents.now) }
        ensures counted { count self.new ≡ count self.old + 1 };
}
