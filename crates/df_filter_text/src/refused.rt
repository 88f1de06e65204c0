//! Why a text isn't read as a filter.
ghost use Rattle.std.specs.Prelude.{◌≡◌};
ghost use Rattle.df_filter_text.specs.code.Answer.{refusal};
ghost use Rattle.df_filter_text.specs.declared.refused.FilterTextRefused.TheVariants as refused;

use df_memory::NoMemory;
use df_value_text::Fault;

/// Why a text isn't read as a filter.
#[derive(Clone, Copy, Debug, PartialEq, Eq)]
pub enum FilterTextRefused {
    /// There are no bytes.
    NoClause,
    /// Four clauses stand there, and another `&`.
    TooManyClauses,
    /// With the byte at this place no filter goes on.
    Syntax { offset: usize },
    NoMemory,
}

impl From<NoMemory> for FilterTextRefused {
    ghost from_gives = { λ _ e. e ≡ refused.NoMemory };

    fn from(_error: NoMemory) -> FilterTextRefused {
        FilterTextRefused::NoMemory
    }
}

impl From<Fault> for FilterTextRefused {
    ghost from_gives = { λ f e. e ≡ refusal f };

    fn from(fault: Fault) -> FilterTextRefused {
        match fault {
            Fault::NoMemory => FilterTextRefused::NoMemory,
            Fault::Bad(offset) => FilterTextRefused::Syntax { offset },
            Fault::Low(offset) => FilterTextRefused::Syntax { offset },
        }
    }
}
