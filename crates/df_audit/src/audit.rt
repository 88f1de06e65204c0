ghost use Rattle.std.specs.Prelude.{◌≡◌};

use df_machine::Tables;

/// What an audit finds. A place counts the entries before it.
#[derive(Clone, Copy, Debug, PartialEq, Eq)]
pub enum Finding {
    Right,
    Wrong { place: u64 },
    /// The journal is right, has so many entries, and not the place that was asked for.
    NoPlace { entries: u64 },
}

/// What an audit finds, and what it tells.
#[derive(Drop)]
pub struct Audit {
    pub finding: Finding,
    pub text: Vec<u8>,
    /// The tables behind the journal, where they are left: freeing them is up to the caller.
    pub tables: Option<Tables>,
}

impl Audit {
    /// An audit that leaves no tables.
    pub(crate) fn new(finding: Finding, text: Vec<u8>) -> Audit
        ensures finding { result.finding ≡ finding }
        ensures text { result.text ≡ text }
    {
        Audit {
            finding,
            text,
            tables: None,
        }
    }

    /// The same audit, which leaves the tables behind the journal.
    pub(crate) fn leaving(mut self, tables: Tables) -> Audit
        ensures finding { result.finding ≡ self.finding }
        ensures text { result.text ≡ self.text }
    {
        self.tables = Some(tables);
        self
    }
}
