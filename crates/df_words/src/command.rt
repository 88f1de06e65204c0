ghost use Rattle.std.specs.Prelude.{◌≡◌};
ghost use Rattle.df_words.specs.Words.{files_of, is_plain};

use df_label::Label;

/// What is to be done. A file's name is kept as its place in the words.
#[derive(Debug, Drop, PartialEq, Eq)]
pub enum Command {
    /// Run the script, and write its journal.
    Steps {
        file: usize,
    },
    /// Say whether the journal is what the rules give.
    Check {
        journal: usize,
    },
    /// Write what stays of the journal at the label.
    Purge {
        label: Label,
        journal: usize,
    },
    /// Write the journal in its second version.
    Upgrade {
        journal: usize,
    },
    /// Write the entries of the journal on which the one at the place rests.
    Why {
        journal: usize,
        place: u64,
    },
    /// Write the opening auction of each symbol of the order file.
    Auction {
        orders: usize,
    },
    /// Write which privileges each root's family may hold, from the start of the script.
    Lint {
        script: usize,
    },
    /// Write a file of the first n ticks of a key.
    Gen {
        key: u64,
        n: u32,
    },
    /// Run the trading floor of a configuration on the ticks of a file, and write its journal and
    /// what it comes to.
    Floor {
        config: usize,
        ticks: usize,
    },
    /// The same, with so many workers at once.
    FloorWorkers {
        config: usize,
        ticks: usize,
        workers: u32,
    },
    /// Run a floor of a fixed configuration on the first n ticks of a key, and write what its
    /// journal comes to.
    Load {
        key: u64,
        n: u32,
    },
}

/// The files of a command, by the places of their names among the words, in the order in which they
/// are read.
#[derive(Clone, Copy, Debug, PartialEq, Eq)]
pub enum Files {
    None,
    One { file: usize },
    Two { first: usize, second: usize },
}

/// Why words ask for nothing.
#[derive(Clone, Copy, Debug, PartialEq, Eq)]
pub enum WordsRefused {
    /// They have none of the forms of commands.
    Usage,
    NoMemory,
}

impl Command {
    /// What it reads.
    pub fn files(&self) -> Files
        ensures { result ≡ files_of self.now }
    {
        match self {
            Command::Steps { file } => Files::One { file: *file },
            Command::Check { journal }
            | Command::Purge { journal, .. }
            | Command::Upgrade { journal }
            | Command::Why { journal, .. } => Files::One { file: *journal },
            Command::Auction { orders } => Files::One { file: *orders },
            Command::Lint { script } => Files::One { file: *script },
            Command::Floor { config, ticks } | Command::FloorWorkers { config, ticks, .. } => {
                Files::Two {
                    first: *config,
                    second: *ticks,
                }
            }
            Command::Gen { .. } | Command::Load { .. } => Files::None,
        }
    }

    /// Whether it asks for no workers.
    pub fn is_plain(&self) -> bool
        ensures { result ≡ is_plain self.now }
    {
        !matches!(self, Command::FloorWorkers { .. })
    }
}
