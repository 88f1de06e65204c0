//! The text of journals: a line for each call, and lines for what it read, committed or was given.
#![tactic(auto)]

mod ask;
mod call;
mod call_reader;
mod effect;
mod entry;
mod known_label;
mod laws;
mod line;
mod line_fault;
mod line_reader;
mod name;
mod name_reader;
mod note;
mod notes;
mod reply;
mod reply_reader;
mod start;
mod value_word;
mod word_reader;
mod writers;

pub use ask::{Ask, ask_at};
pub use call_reader::read_call_at;
pub use entry::{
    append_done, append_handled, append_quiet, append_received, append_seen_alone, append_spelled,
};
pub use known_label::KnownLabel;
pub use laws::{a_journal_is_read_back, a_text_is_one_journal};
pub use line_fault::LineFault;
pub use line_reader::{read_call_line, read_part_line, read_shown_line, whole};
pub use name_reader::{event_at, unit_at};
pub use note::Note;
pub use notes::Notes;
pub use word_reader::{label_word, privileges_at};
pub use writers::{
    write_entry, write_event, write_head, write_noted, write_noting, write_start, write_unit,
};
