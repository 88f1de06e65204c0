//! The one spelling of numbers, tags, labels, privileges and values, and exact readers of it.
#![tactic(auto)]

mod brackets;
mod bytes_reader;
mod char_reader;
mod counting;
mod counting_laws;
mod label;
mod label_reader;
mod limits;
mod name_reader;
mod number;
mod number_reader;
mod place;
mod privilege;
mod readers;
mod refused;
mod tag_reader;
mod value;
mod value_reader;
mod words_reader;
mod writers;
mod written;

pub use bytes_reader::bytes_at;
pub use counting_laws::{counts_are_exact, counts_decide};
pub use df_label::{append_number, append_path, append_separator, append_tag};
pub use label::{append_label, append_tags};
pub use label_reader::{label_at, privilege_at, text_at};
pub use name_reader::name_at;
pub use number::{append_whole, put_few};
pub use number_reader::{byte_at, byte_stands, number_at, short_at, whole_at};
pub use privilege::append_privilege;
pub use readers::{read_label, read_privilege, read_tag, read_value};
pub use refused::{Fault, TextRefused};
pub use tag_reader::{between, numbers_at, tag_at, tags_at};
pub use value::{append_value, append_words};
pub use words_reader::words_at;
pub use writers::{write_label, write_privilege, write_tag, write_value};
pub use written::what_is_written_stands;
