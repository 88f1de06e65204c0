#![tactic(auto)]

mod label;
pub mod laws;
mod numbers;
mod privilege;
mod privileges;
mod spelled_tags;
mod spelling;
mod tag;
mod tag_set;
mod tags;

pub use label::Label;
pub use numbers::compare_numbers;
pub use privilege::{Privilege, Right};
pub use privileges::Privileges;
pub use spelling::{append_number, append_path, append_separator, append_tag};
pub use tag::Tag;
pub use tag_set::TagSet;
