//! Texts: names, whole numbers and lines, as they are read and written. Nothing here takes memory.
//!
//! A caller meets the calls in this order. To read, `is_word` compares a word, `name_of` gives its name and `name_before` that
//! before a space, `Name::bytes` the bytes of a name, and `read_whole` a word's number. To write, `Text::new` or
//! `Text::of_bytes` begins a text (a `Line` has room for 512 bytes), `push_bytes`, `push_name`, `push_u64`, `push_whole`,
//! `push_signed`, `push_fraction`, `push_spaced` and `push_count` append to it, and `bytes` shows it. The test
//! `a_line_is_answered` runs such a sequence.
#![tactic(auto)]

mod laws;
mod limits;
mod line;
mod name;
mod number;
mod word;

pub use laws::{fractions_read_back, numbers_and_names_read_back, words_read_back};
pub use limits::MOST_NAME_BYTES;
pub use line::{Line, Text};
pub use name::{Name, name_before, name_of};
pub use number::{NumberFault, read_whole};
pub use word::is_word;
