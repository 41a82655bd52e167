//! The lines of the command stream, and what each asks for.
//!
//! A session begins with `Splitter::new`, calls `Splitter::feed` on each piece until it is used up, and `Splitter::finish` at the
//! end of the input. Who has all the bytes takes a line off them by `next_line`, and has its command from `command_of`, whose
//! words `Command::push_to` writes; another reader of lines drops the carriage return by `without_carriage_return` and cuts words by `split_once`. The tests run through
//! both.
#![tactic(auto)]

mod command;
mod cut;
mod laws;
mod lines;
mod parse;
mod splitter;

pub use command::Command;
pub use cut::split_once;
pub use laws::{any_cut_is_same, lines_of_joined, written_commands_are_read};
pub use lines::next_line;
pub use parse::{command_of, without_carriage_return};
pub use splitter::Splitter;
