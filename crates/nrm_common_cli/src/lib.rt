//! What all programs over a network have around a session, and no session, reply or store: from a file's name to its network, what they
//! see of the outside, the words for modes, a line with the status that goes with it, such as the one that says why there is no network,
//! and the answers to `--help` and `--version`.
#![tactic(auto)]

mod about;
mod line;
mod network_file;
mod put;
mod words;

pub use about::answer_if_asked;
pub use line::{line_of_overflow, send_line};
pub use network_file::{NoNetwork, open_network};
pub use put::Statuses;
pub use words::{mode_in, words_given};
