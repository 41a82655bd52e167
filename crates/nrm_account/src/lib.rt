//! The account of an answer: what was asked, what stood when it was asked, and what follows from that by the rule alone.
//!
//! A reader begins with the definition of an account in specs/Account, and that of its text in specs/Texts. The calls:
//! - `Teller::new` asks for the account of a line, by its number from 1;
//! - `nrm_session::serve_by` of `Telling` reads the lines of a stream, carries each out and writes the account of that one; the teller says
//!   afterwards whether it was reached, and whether memory ran out;
//! - `largest_party` gives the most seats of a product of which a request would be sold now.
//!
//! The test `each_kind_of_line_is_accounted_for` runs the first two, and `nests_are_accounted_for` in a mode that has nests. The laws say
//! that an account is that of its line, gives its reply, and tells the line that made its plan.
#![tactic(auto)]

mod largest;
mod laws;
mod line;
mod nest;
mod protected;
mod reasons;
mod request;
mod teller;
mod text;

pub use largest::largest_party;
pub use laws::{
    accounts_answer, accounts_are_determined, accounts_are_of_their_lines, accounts_give_replies,
    largest_parties_are_sold, out_of_memory_writes_nothing, plans_are_of_their_lines,
};
pub use teller::{Teller, Telling};
