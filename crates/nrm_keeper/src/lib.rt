//! Bookings that outlive a run: rows of a number, a product and a party, by rising number. They are kept behind one
//! trait, in memory or in a table of `sqlite`.
//!
//! A reader begins with the definition of what each call does to the rows in specs/Rows, and of what a file must hold in specs/Stored. The
//! calls of a `Keeper`, as in the tests `rows_are_kept_in_memory` and `rows_are_kept_in_a_file`:
//! - `MemKeeper::new`, `SqlKeeper::over` and `FileKeeper::new` make one; the last opens its file at its first call;
//! - `all` lists the rows, `add` adds one and `drop_row` takes one out: after a `KeepFault` the rows are as they were;
//! - `FileKeeper::close` ends it, so that the file alone is the store.
//!
//! `StoreKeeper` is a keeper over any `Opener`, by which tests open one that fails (`an_opener_may_succeed_after_a_fault`).
#![tactic(auto)]

mod causes;
mod file_keeper;
mod keeper;
mod mem_keeper;
mod opener;
mod owner;
mod reading;
mod row;
mod shut;
mod sql_keeper;
mod statements;
mod table;

pub use file_keeper::{FileKeeper, StoreKeeper};
pub use keeper::Keeper;
pub use mem_keeper::MemKeeper;
pub use opener::{Beginning, MOST_STEPS, Opener, PathOpener};
pub use row::{Doubt, KeepFault, KeptRow};
pub use sql_keeper::{MemConnection, SqlKeeper};
pub use sqlite::Unknown;
