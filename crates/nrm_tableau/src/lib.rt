//! The tableau of the simplex method: the first tableau of a linear program, the column that enters and the row that leaves by
//! the lexicographic rule, and the pivot on them. Every tableau is one of its program's path, in exact fractions.
//!
//! `Tableau::first` makes the first one; as long as `entering` gives a column, `leaving` gives its row, and `pivot` the next tableau;
//! then `closing` gives the certificate. The test `takes_the_pivots_of_two_legs` goes this way. `on_path_has_facts` is a law.
#![tactic(auto)]

mod columns;
mod ending;
mod first;
mod laws;
mod leaving;
mod pivot;
mod row_set;
mod tableau;
mod walk;

pub use laws::on_path_has_facts;
pub use tableau::Tableau;
