//! Names by number: an index set in the order in which the names came, so that a name's number is its place.
ghost use Rattle.std.specs.Prelude.{◌≡◌, ◌<◌, [], ◌∷◌, ◌++◌, OnOk, OnErr, bytes_eq, false, length, slice_set};
ghost use Rattle.std.specs.List.{list_any, position_from};

use indexmap::IndexSet;
use nrm_text::Name;
use std::alloc::{AllocError, Global};
use std::marker::Model;

/// Distinct names, each found by a look-up. Contracts see the list of names.
#[derive(Drop)]
pub struct NameTable {
    names: IndexSet<Name>,
}

impl Model for NameTable {
    ghost use Rattle.std.specs.Prelude.{ℕ, List};

    ghost Value = { List (List ℕ) };

    ghost view = { λ t. t.names.keys };
}

impl NameTable {
    /// A table with no names. It takes no memory.
    pub fn new(alloc: Global) -> NameTable
        ensures { result ≡ [] }
    {
        NameTable {
            names: IndexSet::new(alloc),
        }
    }

    /// The number of a name: its place, counted from 0. `None` exactly where the name isn't there.
    pub fn number_of(&self, name: &Name) -> Option<usize>
        ensures { result ≡ position_from (λ other. bytes_eq other name.now) 0 self.now }
    {
        self.names.get_index_of(name)
    }

    /// Adds a name that isn't there, with the next number.
    ///
    /// # Errors
    /// Memory runs out; the names stay as they are.
    pub fn add(&mut self, name: Name) -> Result<(), AllocError>
        requires { list_any (λ other. bytes_eq other name) self.old ≡ false }
        ensures added { OnOk result (self.new ≡ self.old ++ name ∷ []) }
        ensures unchanged { OnErr result (self.new ≡ self.old) }
    {
        self.names.insert(name)?;
        Ok(())
    }

    /// Gives a number that is there to a name that isn't there, in the place of the name that has it.
    ///
    /// # Errors
    /// Memory runs out; the names stay as they are.
    pub fn rename(&mut self, number: usize, name: Name) -> Result<(), AllocError>
        requires there { number < length self.old }
        requires new { list_any (λ other. bytes_eq other name) self.old ≡ false }
        ensures renamed { OnOk result (self.new ≡ slice_set self.old number name) }
        ensures unchanged { OnErr result (self.new ≡ self.old) }
    {
        self.names.insert(name)?;
        let _ = self.names.swap_remove_index(number);
        Ok(())
    }
}
