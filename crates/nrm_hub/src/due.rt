//! The places at which something is due: a line is to be taken, or a client to be told or closed. They stand in the order in which they
//! came; if memory runs out for one, that is every place.
ghost use Rattle.std.specs.Prelude.{◌≡◌, ◌<◌, get_or, length, true};
ghost use Rattle.nrm_hub.specs.Due.{IsDue, StillDue, StillDueBeside, due_at, due_count, nothing_due};

use nrm_frames::LAST_PLACE;
use std::alloc::Global;
use std::marker::Model;

// No client has this place, which is beyond the last.
const NOWHERE: u16 = u16::MAX;

/// Places.
#[derive(Drop)]
pub(crate) struct Due {
    places: Vec<u16>,
    is_all: bool,
}

impl Model for Due {
    ghost use Rattle.nrm_hub.specs.Due.{DueValue};

    ghost Value = { DueValue };

    ghost view = { λ d. record { places = d.places.items; is_all = d.is_all } };
}

impl Due {
    /// Nothing is due.
    pub(crate) fn new(alloc: Global) -> Due
        ensures { result ≡ nothing_due }
    {
        Due {
            places: Vec::new(alloc),
            is_all: false,
        }
    }

    // Whether a place is the one behind so many others.
    fn is_at(&self, at: usize, place: u16) -> bool
        ensures { result ≡ true → (at < length self.now.places) × (get_or self.now.places at place ≡ place) }
    {
        at < self.places.len() && self.places[at] == place
    }

    /// Something is due at a place. Gives how many stand before it. If it stands where the caller thinks, it isn't added once more.
    pub(crate) fn add(&mut self, hint: usize, place: u16) -> usize
        ensures due { IsDue self.new place }
        ensures still { StillDue self.old self.new }
    {
        if self.is_at(hint, place) {
            return hint;
        }
        let at = self.places.len();
        if self.places.push(place).is_err() {
            self.is_all = true;
        }
        at
    }

    /// Nothing is due at a place any more, if it stands where the caller thinks.
    pub(crate) fn strike(&mut self, hint: usize, place: u16)
        ensures { StillDueBeside place self.old self.new }
    {
        if self.is_at(hint, place) {
            self.places[hint] = NOWHERE;
        }
    }

    /// How many places are to be looked at.
    pub(crate) fn count(&self) -> usize
        ensures { result ≡ due_count self.now }
    {
        if self.is_all {
            LAST_PLACE as usize + 1
        } else {
            self.places.len()
        }
    }

    /// The place behind so many others.
    pub(crate) fn at(&self, at: usize) -> u16
        requires { at < due_count self.now }
        ensures { result ≡ due_at self.now at }
    {
        if self.is_all {
            at as u16
        } else {
            self.places[at]
        }
    }

    /// Nothing is due any more.
    pub(crate) fn clear(&mut self)
        ensures { self.new ≡ nothing_due }
    {
        self.places.clear();
        self.is_all = false;
    }

    /// All that is due elsewhere is due here, in its order, and nothing else.
    pub(crate) fn copy(&mut self, other: &Due)
        ensures { StillDue other.now self.new }
    {
        self.places.clear();
        self.is_all = other.is_all || self.places.extend_from_slice(&other.places).is_err();
    }
}
