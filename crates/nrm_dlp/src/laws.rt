//! Laws over the definitions. Each is the contract of a function that does nothing.
ghost use Rattle.nrm_dlp.specs.Laws.{
  EachHasAHindsight,
  HindsightsAreAttained,
  HindsightsAreDetermined,
  HindsightsAreLimited,
  HindsightsBoundAllocations,
  OpeningsAreLimited,
  ProgramsAreLimited,
  SeatsLeftAreLimited,
};

/// The programs of a network are within the limits of programs: with caps and bounds within those, at seats left
/// of which no leg has more than its authorised seats, before anything is sold, and with tallies as bounds.
pub fn programs_are_limited()
    ensures made { ProgramsAreLimited }
    ensures left { SeatsLeftAreLimited }
    ensures opening { OpeningsAreLimited }
    ensures hindsight { HindsightsAreLimited }
{}

/// No allocation of the program of hindsight gains more than the value of hindsight, and one gains it.
pub fn hindsights_bound_allocations()
    ensures bound { HindsightsBoundAllocations }
    ensures attained { HindsightsAreAttained }
{}

/// Each list of tallies has a value of hindsight, or its program is Large.
pub fn each_has_a_hindsight()
    ensures { EachHasAHindsight }
{}

/// It is one value, or Large in one place; never both.
pub fn hindsights_are_determined()
    ensures { HindsightsAreDetermined }
{}
