//! A law over the definitions. It is the contract of a function that does nothing.
ghost use Rattle.nrm_emsr.specs.Laws.{EnoughIsLeast, WholeDemandSuffices};

/// The number of seats that is enough for some buckets is the least that suffices, or the leg's authorised seats where
/// they are fewer; and some number suffices.
pub fn enough_is_least()
    ensures least { EnoughIsLeast }
    ensures some { WholeDemandSuffices }
{}
