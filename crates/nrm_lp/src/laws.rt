//! Laws over the definitions. Each is the contract of a function that does nothing.
ghost use Rattle.nrm_lp.specs.Laws.{EndsOptimal, WeakDuality};
ghost use Rattle.nrm_lp.specs.Facts.{PathHasFacts};
ghost use Rattle.nrm_lp.specs.Ends.{EveryPathEnds, PathsEndOnce};
ghost use Rattle.nrm_lp.specs.Closing.{ValueIsWhole};
ghost use Rattle.nrm_lp.specs.Certified.{ClosesCertify, EndsMeet, OptimalCertify, OptimalMeet};

/// No allocation gains more than any prices cost.
pub fn weakly_dual()
    ensures { WeakDuality }
{}

/// Every tableau of a path has unit columns at its basic columns and constraint rows above 0 in the order of the rule,
/// is made of the first rows and makes them again, and whichever column enters, exactly one row is to leave.
pub fn path_has_facts()
    ensures { PathHasFacts }
{}

/// Where the path ends, its closing is optimal.
pub fn ends_optimal()
    ensures { EndsOptimal }
{}

/// Where the path ends, its closing is an allocation and prices that meet, with both kinds of complementary
/// slackness, and its value is the cost and the gain.
pub fn ends_meet()
    ensures { EndsMeet }
{}

/// Where the path ends, the value row's right side times the denominator of the bid prices is a whole number that isn't
/// negative: the value of the closing.
pub fn value_is_whole()
    ensures { ValueIsWhole }
{}

/// Where no pivot of the path is Large, nor its closing, the certificate of the closing shows what it should: its
/// numbers are not negative and below the limit, its allocation and its bid prices meet, and both are optimal.
pub fn closes_certify()
    ensures { ClosesCertify }
{}

/// Where some allocation and bid prices meet, each optimal allocation and each optimal bid prices do.
pub fn optimal_meet()
    ensures { OptimalMeet }
{}

/// Where the path of a program closes, every certificate of the shape whose allocation and bid prices are optimal, and
/// whose value is the cost of its prices, shows what it should.
pub fn optimal_certify()
    ensures { OptimalCertify }
{}

/// The path of every program ends: in a closing that isn't Large, or where a pivot or the closing is Large.
pub fn every_path_ends()
    ensures { EveryPathEnds }
{}

/// It ends after one number of pivots, in one way and with one closing or one number.
pub fn paths_end_once()
    ensures { PathsEndOnce }
{}
