//! Laws of the conditions and of certificate files. Each is the contract of a function that does nothing.
ghost use Rattle.nrm_dual.specs.ReadBack.{ClosingsAreRead, ReadIsShaped, WrittenIsRead};
ghost use Rattle.nrm_dual.specs.Laws.{CertifiedPass, ClosingsPass, OptimalPasses, PassesCertify};

/// A certificate at which no condition fails shows an optimal allocation and optimal bid prices, whoever made it.
pub fn passes_certify()
    ensures { PassesCertify }
{}

/// Where a certificate shows that, no condition fails.
pub fn certified_pass()
    ensures { CertifiedPass }
{}

/// The certificate of a path that ends and isn't Large passes.
pub fn closings_pass()
    ensures { ClosingsPass }
{}

/// Where a path closes, every certificate of the shape whose allocation and bid prices are optimal, and whose value is
/// the cost of its prices, passes, whoever made it.
pub fn optimal_passes()
    ensures { OptimalPasses }
{}

/// The text of a certificate in lowest terms is read as that certificate.
pub fn written_is_read()
    ensures { WrittenIsRead }
{}

/// The text of a closing is read as that closing.
pub fn closings_are_read()
    ensures { ClosingsAreRead }
{}

/// A certificate that is read has the shape of the network's.
pub fn read_is_shaped()
    ensures { ReadIsShaped }
{}
