//! Laws of the network file. Each is the contract of a function that does nothing.
ghost use Rattle.nrm_network.specs.Canonical.{MigratedIsSame, PrintedIsRead};
ghost use Rattle.nrm_network.specs.Valid.{FirstVersionAuthorisesSeats, ReadIsNetwork};

/// The canonical file of a network within the limits is a valid file that gives exactly that network.
pub fn printed_is_read()
    ensures { PrintedIsRead }
{}

/// A valid file and its canonical file give the same network: what `print` writes of a file of version 1 is that file in version 2.
pub fn migrated_is_same()
    ensures { MigratedIsSame }
{}

/// A valid file gives a network within the limits.
pub fn read_is_network()
    ensures { ReadIsNetwork }
{}

/// A valid file of version 1 authorises as many seats of each leg as there are.
pub fn first_version_authorises_seats()
    ensures { FirstVersionAuthorisesSeats }
{}
