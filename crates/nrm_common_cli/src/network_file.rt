//! From a file's name to its network.
ghost use Rattle.std.specs.Prelude.{◌≡◌};
ghost use Rattle.nrm_common_cli.specs.NetworkFile.{CountsFetch, OpensFile};
ghost use Rattle.nrm_common_cli.specs.Inner.Fetched.{ReadsNetwork};

use nrm_edge::{Fetched, FileFault, Files};
use nrm_model::{MOST_NETWORK_BYTES, Network};
use nrm_network::{NetFault, Why, parse};
use std::alloc::Global;

/// Why there is no network.
#[derive(Clone, Copy, Debug, PartialEq, Eq)]
pub enum NoNetwork {
    /// No file has the name.
    Absent,
    /// The file is refused at this row, counted from 1 (0 for its length), and why.
    Refused { row: u32, why: Why },
    /// The files failed.
    Fault,
    /// Memory ran out.
    NoMemory,
}

impl From<FileFault> for NoNetwork {
    ghost use Rattle.std.specs.Prelude.{◌≡◌};
    ghost use Rattle.nrm_common_cli.specs.Faults.{reason_of_files};

    ghost from_gives = { λ fault reason. reason ≡ reason_of_files fault };

    fn from(fault: FileFault) -> NoNetwork {
        match fault {
            FileFault::Failed => NoNetwork::Fault,
            FileFault::NoMemory => NoNetwork::NoMemory,
        }
    }
}

impl From<NetFault> for NoNetwork {
    ghost use Rattle.std.specs.Prelude.{◌≡◌};
    ghost use Rattle.nrm_common_cli.specs.Faults.{reason_of_network};

    ghost from_gives = { λ fault reason. reason ≡ reason_of_network fault };

    fn from(fault: NetFault) -> NoNetwork {
        match fault {
            NetFault::Refused { row, why } => NoNetwork::Refused { row, why },
            NetFault::NoMemory => NoNetwork::NoMemory,
        }
    }
}

// The network of what was fetched, read.
fn network_in(alloc: Global, fetched: Fetched) -> Result<Network, NoNetwork>
    ensures { ReadsNetwork fetched result }
{
    match fetched {
        Fetched::Whole(bytes) => Ok(parse(alloc, &bytes)?),
        Fetched::Longer => Err(NoNetwork::Refused {
            row: 0,
            why: Why::Size,
        }),
        Fetched::Absent => Err(NoNetwork::Absent),
    }
}

/// The network of the file of this name.
///
/// # Errors
/// No file has the name, or it is refused; the files failed; memory runs out.
pub fn open_network<F: Files>(
    alloc: Global,
    files: &mut F,
    name: &str,
) -> Result<Network, NoNetwork>
    ensures opens { OpensFile (F.contents files.old) name.now result }
    ensures counts { CountsFetch (F.faults files.old) (F.faults files.new) result }
    ensures stays { F.contents files.new ≡ F.contents files.old }
{
    network_in(alloc, files.fetch(alloc, name, MOST_NETWORK_BYTES)?)
}
