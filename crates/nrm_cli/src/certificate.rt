//! From a file's name to the certificate that it gives for a network, or why there is none.
ghost use Rattle.std.specs.Prelude.{◌≡◌, IfErr, IfOk, length};
ghost use Rattle.nrm_fraction.specs.Large.{size_limit};
ghost use Rattle.nrm_lp.specs.Shape.{HasShape};
ghost use Rattle.nrm_cli.specs.Inner.Parts.{CountsCertificate, IsLackOf, OpensCertificate, ReadsCertificate, lack_line, lack_status};

use crate::Status;
use nrm_dual::{CertFault, read_certificate};
use nrm_edge::{Fetched, FileFault, Files};
use nrm_findings::line_of_fault;
use nrm_lp::Certificate;
use nrm_model::{MOST_CERTIFICATE_BYTES, Network};
use nrm_text::Line;
use std::alloc::Global;

/// Why there is no certificate.
#[derive(Clone, Copy, Debug, PartialEq, Eq)]
pub(crate) enum NoCertificate {
    /// No file has the name.
    Absent,
    /// The file is refused, or memory ran out.
    Unread(CertFault),
    /// The files failed.
    Fault,
}

impl From<FileFault> for NoCertificate {
    ghost use Rattle.std.specs.Prelude.{◌≡◌};
    ghost use Rattle.nrm_cli.specs.Inner.Lacks.{lack_of_files};

    ghost from_gives = { λ fault reason. reason ≡ lack_of_files fault };

    fn from(fault: FileFault) -> NoCertificate {
        match fault {
            FileFault::Failed => NoCertificate::Fault,
            FileFault::NoMemory => NoCertificate::Unread(CertFault::NoMemory),
        }
    }
}

impl From<CertFault> for NoCertificate {
    ghost use Rattle.std.specs.Prelude.{◌≡◌};
    ghost use Rattle.nrm_cli.specs.declared.certificate.NoCertificate.TheVariants.{Unread};

    ghost from_gives = { λ fault reason. reason ≡ Unread fault };

    fn from(fault: CertFault) -> NoCertificate {
        NoCertificate::Unread(fault)
    }
}

// The certificate of what was fetched, for a network.
fn certificate_in(
    alloc: Global,
    net: &Network,
    fetched: Fetched,
) -> Result<Certificate, NoCertificate>
    ensures reads { ReadsCertificate net.now fetched result }
    ensures shaped { IfOk result (HasShape size_limit (length net.now.products) (length net.now.legs)) }
    ensures named { IfErr result (IsLackOf net.now) }
{
    match fetched {
        Fetched::Whole(bytes) => Ok(read_certificate(alloc, net, &bytes)?),
        Fetched::Longer => Err(NoCertificate::Unread(CertFault::Long)),
        Fetched::Absent => Err(NoCertificate::Absent),
    }
}

/// The certificate that the file of this name gives for a network.
pub(crate) fn open_certificate<F: Files>(
    alloc: Global,
    files: &mut F,
    name: &str,
    net: &Network,
) -> Result<Certificate, NoCertificate>
    ensures opens { OpensCertificate net.now (F.contents files.old) name.now result }
    ensures shaped { IfOk result (HasShape size_limit (length net.now.products) (length net.now.legs)) }
    ensures named { IfErr result (IsLackOf net.now) }
    ensures counts { CountsCertificate (F.faults files.old) (F.faults files.new) result }
    ensures stays { F.contents files.new ≡ F.contents files.old }
{
    certificate_in(
        alloc,
        net,
        files.fetch(alloc, name, MOST_CERTIFICATE_BYTES)?,
    )
}

impl NoCertificate {
    /// The line that says why there is no certificate. `None` exactly if memory runs out.
    pub(crate) fn line(self, net: &Network) -> Option<Line>
        requires { IsLackOf net.now self }
        ensures { result ≡ lack_line net.now self }
    {
        match self {
            NoCertificate::Absent => Some(Line::of_bytes(b"refused certificate no file\n")),
            NoCertificate::Unread(fault) => line_of_fault(net, fault),
            NoCertificate::Fault => Some(Line::of_bytes(b"file fault\n")),
        }
    }

    /// The status that goes with that line.
    pub(crate) fn status(self) -> Status
        ensures { result ≡ lack_status self }
    {
        match self {
            NoCertificate::Absent | NoCertificate::Unread(_) => Status::Refused,
            NoCertificate::Fault => Status::FileFault,
        }
    }
}
