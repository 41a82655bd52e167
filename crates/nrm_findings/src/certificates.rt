//! Why a certificate file is refused, and the verdict on a certificate, as they are written.
ghost use Rattle.std.specs.Prelude.{◌≡◌, ◌≤◌, ◌++◌, ◌∷◌, [], decimal, length, option_map};
ghost use Rattle.nrm_dlp.specs.Programs.{opening_program};
ghost use Rattle.nrm_dual.specs.Named.{IsOfNetwork, IsOfProgram};
ghost use Rattle.nrm_dual.specs.Refusals.{refusal_of};
ghost use Rattle.nrm_findings.specs.Certificates.{lacking_line, refused_for, verdict_line};

use nrm_dual::{CertFault, Verdict};
use nrm_model::Network;
use nrm_text::{Line, Name};

// A line of this text, a name and the end of the line.
fn line_naming(text: &[u8], name: &Name) -> Line
    requires { length text.now ≤ 100 }
    ensures { result ≡ text.now ++ name.now ++ 10 ∷ [] }
{
    let mut line = Line::of_bytes(text);
    line.push_name(name);
    line.push_bytes(b"\n");
    line
}

// A line of this text, a number and what follows it.
#[tactic(auto, using(nrm_text::proofs::Decimals::short_decimal))]
fn line_numbering(text: &[u8], number: u32, end: &[u8]) -> Line
    requires text { length text.now ≤ 100 }
    requires end { length end.now ≤ 100 }
    ensures { result ≡ text.now ++ decimal number ++ end.now }
{
    let mut line = Line::of_bytes(text);
    line.push_u64(u64::from(number));
    line.push_bytes(end);
    line
}

/// The line that says why a certificate file is refused for a network. `None` exactly if memory ran out.
pub fn line_of_fault(net: &Network, fault: CertFault) -> Option<Line>
    requires { IsOfNetwork net.now fault }
    ensures { result ≡ option_map (λ cause. lacking_line net.now (refused_for cause)) (refusal_of fault) }
{
    let line = match fault {
        CertFault::Long => Line::of_bytes(b"refused certificate long\n"),
        CertFault::Line(number) => line_numbering(b"refused certificate line ", number, b"\n"),
        CertFault::Large(number) => {
            line_numbering(b"refused certificate line ", number, b" large\n")
        }
        CertFault::NoValue => Line::of_bytes(b"refused certificate no value\n"),
        CertFault::NoProduct(product) => {
            line_naming(
                b"refused certificate no product ",
                &net.product_at(product).name,
            )
        }
        CertFault::NoLeg(leg) => line_naming(b"refused certificate no leg ", &net.leg_at(leg).name),
        CertFault::TooFine => Line::of_bytes(b"refused certificate too fine\n"),
        CertFault::NoMemory => return None,
    };
    Some(line)
}

/// The line of the verdict on a certificate for the opening linear program of a network.
pub fn line_of_verdict(net: &Network, verdict: Verdict) -> Line
    requires { IsOfProgram (opening_program net.now) verdict }
    ensures { result ≡ verdict_line net.now verdict }
{
    match verdict {
        Verdict::Optimal => Line::of_bytes(b"optimal\n"),
        Verdict::WrongShape => Line::of_bytes(b"wrong shape\n"),
        Verdict::WrongProduct(product) => {
            line_naming(b"wrong product ", &net.product_at(product).name)
        }
        Verdict::WrongLeg(leg) => line_naming(b"wrong leg ", &net.leg_at(leg).name),
        Verdict::WrongValue => Line::of_bytes(b"wrong value\n"),
    }
}
