//! Commands.
ghost use Rattle.std.specs.Prelude.{◌≡◌, ◌≤◌, ◌+◌, ◌++◌, length};
ghost use Rattle.nrm_stream.specs.Commands.{command_text};

use nrm_text::{Name, Text};

/// What a line asks for.
#[derive(Clone, Copy, Debug, PartialEq, Eq)]
pub enum Command {
    /// Seats of a product for a party.
    Book { product: Name, party: u16 },
    /// To cancel a booking by its number.
    Cancel { number: u64 },
    /// A new plan at a period, 1 to 99.
    Reoptimise { period: u8 },
    /// How a leg stands.
    Leg { name: Name },
    /// What could have been earned of the requests so far.
    Hindsight,
    /// The plan in force.
    Plan,
    /// Nothing that is known.
    Bad,
}

impl Command {
    /// Appends the words of the command, a line that `command_of` reads as this command. For one of `Bad` it is `bad`.
    #[tactic(auto, using(nrm_text::proofs::Decimals::short_decimal))]
    pub fn push_to<const ROOM: usize>(&self, line: &mut Text<ROOM>)
        requires { length line.old + 38 ≤ ROOM }
        ensures text { line.new ≡ line.old ++ command_text self.now }
        ensures length { length line.new ≤ length line.old + 38 }
    {
        match self {
            Command::Book { product, party } => {
                line.push_bytes(b"book ");
                line.push_name(product);
                line.push_spaced(u64::from(*party));
            }
            Command::Cancel { number } => {
                line.push_bytes(b"cancel");
                line.push_spaced(*number);
            }
            Command::Reoptimise { period } => {
                line.push_bytes(b"reoptimise");
                line.push_spaced(u64::from(*period));
            }
            Command::Leg { name } => {
                line.push_bytes(b"leg ");
                line.push_name(name);
            }
            Command::Hindsight => line.push_bytes(b"hindsight"),
            Command::Plan => line.push_bytes(b"plan"),
            Command::Bad => line.push_bytes(b"bad"),
        }
    }
}
