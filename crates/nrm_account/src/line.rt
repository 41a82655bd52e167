//! Lines of an account, from their numbers. Each is one line of text, with its end.
ghost use Rattle.std.specs.Prelude.{◌≡◌, ◌+◌, ◌-◌, ◌*◌, ◌≤◌, ◌<◌, ◌^◌, ◌++◌, codes, decimal, length, nat_lt, pos, true, if◌then◌else◌};
ghost use Rattle.nrm_fraction.specs.Fraction.{◌over◌};
ghost use Rattle.nrm_text.specs.Fractions.{fraction_text};
ghost use Rattle.nrm_text.specs.Words.{spaced};
ghost use Rattle.nrm_account.specs.Lines.{counted, ended};
ghost use Rattle.nrm_account.specs.Texts.{asked_line, leg_line, mode_word, since_text};

use nrm_model::Mode;
use nrm_stream::Command;
use nrm_text::{Name, Text};

/// The most bytes of a line, but for that of the demand of a leg.
pub(crate) const ROOM: usize = 352;

/// A word and a name.
pub(crate) fn named(word: &[u8], name: &Name) -> Text<ROOM>
    requires { length word.now ≤ 20 }
    ensures text { result ≡ word.now ++ spaced name.now }
    ensures length { length result ≤ 33 }
{
    let mut line = Text::of_bytes(word);
    line.push_bytes(b" ");
    line.push_name(name);
    line
}

/// Appends a word and a count.
pub(crate) fn push_counted(line: &mut Text<ROOM>, word: &[u8], count: u64)
    requires word { length word.now ≤ 12 }
    requires room { length line.old ≤ 310 }
    ensures text { line.new ≡ line.old ++ counted word.now count }
    ensures length { length line.new ≤ length line.old + length word.now + 22 }
{
    line.push_count(word, count);
}

/// Appends two words, each with a count.
pub(crate) fn push_pair(line: &mut Text<ROOM>, first: &[u8], a: u64, second: &[u8], b: u64)
    requires words { (length first.now ≤ 12) × (length second.now ≤ 12) }
    requires room { length line.old ≤ 270 }
    ensures text { line.new ≡ line.old ++ counted first.now a ++ counted second.now b }
    ensures length { length line.new ≤ length line.old + length first.now + length second.now + 44 }
{
    push_counted(line, first, a);
    push_counted(line, second, b);
}

/// The line of a number, and what it asked for.
pub(crate) fn asked(number: u64, command: &Command) -> Text<ROOM>
    ensures { result ≡ asked_line number command.now }
{
    let mut line = Text::of_bytes(b"line");
    line.push_spaced(number);
    line.push_bytes(b" ");
    command.push_to(&mut line);
    line.push_bytes(b"\n");
    line
}

// The word of a mode.
fn word_of(mode: Mode) -> &'static [u8]
    ensures word { result.now ≡ mode_word mode }
    ensures length { length result.now ≤ 5 }
{
    match mode {
        Mode::FirstCome => b"first",
        Mode::Bid => b"bid",
        Mode::Davn => b"davn",
    }
}

// Appends by which line a plan was made, where 0 stands for the opening.
fn push_since(line: &mut Text<ROOM>, planned: u64)
    requires { length line.old ≤ 100 }
    ensures text { line.new ≡ line.old ++ since_text planned }
    ensures length { length line.new ≤ length line.old + 26 }
{
    if planned == 0 {
        line.push_bytes(b" opening");
    } else {
        line.push_count(b"line", planned);
    }
}

/// The mode, by which line the plan in force was made, and its period.
pub(crate) fn plan(mode: Mode, planned: u64, period: u8) -> Text<ROOM>
    ensures { result ≡ ended (codes "plan" ++ spaced (mode_word mode) ++ since_text planned ++ counted (codes "period") period) }
{
    let mut line = Text::of_bytes(b"plan ");
    line.push_bytes(word_of(mode));
    push_since(&mut line, planned);
    line.push_count(b"period", u64::from(period));
    line.push_bytes(b"\n");
    line
}

/// A product, its fare and its percentage.
pub(crate) fn product(name: &Name, fare: u32, refund: u8) -> Text<ROOM>
    ensures { result ≡ ended (codes "product" ++ spaced name.now ++ counted (codes "fare") fare ++ counted (codes "refund") refund) }
{
    let mut line = named(b"product", name);
    line.push_count(b"fare", u64::from(fare));
    line.push_count(b"refund", u64::from(refund));
    line.push_bytes(b"\n");
    line
}

/// The bid price of a leg.
#[tactic(auto, using(nrm_text::proofs::Fractions::short_fraction))]
pub(crate) fn price(name: &Name, price: u64, den: u64) -> Text<ROOM>
    requires some { 1 ≤ den }
    ensures { result ≡ ended (codes "price" ++ spaced name.now ++ spaced (fraction_text (pos price over den))) }
{
    let mut line = named(b"price", name);
    line.push_bytes(b" ");
    line.push_fraction(i128::from(price), u128::from(den));
    line.push_bytes(b"\n");
    line
}

/// The seats left on a leg.
pub(crate) fn left(name: &Name, seats: u16) -> Text<ROOM>
    ensures { result ≡ ended (codes "left" ++ spaced name.now ++ spaced (decimal seats)) }
{
    let mut line = named(b"left", name);
    line.push_spaced(u64::from(seats));
    line.push_bytes(b"\n");
    line
}

/// What is given back of a booking, and what is withheld.
pub(crate) fn back(refund: u64, withheld: u64) -> Text<ROOM>
    ensures { result ≡ ended (codes "back" ++ spaced (decimal refund) ++ counted (codes "withheld") withheld) }
{
    let mut line = Text::of_bytes(b"back");
    line.push_spaced(refund);
    line.push_count(b"withheld", withheld);
    line.push_bytes(b"\n");
    line
}

/// The numbers of a leg of a request.
#[derive(Clone, Copy)]
pub(crate) struct LegNumbers {
    pub(crate) authorised: u16,
    pub(crate) left: u16,
    pub(crate) protected: u16,
    pub(crate) needs: u16,
}

impl LegNumbers {
    ghost use Rattle.std.specs.Prelude.{◌-◌, nat_lt};

    // Whether the leg is short: what is needed and what is protected are more than what is left.
    pub(crate) fn is_short(&self) -> bool
        ensures { result ≡ nat_lt self.now.left (self.now.needs + self.now.protected) }
    {
        u32::from(self.left) < u32::from(self.needs) + u32::from(self.protected)
    }

    // By how many seats, where it is.
    fn short_by(&self) -> u32
        requires { nat_lt self.now.left (self.now.needs + self.now.protected) ≡ true }
        ensures { result ≡ self.now.needs + self.now.protected - self.now.left }
    {
        u32::from(self.needs) + u32::from(self.protected) - u32::from(self.left)
    }
}

// Appends whether a leg covers the request, or by how many seats it is short.
fn push_covering(line: &mut Text<ROOM>, leg: &LegNumbers)
    requires { length line.old ≤ 240 }
    ensures text { line.new
        ≡ line.old ++ (if nat_lt leg.now.left (leg.now.needs + leg.now.protected)
        then counted (codes "short") (leg.now.needs + leg.now.protected - leg.now.left) else spaced (codes "covers")) }
    ensures length { length line.new ≤ length line.old + 30 }
{
    if leg.is_short() {
        line.push_count(b"short", u64::from(leg.short_by()));
    } else {
        line.push_bytes(b" covers");
    }
}

/// A leg of a request: its seats, and whether it covers it.
pub(crate) fn leg(name: &Name, leg: &LegNumbers) -> Text<ROOM>
    requires { leg.now.left ≤ leg.now.authorised }
    ensures { result
        ≡ leg_line (record {
          name = name.now;
          authorised = leg.now.authorised;
          sold = leg.now.authorised - leg.now.left;
          left = leg.now.left;
          protected = leg.now.protected;
          needs = leg.now.needs;
          price = 0;
        }) }
{
    let mut line = named(b"leg", name);
    let sold = leg.authorised - leg.left;
    push_pair(
        &mut line,
        b"authorised",
        u64::from(leg.authorised),
        b"sold",
        u64::from(sold),
    );
    push_pair(
        &mut line,
        b"left",
        u64::from(leg.left),
        b"protected",
        u64::from(leg.protected),
    );
    push_counted(&mut line, b"needs", u64::from(leg.needs));
    push_covering(&mut line, leg);
    line.push_bytes(b"\n");
    line
}

// Appends that the fare reaches the sum of the bid prices, or by how much it is below.
#[tactic(auto, using(nrm_text::proofs::Fractions::short_fraction))]
fn push_reaching(line: &mut Text<ROOM>, fare: u128, sum: u64, den: u64)
    requires some { 1 ≤ den }
    requires fare { fare < 2 ^ 100 }
    requires room { length line.old ≤ 240 }
    ensures text { line.new
        ≡ line.old ++ (if nat_lt fare sum then spaced (codes "below") ++ spaced (fraction_text (pos (sum - fare) over den))
        else spaced (codes "reaches")) }
    ensures length { length line.new ≤ length line.old + 90 }
{
    if fare < u128::from(sum) {
        line.push_bytes(b" below ");
        line.push_fraction((u128::from(sum) - fare) as i128, u128::from(den));
    } else {
        line.push_bytes(b" reaches");
    }
}

/// The sum of the bid prices, and whether the fare reaches it.
#[tactic(auto, using(nrm_text::proofs::Fractions::short_fraction))]
pub(crate) fn sum(fare: u32, sum: u64, den: u64) -> Text<ROOM>
    requires some { 1 ≤ den }
    ensures { result
        ≡ ended (codes "sum" ++ spaced (fraction_text (pos sum over den)) ++ counted (codes "fare") fare
        ++ (if nat_lt (den * fare) sum then spaced (codes "below") ++ spaced (fraction_text (pos (sum - den * fare) over den))
        else spaced (codes "reaches"))) }
{
    let mut line = Text::of_bytes(b"sum ");
    line.push_fraction(i128::from(sum), u128::from(den));
    line.push_count(b"fare", u64::from(fare));
    push_reaching(&mut line, u128::from(den) * u128::from(fare), sum, den);
    line.push_bytes(b"\n");
    line
}

/// A booking, what it is worth, and its percentage.
pub(crate) fn booking(number: u64, product: &Name, party: u16, fare: u32, refund: u8) -> Text<ROOM>
    ensures { result
        ≡ ended (codes "booking" ++ spaced (decimal number) ++ spaced (codes "product") ++ spaced product.now ++ counted (codes "party") party
        ++ counted (codes "fare") fare ++ counted (codes "worth") (party * fare) ++ counted (codes "refund") refund) }
{
    let mut line = Text::of_bytes(b"booking");
    line.push_spaced(number);
    line.push_bytes(b" product ");
    line.push_name(product);
    line.push_count(b"party", u64::from(party));
    line.push_count(b"fare", u64::from(fare));
    line.push_count(b"worth", u64::from(party) * u64::from(fare));
    line.push_count(b"refund", u64::from(refund));
    line.push_bytes(b"\n");
    line
}
