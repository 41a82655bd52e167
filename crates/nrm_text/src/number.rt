//! Whole numbers, as they are read.
ghost use Rattle.std.specs.Prelude.{◌≡◌, nat_lt, if◌then◌else◌};
ghost use Rattle.std.specs.List.{list_all};
ghost use Rattle.std.specs.Char.{is_ascii_digit};
ghost use Rattle.nrm_text.specs.Numbers.{value_of, whole_up_to};
ghost use Rattle.nrm_text.specs.declared.number.NumberFault.TheVariants.{Off, Over};

/// Why bytes give no number: they are no whole number, or it is above the greatest.
#[derive(Clone, Copy, Debug, PartialEq, Eq)]
pub enum NumberFault {
    /// The bytes are no whole number.
    Off,
    /// The number is above the greatest.
    Over,
}

// Whether each byte is a digit.
fn are_digits(bytes: &[u8]) -> bool
    ensures { result ≡ list_all is_ascii_digit bytes.now }
{
    bytes.iter().all(|c| c.is_ascii_digit())
}

// What these bytes are whose first digits write more than the greatest number.
fn over_or_off(bytes: &[u8]) -> NumberFault
    ensures { result ≡ (if list_all is_ascii_digit bytes.now then Over else Off) }
{
    if are_digits(bytes) {
        NumberFault::Over
    } else {
        NumberFault::Off
    }
}

// The number that these bytes write where each is a digit, in one pass.
#[inline(always)]
fn value_up_to(bytes: &[u8], max: u64) -> Result<u64, NumberFault>
    ensures { result ≡ (if list_all is_ascii_digit bytes.now then (if nat_lt max (value_of bytes.now) then Err Over else Ok
        (value_of bytes.now)) else Err Off) }
{
    let most = max / 10;
    let mut value: u64 = 0;
    for c in bytes {
        if !c.is_ascii_digit() {
            return Err(NumberFault::Off);
        }
        let digit = u64::from(*c - b'0');
        if value > most || digit > max - value * 10 {
            return Err(over_or_off(bytes));
        }
        value = value * 10 + digit;
    }
    Ok(value)
}

/// Reads a whole number up to the greatest: `0`, or a digit 1 to 9 and further digits.
///
/// # Errors
/// `Off` exactly where the bytes are no whole number; else `Over` exactly where the number is above `max`.
#[inline(always)]
pub fn read_whole(bytes: &[u8], max: u64) -> Result<u64, NumberFault>
    ensures { result ≡ whole_up_to max bytes.now }
{
    match bytes {
        [] => Err(NumberFault::Off),
        [first, _, ..] if *first == b'0' => Err(NumberFault::Off),
        _ => value_up_to(bytes, max),
    }
}
