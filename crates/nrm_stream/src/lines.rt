//! Lines: the bytes cut at each line feed. A last part that isn't empty and isn't ended counts too.
ghost use Rattle.std.specs.Prelude.{◌≡◌, ◌<◌, ◌∷◌, [], length, MatchOption};
ghost use Rattle.nrm_stream.specs.Lines.{lines_of};

use crate::cut::split_once;

/// The first line of the bytes, without its line feed, and the bytes after it. `None` exactly where there is no line.
pub fn next_line(bytes: &[u8]) -> Option<(&[u8], &[u8])>
    ensures { MatchOption result (lines_of bytes.now ≡ [])
        (λ next. (lines_of bytes.now ≡ next.0.now ∷ lines_of next.1.now) × (length next.1.now < length bytes.now)) }
{
    if bytes.is_empty() {
        return None;
    }
    match split_once(bytes, b'\n') {
        Some(next) => Some(next),
        None => Some((bytes, &[])),
    }
}
