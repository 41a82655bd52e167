//! The words of the command line, and those for modes.
ghost use Rattle.std.specs.Prelude.{◌≡◌, string_bytes, IfErr};
ghost use Rattle.std.specs.IoError.{error_kind};
ghost use Rattle.nrm_common_cli.specs.Words.{mode_of};

use nrm_model::Mode;
use nrm_text::is_word;
use std::env;
use std::io::{self, ErrorKind};
use std::rt::HostRuntime;

/// The words of the command line, without the program's own name. If the system doesn't give them, since one is no text, there are
/// none.
///
/// # Errors
/// Memory runs out.
pub fn words_given(rt: &HostRuntime) -> io::Result<Vec<String>>
    ensures memory { IfErr result (λ error. error_kind error ≡ ErrorKind.OutOfMemory) }
{
    match env::args(rt) {
        Ok(words) => Ok(words.skip(1).collect(rt.alloc())?),
        Err(error) if error.kind() == ErrorKind::OutOfMemory => Err(error),
        Err(_) => Ok(Vec::new(rt.alloc())),
    }
}

/// The mode that a word stands for: `first`, `bid` or `davn`. `None` for every other word.
pub fn mode_in(word: &String) -> Option<Mode>
    ensures { result ≡ mode_of (string_bytes word.now) }
{
    if is_word(word.as_bytes(), b"first") {
        Some(Mode::FirstCome)
    } else if is_word(word.as_bytes(), b"bid") {
        Some(Mode::Bid)
    } else if is_word(word.as_bytes(), b"davn") {
        Some(Mode::Davn)
    } else {
        None
    }
}
