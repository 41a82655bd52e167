//! What a program says of itself: what it does, or its version, if its only word asks for that.
ghost use Rattle.std.specs.Prelude.{◌≡◌, ◌≤◌, [], map, length, option_map, string_bytes, IfNone, IfSome, OnErr, OnOk};
ghost use Rattle.std.specs.Io.KnownBytes.{Appends};
ghost use Rattle.nrm_edge.specs.Causes.{HasCause};
ghost use Rattle.nrm_edge.specs.Pieces.{AppendsCut};
ghost use Rattle.nrm_common_cli.specs.About.{Answers, question_of, text_of};

use crate::line::send_line;
use nrm_edge::{Failed, Sink};
use nrm_text::{Line, is_word};

/// The version of the programs, which is that of the file VERSION at the top.
pub const VERSION: &[u8] = b"v2.1.0";

/// What a word asks of the program itself.
#[derive(Clone, Copy)]
pub(crate) enum Question {
    /// What it does, and how it is called.
    Help,
    /// Which version it is.
    Version,
}

// What the words ask of the program itself, if they do.
fn question_in(words: &[String]) -> Option<Question>
    ensures { result ≡ question_of (map string_bytes words.now) }
{
    match words {
        [word] if is_word(word.as_bytes(), b"--help") => Some(Question::Help),
        [word] if is_word(word.as_bytes(), b"--version") => Some(Question::Version),
        _ => None,
    }
}

// The line of a program's name and version.
fn version_line(name: &[u8]) -> Line
    requires { length name.now ≤ 64 }
    ensures { result ≡ text_of name.now [] Question.Version }
{
    let mut line = Line::of_bytes(name);
    line.push_bytes(b" ");
    line.push_bytes(VERSION);
    line.push_bytes(b"\n");
    line
}

// Puts the answer to a question, and sends it on.
fn answer<K: Sink>(question: Question, name: &[u8], help: &[u8], sink: &mut K) -> Result<(), Failed>
    requires { length name.now ≤ 64 }
    ensures whole { OnOk result (Appends (K.held sink.old) (K.held sink.new) (text_of name.now help.now question)) }
    ensures cut { OnErr result (AppendsCut (K.held sink.old) (K.held sink.new) (text_of name.now help.now question)) }
    ensures sent { OnOk result (K.unsent sink.new ≡ []) }
    ensures cause { HasCause (K.faults sink.old) (K.faults sink.new) result }
{
    match question {
        Question::Help => send_line(sink, help),
        Question::Version => send_line(sink, version_line(name).bytes()),
    }
}

/// Answers the words (without the program's own name) if they ask for nothing but a text of the program of this name: `--help` for its help,
/// `--version` for its version. The text was sent on, or the output failed; `None` for all other words, of which nothing is put.
pub fn answer_if_asked<K: Sink>(
    words: &[String],
    name: &[u8],
    help: &[u8],
    sink: &mut K,
) -> Option<Result<(), Failed>>
    requires { length name.now ≤ 64 }
    ensures answers { Answers (option_map (text_of name.now help.now) (question_of (map string_bytes words.now)))
        (K.held sink.old) (K.held sink.new) (K.faults sink.old) (K.faults sink.new) result }
    ensures sent { IfSome result (λ told. OnOk told (K.unsent sink.new ≡ [])) }
    ensures left { IfNone result (sink.new ≡ sink.old) }
{
    match question_in(words) {
        Some(question) => Some(answer(question, name, help, sink)),
        None => None,
    }
}
