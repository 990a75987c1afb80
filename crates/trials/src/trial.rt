// What a line asks for, and the answer to it.
ghost use Rattle.std.specs.Prelude.{◌≡◌, IfOk, Some};
ghost use Rattle.trials.specs.Answers.{Judged, Right, Tried, line_of, name_of, written};
ghost use Rattle.trials.specs.Hex.{Given};

use hex::FromHexError;
use pods::{Surveyed, survey};
use refusals::Refusal;
use std::alloc::{AllocError, Global};
use std::fmt;
use std::str::FromStr;
use thiserror::Error;
use utf8::check;

// What can be asked of some bytes.
#[derive(Clone, Copy)]
enum Task {
    Survey,
    Text,
}

// What is found: the survey of a cue or its refusal, or whether the bytes are text.
#[derive(Clone, Copy)]
pub enum Answer {
    Cue(Result<Surveyed, Refusal>),
    Text(bool),
}

// A task, the bytes that it is for, as digits, and the answer that is expected.
#[derive(Clone, Copy)]
struct Trial<'a> {
    task: Task,
    digits: &'a str,
    expected: &'a str,
}

// Why a line is not tried.
#[derive(Clone, Copy, Debug, Error)]
pub enum Untried {
    #[error("not read")]
    Unread,
    #[error("memory allocation failed")]
    OutOfMemory,
}

impl From<FromHexError> for Untried {
    fn from(e: FromHexError) -> Untried {
        match e {
            FromHexError::OutOfMemory => Untried::OutOfMemory,
            _ => Untried::Unread,
        }
    }
}

impl From<AllocError> for Untried {
    fn from(_: AllocError) -> Untried {
        Untried::OutOfMemory
    }
}

impl fmt::Display for Answer {
    ghost output = { λ a. Some (written a) };

    fn fmt<W: fmt::Write>(&self, f: &mut fmt::Formatter<W>) -> fmt::Result {
        match self {
            Answer::Cue(Ok(Surveyed { rows, used })) => write!(f, "rows {rows} used {used}"),
            Answer::Cue(Err(refusal)) => write!(f, "{refusal}"),
            Answer::Text(true) => f.write_str("yes"),
            Answer::Text(false) => f.write_str("no"),
        }
    }
}

impl FromStr for Task {
    type Err = Untried;

    ghost from_str_gives = { λ name r. IfOk r (λ task. name ≡ name_of task) };

    fn from_str(name: &str) -> Result<Task, Untried> {
        match name {
            "survey" => Ok(Task::Survey),
            "text" => Ok(Task::Text),
            _ => Err(Untried::Unread),
        }
    }
}

impl Task {
    // The answer to it for some bytes.
    fn answer(self, bytes: &[u8]) -> Answer
        ensures { Right self bytes.now result }
    {
        match self {
            Task::Survey => Answer::Cue(survey(bytes)),
            Task::Text => Answer::Text(check(bytes)),
        }
    }
}

impl Trial<'_> {
    // The trial that a line spells.
    fn parse(line: &str) -> Result<Trial<'_>, Untried>
        ensures { IfOk result (λ t. line.now ≡ line_of t.task t.digits.now t.expected.now) }
    {
        let (name, rest) = line.split_once(' ').ok_or(Untried::Unread)?;
        let task = name.parse()?;
        let (digits, expected) = rest.split_once(" = ").ok_or(Untried::Unread)?;
        Ok(Trial {
            task,
            digits,
            expected,
        })
    }

    // The bytes that its digits spell, with no upper-case letter; `-` spells none.
    fn bytes(self, heap: Global) -> Result<Vec<u8>, Untried>
        ensures { IfOk result (λ bytes. Given self.entry.digits.now bytes.items) }
    {
        match self.digits.as_bytes() {
            b"-" => Ok(Vec::new(heap)),
            digits if digits.iter().any(u8::is_ascii_uppercase) => Err(Untried::Unread),
            digits => Ok(hex::decode(heap, digits)?),
        }
    }

    // The answer to it for `bytes`, where that is not the expected one.
    fn other_answer(self, heap: Global, bytes: &[u8]) -> Result<Option<Answer>, Untried>
        requires { Given self.digits.now bytes.now }
        ensures { IfOk result (Judged self.entry.task self.entry.digits.now self.entry.expected.now bytes.now) }
    {
        let answer = self.task.answer(bytes);
        let shown = format!(in heap; "{answer}")?;
        Ok((shown.as_str() != self.expected).then_some(answer))
    }
}

// The answer that is found for a line, where that is not the expected one.
pub fn try_line(heap: Global, line: &str) -> Result<Option<Answer>, Untried>
    ensures { IfOk result (Tried line.now) }
{
    let trial = Trial::parse(line)?;
    let bytes = trial.bytes(heap)?;
    trial.other_answer(heap, &bytes)
}
