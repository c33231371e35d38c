// What every call of the library answers.
#![tactic(auto)]

ghost use Rattle.std.specs.Prelude.{◌≡◌};
ghost use Rattle.base.specs.declared.refusal.OutputError.{OutputError};
ghost use Rattle.timetable.specs.Outputs.{reply_of};
ghost use Rattle.replies.specs.Replies.{sized, plain, placed, of_answer, of_reply};
ghost use Rattle.replies.specs.Calls.{told_error, output_error, removed_reply, length_reply};

use base::refusal::{FileError, OutputError, Refusal};
use timetable::Answer;

// By value, as C has it: 24 bytes.
#[repr(C)]
#[derive(Clone, Copy, Debug, PartialEq, Eq, Hash)]
pub struct Reply {
    // Document 01's number, or 0.
    pub refusal: u8,
    // The visits that an edit removed.
    pub removed: u8,
    // Which of the files is refused: 1 the network, 2 the other; 0 for none.
    pub file: u8,
    // The place of that file's refusal.
    pub place: usize,
    // How many numbers or bytes were written or read; with 13, how many are needed.
    pub length: usize,
}

// Why a call answers nothing else.
#[derive(Clone, Copy, Debug, PartialEq, Eq, Hash)]
pub enum CallError {
    Refused(Refusal),
    // A file, 1 the network and 2 the other.
    InFile(u8, FileError),
    // 13, with how many are needed.
    TooShort(usize),
}

impl From<Refusal> for CallError {
    ghost use Rattle.replies.specs.declared.CallError.{CallError};

    ghost from_gives = { λ r e. e ≡ CallError.Refused r };

    fn from(r: Refusal) -> CallError {
        CallError::Refused(r)
    }
}

impl From<OutputError> for CallError {
    ghost from_gives = { λ o e. e ≡ output_error o };

    fn from(error: OutputError) -> CallError {
        match error {
            OutputError::Refused(refusal) => CallError::Refused(refusal),
            OutputError::TooShort(needed) => CallError::TooShort(needed),
        }
    }
}

impl From<CallError> for Reply {
    ghost from_gives = { λ e r. r ≡ told_error e };

    fn from(error: CallError) -> Reply {
        match error {
            CallError::Refused(refusal) => plain(u8::from(refusal)),
            CallError::InFile(file, error) => placed(file, u8::from(error.refusal), error.place),
            CallError::TooShort(needed) => sized(13, needed),
        }
    }
}

// Of an edit: how many visits it removed.
impl From<Result<u8, CallError>> for Reply {
    ghost from_gives = { λ a r. r ≡ removed_reply a };

    fn from(answer: Result<u8, CallError>) -> Reply {
        match answer {
            Ok(removed) => Reply {
                removed,
                ..plain(0)
            },
            Err(error) => Reply::from(error),
        }
    }
}

// Of a call that reads or writes so many bytes or numbers.
impl From<Result<usize, CallError>> for Reply {
    ghost from_gives = { λ a r. r ≡ length_reply a };

    fn from(answer: Result<usize, CallError>) -> Reply {
        match answer {
            Ok(length) => sized(0, length),
            Err(error) => Reply::from(error),
        }
    }
}

pub fn plain(k: u8) -> Reply
    ensures { result ≡ plain k }
{
    sized(k, 0)
}

pub fn placed(file: u8, k: u8, p: usize) -> Reply
    ensures { result ≡ placed file k p }
{
    Reply {
        file,
        place: p,
        ..plain(k)
    }
}

pub fn sized(k: u8, length: usize) -> Reply
    ensures { result ≡ sized k length }
{
    Reply {
        refusal: k,
        removed: 0,
        file: 0,
        place: 0,
        length,
    }
}

pub fn of_answer(a: Answer) -> Reply
    ensures { result ≡ of_answer a }
{
    Reply {
        removed: a.removed,
        ..plain(a.refusal)
    }
}

#[tactic(auto, unfolding(timetable::specs::Outputs::opened, crate::specs::Replies::opened))]
pub fn of_result(o: Result<usize, OutputError>) -> Reply
    ensures { result ≡ of_reply (reply_of o) }
{
    match o {
        Ok(k) => sized(0, k),
        Err(error) => Reply::from(CallError::from(error)),
    }
}
