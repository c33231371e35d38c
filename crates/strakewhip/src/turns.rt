// Network files of an earlier form, turned into the newest.
ghost use Rattle.std.specs.Prelude.{◌≡◌};
ghost use Rattle.turning.specs.Answers as answers;
ghost use Rattle.replies.specs.Replies.{of_reply_in};
ghost use Rattle.strakewhip.specs.Calls.{form_of, turn_told, turn_left};

use replies::{CallError, Reply};
use timetable::NetworkForm;
use turning::TurnError;

#[tactic(auto, unfolding(turning::specs::Answers::reply, replies::specs::Replies::opened))]
fn of_turned(t: Result<usize, TurnError>) -> Reply
    ensures { result ≡ of_reply_in 1 (answers.reply t) }
{
    match t {
        Ok(length) => replies::sized(0, length),
        Err(TurnError::InFile(e)) => Reply::from(CallError::InFile(1, e)),
        Err(TurnError::TooShort(needed)) => Reply::from(CallError::TooShort(needed)),
    }
}

// Form 1 is W1's. 3 for a form that there is not, the file's refusal, 13.
#[unsafe(no_mangle)]
pub extern "C" fn strakewhip_turn(form: u8, file: &[u8], out: &mut [u8]) -> Reply
    ensures { (result ≡ turn_told (form_of form) file.now out.old) × (out.new ≡ turn_left (form_of form) file.now out.old) }
{
    if form != 1 {
        return replies::plain(3);
    }
    of_turned(turning::turn(file, NetworkForm::OneTime, out))
}
