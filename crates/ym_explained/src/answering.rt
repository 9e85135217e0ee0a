//! What `explain` answers, and says of it, behind a telling.

ghost use Rattle.std.specs.Prelude.{◌≡◌, ◌≤◌, ◌⊎◌, IfOk};
ghost use Rattle.ym_answer.specs.Page.{page};
ghost use Rattle.ym_explained.specs.Explaining.{AnswersCapture, AnswersChart, AnswersClosed, AnswersOpened, AnswersTold, Refuses, unread_pair, untold_words};

use crate::chart_file::ChartFault;
use crate::explaining::Form;
use crate::opened::Seen;
use crate::untold::Untold;
use std::io;
use ym_answer::CommandFault;
use ym_explain::Verdict;
use ym_inspect::InspectFault;
use ym_streams::{Output, StreamFault};
use ym_text::Reason;

/// The status where all was told.
const TOLD: u8 = 0;

/// The status where a capture was not told to its end.
const UNTOLD: u8 = 1;

/// Writes the line that says this. The answer is this status.
pub(crate) fn refuse<E: Output>(
    err: &mut E,
    why: Untold<'_>,
    status: u8,
) -> Result<u8, CommandFault>
    ensures gives { Refuses (untold_words why.entry) status
        (page (E.contents err.old) (E.failures err.old)) result
        (page (E.contents err.new) (E.failures err.new)) }
    ensures status { IfOk result (λ it. it ≡ status) }
{
    match err.put_line(why) {
        Ok(()) => Ok(status),
        Err(StreamFault) => Err(CommandFault::Device),
    }
}

/// The answer where what has this name was told so. The one is told where it cannot be read.
pub(crate) fn answer<E: Output>(
    err: &mut E,
    name: &str,
    unread: Untold<'_>,
    told: Result<Verdict, InspectFault>,
) -> Result<u8, CommandFault>
    ensures gives { AnswersCapture name.now (untold_words unread.entry) told
        (page (E.contents err.old) (E.failures err.old)) result
        (page (E.contents err.new) (E.failures err.new)) }
    ensures status { IfOk result (λ status. status ≤ 1) }
{
    match told {
        Ok(_) => Ok(TOLD),
        Err(InspectFault::Memory) => Err(CommandFault::Memory),
        Err(InspectFault::Write) => Err(CommandFault::Device),
        Err(InspectFault::Read) => refuse(err, unread, UNTOLD),
        Err(InspectFault::Endless) => refuse(err, Untold::Endless(name), UNTOLD),
        Err(InspectFault::Line { number, why }) => {
            refuse(err, Untold::NoRecord(name, number, why), UNTOLD)
        }
        Err(InspectFault::Cut(number)) => refuse(err, Untold::Cut(name, number), UNTOLD),
        Err(InspectFault::Pcapng) => refuse(err, Untold::Pcapng(name), UNTOLD),
        Err(InspectFault::Packet { position, why }) => {
            refuse(err, Untold::NoCapture(name, position, why), UNTOLD)
        }
    }
}

/// The answer where all of the file at this path was told in this form. Where its ways were to be
/// turned, and it is a record, a line says that they were not.
fn answer_told<E: Output>(
    err: &mut E,
    path: &str,
    form: Form,
    is_record: bool,
) -> Result<u8, CommandFault>
    ensures gives { AnswersTold form is_record path.now
        (page (E.contents err.old) (E.failures err.old)) result
        (page (E.contents err.new) (E.failures err.new)) }
    ensures status { IfOk result (λ status. status ≤ 1) }
{
    match form {
        Form::Capture(true) => {
            if is_record {
                refuse(err, Untold::Unturned(path), TOLD)
            } else {
                Ok(TOLD)
            }
        }
        Form::Capture(false) => Ok(TOLD),
        Form::OneWay(_) => Ok(TOLD),
    }
}

/// The answer where the file at this path was told so in this form, and this was seen of it.
pub(crate) fn answer_opened<E: Output>(
    err: &mut E,
    path: &str,
    form: Form,
    seen: Seen,
    told: Result<Verdict, InspectFault>,
) -> Result<u8, CommandFault>
    ensures gives { AnswersOpened form seen path.now told
        (page (E.contents err.old) (E.failures err.old)) result
        (page (E.contents err.new) (E.failures err.new)) }
    ensures status { IfOk result (λ status. status ≤ 1) }
{
    match told {
        Ok(_) => answer_told(err, path, form, seen.is_record),
        Err(fault) => answer(err, path, Untold::Unread(path, seen.why), Err(fault)),
    }
}

/// Which of two files cannot be read: the first of which a read failed, for the reason of that.
pub(crate) fn unread_of<'a>(
    there: &'a str,
    back: &'a str,
    why_there: Option<Reason>,
    why_back: Option<Reason>,
) -> Untold<'a>
    ensures { untold_words result
        ≡ unread_pair there.entry.now back.entry.now why_there why_back }
{
    match why_there {
        Some(why) => Untold::Unread(there, Some(why)),
        None => Untold::Unread(back, why_back),
    }
}

/// The answer where the file at this path cannot be opened.
pub(crate) fn answer_closed<E: Output>(
    err: &mut E,
    path: &str,
    error: io::Error,
) -> Result<u8, CommandFault>
    ensures gives { AnswersClosed path.now
        (page (E.contents err.old) (E.failures err.old)) result
        (page (E.contents err.new) (E.failures err.new)) }
    ensures status { IfOk result (λ status. status ≤ 1) }
{
    if error.kind() == io::ErrorKind::OutOfMemory {
        return Err(CommandFault::Memory);
    }
    refuse(err, Untold::Closed(path, Reason::of(&error)), UNTOLD)
}

/// The answer where a telling had this one, and its chart was written so at this path.
pub(crate) fn answer_chart<E: Output>(
    err: &mut E,
    path: &str,
    status: u8,
    written: Result<(), ChartFault>,
) -> Result<u8, CommandFault>
    ensures gives { AnswersChart path.now status
        (page (E.contents err.old) (E.failures err.old)) result
        (page (E.contents err.new) (E.failures err.new)) }
    ensures status { IfOk result (λ it. (it ≡ status) ⊎ (it ≡ 1)) }
{
    match written {
        Ok(()) => Ok(status),
        Err(ChartFault::There) => refuse(err, Untold::ChartThere(path), UNTOLD),
        Err(ChartFault::System(error)) => {
            let why = Reason::of(&error);
            refuse(err, Untold::ChartUnwritten(path, why), UNTOLD)
        }
    }
}
