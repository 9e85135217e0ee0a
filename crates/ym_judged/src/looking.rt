//! The look at what a receiver has stored, and what is told where it cannot be looked at.

ghost use Rattle.std.specs.Prelude.{◌≡◌, IfErr, IfOk};
ghost use Rattle.std.specs.Result.{IsErrAnd};
ghost use Rattle.ym_judged.specs.Judged.{IsMidway};

use crate::judge_message::JudgeMessage;
use crate::judged_files::{Look, Unseen, look_at_all, unseen_folder};
use std::alloc::Global;
use std::fs::{File, Files};
use ym_answer::CommandFault;
use ym_judging::{Outcome, files_of};
use ym_streams::Output;

/// Tells what cannot be looked at.
fn refuse_look<T, E: Output>(err: &mut E, unseen: &Unseen) -> Result<T, CommandFault>
    ensures { IsErrAnd result (λ why. IsMidway why) }
{
    err.put_line(JudgeMessage::Unseen(unseen.path.as_str(), unseen.why))?;
    Err(CommandFault::Device)
}

/// Sees, where a folder is named that a receiver stores in, that files there can be looked at.
pub(crate) fn see_folder<R: Files, E: Output>(
    rt: &R,
    alloc: Global,
    stored: Option<&str>,
    err: &mut E,
) -> Result<(), CommandFault>
    ensures { IfErr result (λ why. IsMidway why) }
{
    let Some(dir) = stored else {
        return Ok(());
    };
    match unseen_folder(rt, alloc, dir)? {
        Some(folder) => refuse_look(err, &folder),
        None => Ok(()),
    }
}

/// The outcome of a case, with what a look at the stored files says.
pub(crate) fn looked_at<R: Files<File = File>, E: Output>(
    rt: &R,
    alloc: Global,
    stored: Option<&str>,
    outcome: Outcome,
    err: &mut E,
) -> Result<Outcome, CommandFault>
    ensures why { IfErr result (λ why. IsMidway why) }
    ensures line { IfOk result (λ it. it.has_failed ≡ outcome.has_failed) }
{
    let (Some(dir), Some(parcel)) = (stored, outcome.sent) else {
        return Ok(outcome);
    };
    match look_at_all(rt, alloc, dir, files_of(parcel), outcome.told)? {
        Look::Exact => Ok(outcome),
        Look::Lost => Ok(Outcome {
            is_exact: false,
            ..outcome
        }),
        Look::Hidden(unseen) => refuse_look(err, &unseen),
    }
}
