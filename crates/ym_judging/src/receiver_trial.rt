//! A receiver that is tried: files are sent to it.

ghost use Rattle.std.specs.Prelude.{◌≡◌, ◌+◌, ℕ, List, IfOk, OnOk, Some};
ghost use Rattle.ym_judge.specs.Acts.{answer_in};
ghost use Rattle.ym_judge.specs.Noted.{no_notes};
ghost use Rattle.ym_judging.specs.Listening.{said_by};
ghost use Rattle.ym_judging.specs.Manners.{twisted_as};
ghost use Rattle.ym_judging.specs.JudgedSteps.{GoesOn, GrowsBy, IsNoted};
ghost use Rattle.ym_judging.specs.declared.receiver_trial.TheConstants.{MOST_TURNS};

use crate::line::{ANSWER_MS, Ear, FIRST_MS, Line, STILL_MS};
use crate::manner::{Manner, manner_of};
use crate::outcome::Outcome;
use crate::payload::{Payload, files_of, parcel_of};
use crate::said::{has_cancelled, is_acknowledged, joined, said_by};
use crate::sent_frame::{counts_of, sent_frame};
use crate::turn::{Heard, Replies, Turn};
use crate::twisted::{frame_twist, is_everywhere, rest_ms, twisted};
use std::alloc::{AllocError, Global};
use ym_core::RecvState;
use ym_frame::{CAN, Reply};
use ym_judge::{
    Act, Answers, Case, Claims, Fits, Notes, Passage, SenderTwin, Spot, Twins, Twist, answered,
    asked_of_receiver, delivered, gave, spot_of,
};
use ym_port::Wire;

/// How many turns a case has at most.
const MOST_TURNS: u32 = 64;

/// Nothing was delivered, and nothing is answered.
const NO_ANSWERS: Answers = Answers {
    twice: Reply::Silence,
    once: Reply::Silence,
};

/// A session with a receiver that is tried.
#[derive(Drop)]
struct ReceiverTrial<'a> {
    case: Case,
    files: &'static [Payload],
    /// The sender of the reference, which hears what the receiver answers.
    sender: SenderTwin<'a>,
    /// The receivers of the reference, which hear what is delivered.
    twins: Twins,
    /// The same, which hear a frame also behind other bytes.
    keen: Twins,
    fits: Fits,
    claims: Claims,
    /// How many EOTs of the file were sent.
    eots: u8,
    /// The turn of the case is over.
    is_used: bool,
    /// The peer has cancelled.
    is_cancelled: bool,
    /// The reference has ended there, and not for what the peer did before.
    is_refused: bool,
    notes: Notes,
}

/// Whether a frame stands whole in what goes out, behind other bytes.
fn is_behind_others(twist: Option<Twist>) -> bool {
    matches!(twist, Some(Twist::Junk | Twist::LoneCan))
}

impl<'a> ReceiverTrial<'a> {
    /// Nothing was sent.
    fn new(case: Case, files: &'static [Payload], counts: &'a [u64]) -> ReceiverTrial<'a>
        ensures notes { result.notes ≡ no_notes }
        ensures case { result.case ≡ case }
    {
        ReceiverTrial {
            case,
            files,
            sender: SenderTwin::new(counts),
            twins: Twins::new(),
            keen: Twins::new(),
            fits: Fits {
                twice: true,
                once: true,
            },
            claims: Claims::new(),
            eots: 0,
            is_used: false,
            is_cancelled: false,
            is_refused: false,
            notes: Notes::new(),
        }
    }

    /// Whether the session has ended.
    fn is_over(&self) -> bool {
        self.sender.has_ended() || self.is_refused
    }

    /// Whether the peer has heard the end of the batch: its answer ended the sender.
    fn has_finished(&self) -> bool {
        self.sender.has_finished() && !self.is_cancelled
    }

    /// Whether it has ended as it does with the reference.
    fn is_finished(&self) -> bool {
        self.has_finished() || self.is_refused
    }

    /// The file that is being sent.
    fn file(&self) -> Option<&'static Payload> {
        match self.claims.begun.checked_sub(1) {
            Some(index) => self.files.get(index),
            None => None,
        }
    }

    /// How long an answer to these bytes is waited for.
    fn patience(&self, out: &[u8]) -> u64 {
        let (_, answers) = self.twins.hear(out);
        if answers == NO_ANSWERS {
            STILL_MS
        } else if self.notes.answered {
            ANSWER_MS
        } else {
            FIRST_MS
        }
    }

    /// What is written now.
    fn turn(&mut self, alloc: Global) -> Result<Turn, AllocError>
        ensures notes { self.new.notes ≡ self.old.notes }
        ensures case { self.new.case ≡ self.old.case }
        ensures out { IfOk result (λ turn. (frame : List ℕ)
            × (turn.out.items ≡ twisted_as turn.twist frame)) }
        ensures twist { IfOk result (λ turn. (twist : Twist) → turn.twist ≡ Some twist →
            (spot : Spot) × (self.old.case ≡ Case.Frame spot twist)) }
    {
        let act = self.sender.asked();
        self.claims = self.claims.behind(act);
        if act == Act::Header {
            self.eots = 0;
        }
        let spot = spot_of(act, self.eots);
        let twist = if self.is_used {
            None
        } else {
            frame_twist(self.case, spot)
        };
        let frame = sent_frame(alloc, self.file(), act)?;
        let out = twisted(alloc, twist, frame)?;
        Ok(Turn {
            act,
            twist,
            out,
            manner: manner_of(spot, twist),
        })
    }

    /// What the reference answers to these bytes, which are delivered.
    fn deliver(&mut self, bytes: &[u8]) -> Answers
        ensures notes { self.new.notes ≡ self.old.notes }
        ensures case { self.new.case ≡ self.old.case }
    {
        let (twins, answers) = self.twins.hear(bytes);
        self.twins = twins;
        answers
    }

    /// What it answers to what came before the turn's last writing.
    fn deliver_before(&mut self, turn: &Turn, heard: &Heard) -> Answers
        ensures notes { self.new.notes ≡ self.old.notes }
        ensures case { self.new.case ≡ self.old.case }
    {
        match turn.manner {
            Manner::Again => self.deliver(turn.out.as_slice()),
            Manner::Once => NO_ANSWERS,
            Manner::Late | Manner::LateStart | Manner::WhenAsked => {
                if heard.before.is_empty() {
                    NO_ANSWERS
                } else {
                    self.deliver(&[])
                }
            }
        }
    }

    /// What it answers to the turn's last writing. One that has heard the end of the batch may go.
    fn deliver_last(&mut self, turn: &Turn, heard: &Heard) -> Answers
        ensures notes { self.new.notes ≡ self.old.notes }
        ensures case { self.new.case ≡ self.old.case }
    {
        if heard.is_gone && self.twins.twice.state() == RecvState::Finished {
            NO_ANSWERS
        } else {
            self.deliver(turn.out.as_slice())
        }
    }

    /// Whether the reference answers these bytes with ACK C.
    fn wants_start(&self, out: &[u8]) -> bool {
        let (_, answers) = self.twins.hear(out);
        answers.twice == Reply::AckStart || answers.once == Reply::AckStart
    }

    /// What the keen ones hear of what is delivered.
    fn keen_bytes(&self, alloc: Global, turn: &Turn) -> Result<Vec<u8>, AllocError> {
        if is_behind_others(turn.twist) {
            sent_frame(alloc, self.file(), turn.act)
        } else {
            Vec::from_slice(alloc, turn.out.as_slice())
        }
    }

    /// Has the keen ones hear what is delivered.
    fn deliver_keenly(&mut self, alloc: Global, turn: &Turn) -> Result<(), AllocError>
        ensures notes { self.new.notes ≡ self.old.notes }
        ensures case { self.new.case ≡ self.old.case }
    {
        let bytes = self.keen_bytes(alloc, turn)?;
        self.keen = self.keen.hear(bytes.as_slice()).0;
        Ok(())
    }

    /// Notes what it did where the reference answers so.
    fn note(&mut self, replies: Replies, said: &[u8], turn: &Turn, tenths: u64)
        ensures noted { GoesOn (answer_in said.now) self.old.notes self.new.notes }
        ensures case { self.new.case ≡ self.old.case }
    {
        let Replies { before, last } = replies;
        let was_twice = self.fits.twice;
        self.fits = self.fits.behind(
            gave(before.twice, last.twice, said),
            gave(before.once, last.once, said),
        );
        let asked = if self.fits.twice || (was_twice && !self.fits.once) {
            asked_of_receiver(before.twice, last.twice)
        } else {
            asked_of_receiver(before.once, last.once)
        };
        self.notes = self.notes.behind(Passage {
            asked,
            did: answered(said),
            tenths,
            fits: self.fits.any(),
            here: turn.twist.is_some() || is_everywhere(self.case),
        });
    }

    /// Takes what it acknowledged of an EOT that was delivered, and whether it has cancelled.
    fn take_claim(&mut self, turn: &Turn, did: Act)
        ensures notes { self.new.notes ≡ self.old.notes }
        ensures case { self.new.case ≡ self.old.case }
    {
        self.is_cancelled = self.is_cancelled || has_cancelled(did);
        if delivered(false, turn.out.as_slice()) == Act::Eot && is_acknowledged(did) {
            self.claims = self.claims.behind(Act::End);
        }
    }

    /// Has the sender hear what it answered.
    fn answer(&mut self, alloc: Global, turn: &Turn, heard: &Heard) -> Result<(), AllocError>
        ensures notes { self.new.notes ≡ self.old.notes }
        ensures case { self.new.case ≡ self.old.case }
    {
        if turn.twist == Some(Twist::AnswerLost) {
            self.sender.hear(&[]);
        } else if heard.before.is_empty() || turn.manner != Manner::Again {
            let answer = joined(alloc, heard.bytes.as_slice(), heard.late.as_slice())?;
            self.sender.hear(answer.as_slice());
        } else {
            self.sender.hear(heard.before.as_slice());
        }
        Ok(())
    }

    /// Takes what came in a turn.
    fn take(&mut self, alloc: Global, turn: &Turn, heard: &Heard) -> Result<(), AllocError>
        ensures noted { OnOk result
            (GoesOn (answer_in (said_by turn.now.twist heard.now)) self.old.notes self.new.notes) }
        ensures case { self.new.case ≡ self.old.case }
    {
        let before = self.deliver_before(turn, heard);
        let last = self.deliver_last(turn, heard);
        self.is_refused = self.twins.has_stopped() && (self.notes.fits || turn.twist.is_some());
        self.deliver_keenly(alloc, turn)?;
        let said = said_by(alloc, turn, heard)?;
        let replies = Replies { before, last };
        self.note(replies, said.as_slice(), turn, heard.tenths);
        self.take_claim(turn, answered(said.as_slice()));
        if turn.act == Act::Eot {
            self.eots = self.eots.saturating_add(1);
        }
        self.is_used = self.is_used || turn.twist.is_some();
        self.answer(alloc, turn, heard)
    }

    /// Takes what came when the session was over.
    fn take_rest(&mut self, said: &[u8], tenths: u64)
        ensures noted { GoesOn (answer_in said.now) self.old.notes self.new.notes }
    {
        let did = answered(said);
        self.notes = self.notes.behind(Passage {
            asked: Act::Nothing,
            did,
            tenths,
            fits: said.is_empty(),
            here: false,
        });
    }

    /// What the case has shown.
    fn outcome(&self, has_failed: bool) -> Outcome
        ensures notes { result.notes ≡ self.now.notes }
        ensures failed { result.has_failed ≡ has_failed }
    {
        Outcome {
            notes: self.notes,
            sent: Some(parcel_of(self.case)),
            told: self.claims.told,
            held: self.twins.held().max(self.keen.held()),
            is_exact: true,
            is_mute: false,
            is_finished: self.is_finished(),
            has_failed,
        }
    }
}

/// Hears what comes when the session is over.
fn hear_rest<W: Wire>(
    line: &mut Line<'_, W>,
    trial: &mut ReceiverTrial<'_>,
) -> Result<(), AllocError>
    ensures { GrowsBy 1 trial.old.notes trial.new.notes }
{
    if trial.is_over() && !line.is_closed {
        let (said, tenths) = line.listen(rest_ms(trial.case))?;
        trial.take_rest(said.as_slice(), tenths);
    }
    Ok(())
}

/// The same, and brings the peer back to rest.
fn end_receiver<W: Wire>(
    line: &mut Line<'_, W>,
    trial: &mut ReceiverTrial<'_>,
) -> Result<(), AllocError>
    ensures { GrowsBy 1 trial.old.notes trial.new.notes }
{
    hear_rest(line, trial)?;
    if !trial.has_finished() {
        line.write(&[CAN, CAN, CAN]);
    }
    Ok(())
}

/// Plays a case to the receiver on this line. Its files are in the outcome: whether they are stored
/// as they were sent is not known here.
pub fn try_receiver<W: Wire>(alloc: Global, wire: &mut W, case: Case) -> Result<Outcome, AllocError>
    ensures { IfOk result (λ outcome. IsNoted (MOST_TURNS + 1) outcome.notes) }
{
    let files = files_of(parcel_of(case));
    let counts = counts_of(alloc, files)?;
    let mut line = Line::new(alloc, wire, Ear::Answers);
    let mut trial = ReceiverTrial::new(case, files, counts.as_slice());
    for _ in 0..MOST_TURNS {
        if line.is_over() || trial.is_over() {
            break;
        }
        let turn = trial.turn(alloc)?;
        let before = line.before(&turn)?;
        let millis = trial.patience(turn.out.as_slice());
        let mut heard = line.behind(&turn, before, millis)?;
        if trial.wants_start(turn.out.as_slice()) {
            line.wait_for_start(&mut heard)?;
        }
        trial.take(alloc, &turn, &heard)?;
    }
    end_receiver(&mut line, &mut trial)?;
    Ok(trial.outcome(line.has_failed))
}
