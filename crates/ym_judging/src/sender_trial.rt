//! A sender that is tried: what it sends is received.

ghost use Rattle.std.specs.Prelude.{◌≡◌, ◌≤◌, ◌+◌, ◌*◌, ℕ, List, IfOk, IfSome, OnOk, Some, length};
ghost use Rattle.ym_judge.specs.Noted.{no_notes};
ghost use Rattle.ym_judging.specs.Manners.{twisted_as};
ghost use Rattle.ym_judging.specs.JudgedSteps.{GoesOn, GrowsBy, IsNoted};
ghost use Rattle.ym_judging.specs.declared.sender_trial.TheConstants.{MOST_TURNS};

use crate::line::{ANSWER_MS, Ear, FIRST_MS, Line, STILL_MS};
use crate::looks::look_of;
use crate::manner::{Manner, manner_of};
use crate::outcome::Outcome;
use crate::turn::{Heard, Turn};
use crate::twisted::{answer_twist, rest_ms, twisted};
use crate::usual::{LONG_COUNTS, SHORT_COUNTS, usual};
use std::alloc::{AllocError, Global};
use ym_core::Heard as Delivery;
use ym_frame::{CAN, Reply, SOH, verdict};
use ym_judge::{
    Act, Case, Claims, Notes, Passage, SenderTwin, Spot, Twins, Twist, delivered, spot_of,
};
use ym_link::Receiver;
use ym_port::Wire;

/// How many turns a case has at most.
const MOST_TURNS: u32 = 64;

/// A session with a sender that is tried.
#[derive(Drop)]
struct SenderTrial {
    alloc: Global,
    case: Case,
    /// The senders of the reference, which hear what is answered: one that uses long blocks, and
    /// one that uses short blocks alone.
    long: SenderTwin<'static>,
    short: SenderTwin<'static>,
    /// The peer uses short blocks alone.
    is_short: bool,
    /// The receivers of the reference, which hear what is delivered.
    twins: Twins,
    /// Another one, which keeps the files.
    store: Receiver,
    claims: Claims,
    /// What is answered now, and to what was sent where.
    reply: Reply,
    spot: Option<Spot>,
    eots: u8,
    is_used: bool,
    /// The first EOT of a file is acknowledged from now on.
    is_single: bool,
    notes: Notes,
}

/// How many bytes the frame has with which these begin. Where none does, all of them.
fn prefix_length(bytes: &[u8]) -> usize
    ensures { result ≤ length bytes.now }
{
    match verdict(bytes) {
        Ok((_, length)) => length.min(bytes.len()),
        Err(_) => bytes.len(),
    }
}

/// The manner in which an answer is written: a second one goes out with the first.
fn answer_manner(manner: Manner) -> Manner {
    match manner {
        Manner::Late | Manner::LateStart => manner,
        Manner::Once | Manner::Again | Manner::WhenAsked => Manner::Once,
    }
}

/// The files of this receiver are all the one that was to be sent.
fn is_exact(alloc: Global, store: &Receiver) -> Result<bool, AllocError> {
    let wanted = usual(alloc)?;
    for file in store.files() {
        if file.bytes() != wanted.as_slice() {
            return Ok(false);
        }
    }
    Ok(true)
}

impl SenderTrial {
    /// Nothing was received: it is asked for a file.
    fn new(alloc: Global, case: Case) -> SenderTrial
        ensures notes { result.notes ≡ no_notes }
        ensures case { result.case ≡ case }
    {
        SenderTrial {
            alloc,
            case,
            long: SenderTwin::new(&LONG_COUNTS),
            short: SenderTwin::new(&SHORT_COUNTS),
            is_short: false,
            twins: Twins::new(),
            store: Receiver::single(alloc),
            claims: Claims::new(),
            reply: Reply::Start,
            spot: Some(Spot::Start),
            eots: 0,
            is_used: false,
            is_single: false,
            notes: Notes::new(),
        }
    }

    /// The sender of the reference that is like the peer.
    fn twin(&self) -> &SenderTwin<'static> {
        if self.is_short {
            &self.short
        } else {
            &self.long
        }
    }

    /// Whether the session has ended.
    fn is_over(&self) -> bool {
        self.twin().has_ended() || self.twins.has_stopped()
    }

    /// Whether it has ended as it does with the reference.
    fn is_finished(&self) -> bool {
        let twin = self.twin();
        twin.has_ended() && twin.asked() != Act::Cancel && !self.twins.has_stopped()
    }

    /// What becomes of the answer that is due.
    fn twist(&self) -> Option<Twist>
        ensures { IfSome result (λ twist. (spot : Spot)
            × (self.now.case ≡ Case.Answer spot twist)) }
    {
        if self.is_used {
            None
        } else {
            answer_twist(self.case, self.spot)
        }
    }

    /// How long a frame is waited for.
    fn patience(&self) -> u64 {
        if self.twin().asked() == Act::Nothing {
            STILL_MS
        } else if self.notes.answered {
            ANSWER_MS
        } else {
            FIRST_MS
        }
    }

    /// Has the senders of the reference hear this.
    fn hear(&mut self, bytes: &[u8])
        ensures notes { self.new.notes ≡ self.old.notes }
        ensures case { self.new.case ≡ self.old.case }
    {
        self.long.hear(bytes);
        self.short.hear(bytes);
    }

    /// What is written now.
    fn turn(&self) -> Result<Turn, AllocError>
        ensures { IfOk result (λ turn. (twist : Twist) → turn.twist ≡ Some twist →
            (spot : Spot) × (self.now.case ≡ Case.Answer spot twist)) }
    {
        let twist = self.twist();
        let manner = manner_of(self.spot, twist);
        let answer = Vec::from_slice(self.alloc, self.reply.as_bytes())?;
        let mut out = twisted(self.alloc, twist, answer)?;
        if manner == Manner::Again {
            out.extend_from_slice(self.reply.as_bytes())?;
        }
        Ok(Turn {
            act: Act::Answer(self.reply),
            twist,
            out,
            manner: answer_manner(manner),
        })
    }

    /// Notes what it did, where the reference does this.
    fn note(&mut self, asked: Act, did: Act, tenths: u64, here: bool)
        ensures noted { GoesOn did self.old.notes self.new.notes }
        ensures case { self.new.case ≡ self.old.case }
    {
        self.notes = self.notes.behind(Passage {
            asked,
            did,
            tenths,
            fits: asked == did,
            here,
        });
    }

    /// Takes what came in a pause.
    fn take_before(&mut self, before: &[u8])
        ensures noted { GrowsBy 1 self.old.notes self.new.notes }
        ensures case { self.new.case ≡ self.old.case }
    {
        if !before.is_empty() {
            self.hear(&[]);
            let asked = self.twin().asked();
            self.note(asked, delivered(false, before), 0, false);
        }
    }

    /// Takes what it sent as a receiver hears it, and what that answers.
    fn receive(&mut self, bytes: &[u8]) -> Result<(), AllocError>
        ensures notes { self.new.notes ≡ self.old.notes }
        ensures case { self.new.case ≡ self.old.case }
    {
        let (twins, answers) = self.twins.hear(bytes);
        self.store.hear(&ym_core::heard(bytes))?;
        self.twins = twins;
        self.reply = if self.is_single {
            answers.once
        } else {
            answers.twice
        };
        Ok(())
    }

    /// Takes where the session is behind this act.
    fn go_on(&mut self, did: Act)
        ensures notes { self.new.notes ≡ self.old.notes }
        ensures case { self.new.case ≡ self.old.case }
    {
        self.claims = self.claims.behind(did);
        if did == Act::Header {
            self.eots = 0;
        }
        self.spot = spot_of(did, self.eots);
        if did == Act::Eot {
            self.eots = self.eots.saturating_add(1);
        }
    }

    /// Takes of which size its first data block is.
    fn take_size(&mut self, did: Act, bytes: &[u8])
        ensures notes { self.new.notes ≡ self.old.notes }
        ensures case { self.new.case ≡ self.old.case }
    {
        if did == Act::Block(1) {
            self.is_short = bytes.first() == Some(&SOH);
        }
    }

    /// Takes that the turn of the case is over, where it was this one.
    fn take_twist(&mut self, twist: Option<Twist>)
        ensures notes { self.new.notes ≡ self.old.notes }
        ensures case { self.new.case ≡ self.old.case }
    {
        self.is_used = self.is_used || twist.is_some();
        self.is_single = self.is_single || twist == Some(Twist::Taken);
    }

    /// Takes the frame that came.
    fn take_frame(&mut self, turn: &Turn, bytes: &[u8], tenths: u64)
        ensures noted { GrowsBy 1 self.old.notes self.new.notes }
        ensures case { self.new.case ≡ self.old.case }
    {
        let did = delivered(false, bytes);
        self.take_size(did, bytes);
        self.take_twist(turn.twist);
        let look = look_of(self.case, self.twin().asked(), did, bytes);
        let here = look.is_form || turn.twist.is_some() || self.case == Case::Plain;
        self.note(look.asked, look.did, tenths, here);
    }

    /// Takes what came behind the frame, where the reference waits for an answer.
    fn take_behind(&mut self, bytes: &[u8], tenths: u64)
        ensures noted { GrowsBy 1 self.old.notes self.new.notes }
        ensures case { self.new.case ≡ self.old.case }
    {
        let rest = &bytes[prefix_length(bytes)..];
        if !rest.is_empty() && delivered(false, bytes) != Act::Cancel {
            self.note(Act::Nothing, delivered(false, rest), tenths, false);
        }
    }

    /// Takes what came in a turn.
    fn take(&mut self, turn: &Turn, heard: &Heard) -> Result<(), AllocError>
        ensures noted { GrowsBy 2 self.old.notes self.new.notes }
        ensures case { self.new.case ≡ self.old.case }
    {
        let bytes = heard.bytes.as_slice();
        self.take_frame(turn, bytes, heard.tenths);
        self.take_behind(bytes, heard.tenths);
        self.go_on(delivered(false, bytes));
        if self.twist() == Some(Twist::Unheard) {
            self.receive(&[])
        } else {
            self.receive(bytes)
        }
    }

    /// What the case has shown.
    fn outcome(&self, has_failed: bool) -> Result<Outcome, AllocError>
        ensures { IfOk result (λ outcome. (outcome.notes ≡ self.now.notes)
            × (outcome.has_failed ≡ has_failed)) }
    {
        let is_exact = is_exact(self.alloc, &self.store)?;
        Ok(Outcome {
            notes: self.notes,
            sent: None,
            told: self.claims.told,
            held: self.twins.held(),
            is_exact,
            is_mute: self.case == Case::Answer(Spot::Start, Twist::Cancel),
            is_finished: self.is_finished(),
            has_failed,
        })
    }
}

/// Plays one turn.
fn play_turn<W: Wire>(line: &mut Line<'_, W>, trial: &mut SenderTrial) -> Result<(), AllocError>
    ensures { OnOk result (GrowsBy 3 trial.old.notes trial.new.notes) }
{
    let turn = trial.turn()?;
    let before = line.before(&turn)?;
    trial.take_before(before.as_slice());
    trial.hear(turn.out.as_slice());
    let heard = line.behind(&turn, before, trial.patience())?;
    trial.take(&turn, &heard)?;
    Ok(())
}

/// Hears what comes when the session is over.
fn hear_rest<W: Wire>(line: &mut Line<'_, W>, trial: &mut SenderTrial) -> Result<(), AllocError>
    ensures { GrowsBy 1 trial.old.notes trial.new.notes }
{
    if trial.is_over() && !line.is_closed {
        let (said, tenths) = line.listen(rest_ms(trial.case))?;
        let did = delivered(false, said.as_slice());
        trial.note(Act::Nothing, did, tenths, false);
    }
    Ok(())
}

/// The same, and brings the peer back to rest.
fn end_sender<W: Wire>(line: &mut Line<'_, W>, trial: &mut SenderTrial) -> Result<(), AllocError>
    ensures { GrowsBy 1 trial.old.notes trial.new.notes }
{
    hear_rest(line, trial)?;
    if !trial.is_finished() {
        line.write(&[CAN, CAN, CAN]);
    }
    Ok(())
}

/// Plays a case to the sender on this line, which is to send the file that `seq 302` prints.
pub fn try_sender<W: Wire>(alloc: Global, wire: &mut W, case: Case) -> Result<Outcome, AllocError>
    ensures { IfOk result (λ outcome. IsNoted (MOST_TURNS * 3 + 1) outcome.notes) }
{
    let mut line = Line::new(alloc, wire, Ear::Frames);
    let mut trial = SenderTrial::new(alloc, case);
    for _ in 0..MOST_TURNS {
        if line.is_over() || trial.is_over() {
            break;
        }
        play_turn(&mut line, &mut trial)?;
    }
    end_sender(&mut line, &mut trial)?;
    trial.outcome(line.has_failed)
}
