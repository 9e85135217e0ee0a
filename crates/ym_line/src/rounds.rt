//! Rounds of two deliveries between a sender and a receiver, and runs of them.

ghost use Rattle.std.specs.Prelude.{◌≡◌, ◌≢◌, ◌≤◌, ◌<◌, Err, OnOk, OnErr, IfOk, IfErr, ◌∷◌, [], length};
ghost use Rattle.ym_file.specs.Counts.{Counted};
ghost use Rattle.ym_link.specs.ReceiverInto.{ReceiverParts};
ghost use Rattle.ym_link.specs.Sender.{IsSender};
ghost use Rattle.ym_core.specs.declared.state.SendState.TheVariants as SendState;
ghost use Rattle.ym_line.specs.Carried.{told_more};
ghost use Rattle.ym_line.specs.Completion.{AllWhole, AreGoing, BringsShortBadRuns, HaveFinished, NoneCounted, rounds_for, whole_rounds};
ghost use Rattle.ym_line.specs.Damage.{arrives};
ghost use Rattle.ym_line.specs.Promise.{AreNew, CommitsAPrefix, ReportsCommitted};
ghost use Rattle.ym_line.specs.Rounds.{Pair, pair_of, sent_by, ThereGives, BackGives, RoundGives, RunGives};
ghost use Rattle.ym_line.specs.Turns.{FollowsMachine, StopsWithMachine, TakesATurn};

use crate::carrier::{Carrier, CarryFault};
use crate::check::{check_back, check_there};
use crate::delivery::{Delivery, Round, Way};
use crate::fault::LineFault;
use crate::laws::{new_ends_commit_a_prefix, rounds_are_turns, short_bad_runs_complete};
use crate::trace::{How, Seen, Trace, What};
use std::alloc::Global;
use ym_file::{Sink, Source};
use ym_frame::Reply;
use ym_frame::laws::frame_found;
use ym_link::{ReceiverInto, SenderFrom, heard};

/// What a sender has to send: its frame, CAN CAN, or no bytes.
fn sent_by<S: Source>(sender: &SenderFrom<S>) -> &[u8]
    ensures bytes { result.now ≡ sent_by sender.now }
    ensures sender { IsSender sender.now }
{
    sender.frame().unwrap_or(&[])
}

/// Carries what a delivery makes of the bytes that were sent.
fn carry<C: Carrier>(
    carrier: &mut C,
    way: Way,
    delivery: &Delivery,
    sent: &[u8],
    arrived: &mut Vec<u8>,
) -> Result<(), CarryFault>
    ensures arrived { OnOk result (arrived.new.items ≡ arrives delivery.now sent.now) }
    ensures told { OnOk result (C.told carrier.new ≡
        told_more way (arrives delivery.now sent.now) (C.told carrier.old)) }
    ensures refused { OnErr result (C.told carrier.new ≡ C.told carrier.old) }
    ensures failed { result ≡ Err CarryFault.Device →
        Counted (C.failures carrier.old) (C.failures carrier.new) }
    ensures not_failed { result ≢ Err CarryFault.Device →
        C.failures carrier.new ≡ C.failures carrier.old }
{
    match delivery {
        Delivery::Whole => carrier.carry(way, sent, arrived),
        Delivery::Lost => carrier.carry(way, &[], arrived),
        Delivery::Damaged(bytes) => carrier.carry(way, bytes.as_slice(), arrived),
    }
}

/// A round, or a delivery of it, with the round's number.
#[derive(Clone, Copy)]
struct Numbered<'r, T> {
    n: usize,
    it: &'r T,
}

/// The half of a round to the receiver, which gives its reply to what arrived.
fn go_there<S: Source, K: Sink, C: Carrier>(
    half: Numbered<'_, Delivery>,
    sender: &SenderFrom<S>,
    receiver: &mut ReceiverInto<K>,
    carrier: &mut C,
    arrived: &mut Vec<u8>,
) -> Result<Reply, LineFault>
    ensures { let old : Pair = pair_of C.told C.failures sender.now receiver.old carrier.old in
        let new : Pair = pair_of C.told C.failures sender.now receiver.new carrier.new in
        ThereGives half.entry.n half.entry.it.now old result new }
{
    let Numbered { n, it: delivery } = half;
    check_there(delivery, n)?;
    carry(carrier, Way::There, delivery, sent_by(sender), arrived)?;
    Ok(receiver.hear(&heard(arrived))?)
}

/// The half of a round to the sender, which hears what arrived of the reply.
fn go_back<S: Source, C: Carrier>(
    half: Numbered<'_, Delivery>,
    sender: &mut SenderFrom<S>,
    reply: Reply,
    carrier: &mut C,
    arrived: &mut Vec<u8>,
) -> Result<(), LineFault>
    ensures { (receiver : ReceiverParts) →
        let old : Pair = pair_of C.told C.failures sender.old receiver carrier.old in
        let new : Pair = pair_of C.told C.failures sender.new receiver carrier.new in
        BackGives half.entry.n half.entry.it.now reply old result new }
{
    let Numbered { n, it: delivery } = half;
    check_back(delivery, reply, n)?;
    carry(carrier, Way::Back, delivery, reply.as_bytes(), arrived)?;
    sender.hear(arrived);
    Ok(())
}

/// One round. What arrives is put in `arrived`, in place of what it held.
fn go_round<S: Source, K: Sink, C: Carrier>(
    numbered: Numbered<'_, Round>,
    sender: &mut SenderFrom<S>,
    receiver: &mut ReceiverInto<K>,
    carrier: &mut C,
    arrived: &mut Vec<u8>,
) -> Result<Seen, LineFault>
    ensures { let old : Pair = pair_of C.told C.failures sender.old receiver.old carrier.old in
        let new : Pair = pair_of C.told C.failures sender.new receiver.new carrier.new in
        RoundGives numbered.entry.n numbered.entry.it.now old result new }
{
    frame_found();
    let Numbered { n, it: round } = numbered;
    let what = What::of_frame(sent_by(sender));
    let there = Numbered {
        n,
        it: &round.there,
    };
    let reply = go_there(there, sender, receiver, carrier, arrived)?;
    let back = Numbered { n, it: &round.back };
    go_back(back, sender, reply, carrier, arrived)?;
    Ok(Seen {
        what,
        there: How::of_delivery(&round.there),
        reply,
        back: How::of_delivery(&round.back),
    })
}

/// All rounds of a list, one after another, for any two ends: both go by their tables, round after
/// round. A fault leaves what the rounds before it did, and what the steps before it did in its own
/// round; rounds are numbered from 1. [`run`] is this, and has what follows of it.
pub fn run_by_tables<S: Source, K: Sink, C: Carrier>(
    alloc: Global,
    sender: &mut SenderFrom<S>,
    receiver: &mut ReceiverInto<K>,
    rounds: &[Round],
    carrier: &mut C,
) -> Result<Trace, LineFault>
    ensures { let old : Pair = pair_of C.told C.failures sender.old receiver.old carrier.old in
        let new : Pair = pair_of C.told C.failures sender.new receiver.new carrier.new in
        RunGives rounds.now old result new }
{
    let mut seen = Vec::new(alloc);
    let mut arrived = Vec::new(alloc);
    for (i, round) in rounds.iter().enumerate() {
        seen.reserve(1)?;
        let numbered = Numbered {
            n: i + 1,
            it: round,
        };
        seen.push_reserved(go_round(numbered, sender, receiver, carrier, &mut arrived)?);
    }
    Ok(Trace {
        rounds: seen,
        done: sender.done(),
        send: sender.state(),
        files: receiver.committed(),
        recv: receiver.state(),
    })
}

/// One round: the receiver hears what arrives of the sender's frame, and the sender what arrives of
/// the reply. A damaged delivery is checked before it is carried. A fault leaves what the steps
/// before it did, and no later step is taken. The round's number is 1.
///
/// Where both ends refine a state of the machine of two counters, the round is a turn of that
/// machine (`machine`), and a fault leaves them there, or behind the receiver step of that turn
/// (`stopped`).
pub fn round<S: Source, K: Sink, C: Carrier>(
    alloc: Global,
    sender: &mut SenderFrom<S>,
    receiver: &mut ReceiverInto<K>,
    round: &Round,
    carrier: &mut C,
) -> Result<Seen, LineFault>
    ensures { let old : Pair = pair_of C.told C.failures sender.old receiver.old carrier.old in
        let new : Pair = pair_of C.told C.failures sender.new receiver.new carrier.new in
        record {
          gives : RoundGives 1 round.now old result new;
          machine : IfOk result (λ seen. TakesATurn round.now old seen new);
          stopped : IfErr result (λ fault. StopsWithMachine 1 (round.now ∷ []) old fault new);
        } }
{
    rounds_are_turns();
    let numbered = Numbered { n: 1, it: round };
    go_round(numbered, sender, receiver, carrier, &mut Vec::new(alloc))
}

/// All rounds of a list, in order, also those after both ends have ended. A fault leaves what the
/// rounds before it did, and what the steps before it did in its own round; rounds are numbered
/// from 1.
///
/// - From any ends that refine a state of the machine of two counters, as new ones do, the rounds
///   are turns of that machine: what the line is handed, the trace and the endings are its own
///   (`machine`). Where a round meets a fault, those before it are turns, and of its round at most
///   the receiver step was taken (`stopped`).
/// - From new ends, whatever is lost or damaged and also where it met a fault, the files committed
///   are the first ones of the batch, each exact, and what the sender reports is among them
///   (`commits`, `reports`).
/// - From new ends, where no failure was counted and no bad run is longer than `BURST` rounds,
///   neither end gives up; with as many whole rounds as the batch needs, both finish; and with
///   whole rounds alone, they do not finish sooner (`neither_gives_up`, `both_finish`,
///   `not_sooner`).
///
/// What ends do that refine no such state is told by [`run_by_tables`], which this calls.
///
/// All this rests on these premises: damage shows, and other damage is refused here by `NotDamage`
/// and `TooLong`; the sources tell their bytes, and source, sink and carrier keep the contracts of
/// their traits; and, outside this program, a delivery belongs to its round.
pub fn run<S: Source, K: Sink, C: Carrier>(
    alloc: Global,
    sender: &mut SenderFrom<S>,
    receiver: &mut ReceiverInto<K>,
    rounds: &[Round],
    carrier: &mut C,
) -> Result<Trace, LineFault>
    ensures { let old : Pair = pair_of C.told C.failures sender.old receiver.old carrier.old in
        let new : Pair = pair_of C.told C.failures sender.new receiver.new carrier.new in
        record {
          machine : IfOk result (λ trace. FollowsMachine rounds.now old trace new);
          stopped : IfErr result (λ fault. StopsWithMachine 1 rounds.now old fault new);
          commits : AreNew old → CommitsAPrefix old.sender.files new;
          reports : AreNew old → IfOk result (λ trace. ReportsCommitted trace new);
          neither_gives_up : BringsShortBadRuns rounds.now old new →
              IfOk result (λ trace. AreGoing trace new);
          both_finish : BringsShortBadRuns rounds.now old new →
              rounds_for old ≤ whole_rounds rounds.now →
              IfOk result (λ trace. HaveFinished old.sender.files trace new);
          not_sooner : AreNew old → NoneCounted old new → AllWhole rounds.now →
              length rounds.now < rounds_for old →
              IfOk result (λ trace. trace.send ≢ SendState.Finished);
        } }
{
    rounds_are_turns();
    new_ends_commit_a_prefix();
    short_bad_runs_complete();
    run_by_tables(alloc, sender, receiver, rounds, carrier)
}
