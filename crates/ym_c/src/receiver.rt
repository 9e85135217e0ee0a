//! The receiver.

ghost use Rattle.std.specs.Prelude.{◌≡◌, ◌≢◌, ◌≤◌, ◌<◌, ◌↔◌, ◌⊎◌, ◌++◌, ℕ, List, [], take, length, Result, IsTrue};
ghost use Rattle.ym_frame.specs.Control.{reply_bytes};
ghost use Rattle.ym_frame.specs.declared.control.Reply.{Reply as Replied};
ghost use Rattle.ym_frame.specs.Frame.{verdict_of, IsOpen};
ghost use Rattle.ym_header.specs.declared.fault.HeaderFault.{HeaderFault};
ghost use Rattle.ym_header.specs.declared.reading.Zero.{Zero};
ghost use Rattle.ym_core.specs.Receiver.{Receiver, Step as TableStep, new_receiver, hears};
ghost use Rattle.ym_core.specs.Hearing.{heard_of};
ghost use Rattle.ym_core.specs.Step.{Means, call_of};
ghost use Rattle.ym_core.specs.HeardRef.{owned_heard};
ghost use Rattle.ym_c.specs.Codes.{confirm_of, reply_code};
ghost use Rattle.ym_c.specs.Stands.{Keeps, IsRubbish, ended_receiver};
ghost use Rattle.ym_c.specs.Feeding.{Feeds};
ghost use Rattle.ym_c.specs.Buffers.{IsWritten};
ghost use Rattle.ym_c.specs.ReceiverInC.{Holds, Awaits, IsAsk, IsPlaced, IsStamped, IsNoReceiver, Ignores, bad_code, outcome};

use crate::codes::{code_of_reply, reply_of};
use crate::feeding::{take_bytes, wanted};
use crate::stand::{YmStand, ended, load, store};
use ym_core::{Ask, Confirm, HeardRef, ReceiverCore, RecvState, heard_in};
use ym_frame::Reply;
use ym_frame::laws::a_body_stands_behind_three_bytes;
use ym_header::Stamp;

/// A receiver, and the bytes of the delivery that is coming.
#[repr(C)]
pub struct YmReceiver {
    /// Where it stands.
    pub stand: YmStand,
    /// Where it will stand once its host has done what is asked.
    pub next: YmStand,
    /// The reply that will then be given; 0 where no delivery was heard.
    pub reply: u32,
    /// How many bytes of the delivery are held.
    pub len: u32,
    /// The bytes of the delivery.
    pub held: [u8; 1029],
}

/// What a receiver asks of its host.
#[repr(C)]
pub struct YmAsk {
    /// At 1: the length in bytes that the header states.
    pub length: u64,
    /// At 1: the time, where `stamp` is 1 or 2.
    pub time: u64,
    /// At 1 and 2: how many bytes the name has, or are to be added.
    pub count: u64,
    /// 0: nothing; 1: begin a file; 2: add bytes; 3: commit the file.
    pub kind: u32,
    /// At 1 and 2: where the name, or the bytes, begin in `held`.
    pub at: u32,
    /// At 1: 0: no stamp; 1: a time; 2: a time and a mode.
    pub stamp: u32,
    /// At 1: the mode, where `stamp` is 2.
    pub mode: u32,
    /// 1 where the delivery was no frame: the line is to clear before the reply is written.
    pub bad: u32,
}

/// Where a body stands in the frame of a block.
const BODY_AT: u32 = 3;

/// The bytes of the delivery.
fn delivery(held: &[u8; 1029], len: u32) -> &[u8]
    ensures { len ≤ 1029 → result.now ≡ take len held.entry.now }
{
    &held[..(len as usize).min(1029)]
}

/// Makes a receiver that awaits its first header, whatever stood there. Confirm 0: a first EOT is
/// questioned.
#[unsafe(no_mangle)]
pub extern "C" fn ym_receiver_init(receiver: &mut YmReceiver, confirm: u32)
    ensures holds { Holds receiver.new (new_receiver (confirm_of confirm)) [] }
    ensures unheard { receiver.new.reply ≡ 0 }
{
    let confirm = if confirm == 0 {
        Confirm::Twice
    } else {
        Confirm::Once
    };
    let core = ReceiverCore::new(confirm);
    store(&mut receiver.stand, core);
    store(&mut receiver.next, core);
    receiver.reply = 0;
    receiver.len = 0;
}

/// Whether the delivery is still coming.
fn comes(receiver: &YmReceiver) -> bool
    ensures { IsTrue result ↔ ((receiver.now.reply ≡ 0) × receiver.now.len ≤ 1029) }
{
    receiver.reply == 0 && receiver.len <= 1029
}

/// Takes bytes of a delivery, and tells how many: 0 where the delivery can go on no more, or was
/// heard and is not answered.
#[unsafe(no_mangle)]
pub extern "C" fn ym_receiver_feed(receiver: &mut YmReceiver, bytes: &[u8]) -> usize
    ensures feeds { (core : Receiver) (held : List ℕ) → Holds receiver.old core held →
        receiver.old.reply ≡ 0 →
        Feeds held bytes.now result × Holds receiver.new core (held ++ take result bytes.now) }
    ensures reply { receiver.new.reply ≡ receiver.old.reply }
    ensures heard { receiver.old.reply ≢ 0 → (result ≡ 0) × (receiver.new ≡ receiver.old) }
    ensures rubbish { 1029 < receiver.old.len → (result ≡ 0) × (receiver.new ≡ receiver.old) }
{
    if !comes(receiver) {
        return 0;
    }
    let used = take_bytes(&mut receiver.held, receiver.len as usize, bytes);
    receiver.len += used as u32;
    used
}

/// How many bytes have to come at least before the delivery can be heard without a wait: 0 where it
/// is to be heard now, or was heard.
#[unsafe(no_mangle)]
pub extern "C" fn ym_receiver_wants(receiver: &YmReceiver) -> usize
    ensures whether { (core : Receiver) (held : List ℕ) → Holds receiver.now core held →
        receiver.now.reply ≡ 0 → (0 < result ↔ IsOpen (verdict_of held)) }
    ensures missing { (core : Receiver) (held : List ℕ) → Holds receiver.now core held →
        (more : List ℕ) → length more < result → IsOpen (verdict_of (held ++ more)) }
    ensures room { result ≤ 1029 }
    ensures heard { receiver.now.reply ≢ 0 → result ≡ 0 }
    ensures rubbish { 1029 < receiver.now.len → result ≡ 0 }
{
    if !comes(receiver) {
        return 0;
    }
    wanted(delivery(&receiver.held, receiver.len))
}

/// Tells what is asked.
fn tell(asked: &Ask<'_>, ask: &mut YmAsk)
    ensures told { IsAsk (call_of asked.entry.now) ask.new }
    ensures bad { ask.new.bad ≡ ask.old.bad }
    ensures at { ask.new.at ≡ 3 }
{
    ask.length = 0;
    ask.time = 0;
    ask.kind = 0;
    ask.at = BODY_AT;
    ask.count = 0;
    ask.stamp = 0;
    ask.mode = 0;
    match asked {
        Ask::Nothing => {}
        Ask::Begin(header) => {
            ask.kind = 1;
            ask.length = header.length();
            ask.count = header.name().len() as u64;
            match header.stamp() {
                Stamp::Nothing => {}
                Stamp::Time(time) => {
                    ask.stamp = 1;
                    ask.time = time;
                }
                Stamp::TimeMode(time, mode) => {
                    ask.stamp = 2;
                    ask.time = time;
                    ask.mode = mode;
                }
            }
        }
        Ask::Add(bytes) => {
            ask.kind = 2;
            ask.count = bytes.len() as u64;
        }
        Ask::Commit => ask.kind = 3,
    }
}

/// Whether no frame was heard.
fn code_of_bad(heard: &HeardRef<'_>) -> u32
    ensures { result ≡ bad_code (owned_heard heard.entry.now) }
{
    match heard {
        HeardRef::Item(_) => 0,
        HeardRef::Bad => 1,
    }
}

/// Hears a delivery where a receiver stands: keeps where it will stand, tells what is asked, and
/// answers the number of the reply.
fn hear_into(core: ReceiverCore, bytes: &[u8], next: &mut YmStand, ask: &mut YmAsk) -> u32
    ensures at { ask.new.at ≡ 3 }
    ensures heard { (zero : Result Zero HeaderFault) × Means core (heard_of bytes.now) zero
        × Keeps next.new (hears core zero (heard_of bytes.now)).receiver
        × (result ≡ reply_code (hears core zero (heard_of bytes.now)).reply)
        × IsAsk (hears core zero (heard_of bytes.now)).call ask.new
        × (ask.new.bad ≡ bad_code (heard_of bytes.now)) }
{
    let heard = heard_in(bytes);
    ask.bad = code_of_bad(&heard);
    let step = core.hear(&heard);
    tell(&step.ask, ask);
    store(next, step.core);
    code_of_reply(step.reply)
}

/// The receiver that these numbers are: none where they are rubbish.
fn holder(receiver: &YmReceiver) -> Option<ReceiverCore>
    ensures kept { (core : Receiver) → Keeps receiver.now.stand core → receiver.now.len ≤ 1029 →
        result ≡ Some core }
    ensures rubbish { IsNoReceiver receiver.now → result ≡ None }
{
    if receiver.len > 1029 {
        return None;
    }
    load(&receiver.stand)
}

/// The receiver that hears: rubbish counts as one that has ended.
fn hearer(receiver: &YmReceiver) -> ReceiverCore
    ensures kept { (core : Receiver) (held : List ℕ) → Holds receiver.now core held →
        result ≡ core }
    ensures rubbish { IsNoReceiver receiver.now → result ≡ ended_receiver }
{
    match holder(receiver) {
        Some(core) => core,
        None => ended(),
    }
}

/// Hears the delivery, and tells what the host has to do before `ym_receiver_answer`. It may be
/// called again, and tells the same.
#[unsafe(no_mangle)]
pub extern "C" fn ym_receiver_hear(receiver: &mut YmReceiver, ask: &mut YmAsk)
    ensures rubbish { IsNoReceiver receiver.old → Ignores receiver.new ask.new }
    ensures hears { (core : Receiver) (held : List ℕ) → Holds receiver.old core held →
        (zero : Result Zero HeaderFault) × Means core (heard_of held) zero
        × Awaits receiver.new core (hears core zero (heard_of held))
        × Holds receiver.new core held
        × IsAsk (hears core zero (heard_of held)).call ask.new
        × IsPlaced (hears core zero (heard_of held)).call ask.new held
        × (ask.new.bad ≡ bad_code (heard_of held)) }
{
    a_body_stands_behind_three_bytes();
    let core = hearer(receiver);
    let bytes = delivery(&receiver.held, receiver.len);
    receiver.reply = hear_into(core, bytes, &mut receiver.next, ask);
}

/// Writes a reply where there is room, and tells how many bytes it has.
fn write_reply(answer: Reply, reply: &mut [u8]) -> usize
    ensures { IsWritten (reply_bytes answer) reply.old reply.new result }
{
    let bytes = answer.as_bytes();
    if bytes.len() > reply.len() {
        return 0;
    }
    reply[..bytes.len()].copy_from_slice(bytes);
    bytes.len()
}

/// The receiver behind the answer to a delivery that was heard, and the reply.
fn step_of(receiver: &YmReceiver, done: u32, heard: Reply) -> (ReceiverCore, Reply)
    ensures step { (core : Receiver) (step : TableStep) → Awaits receiver.now core step →
        heard ≡ step.reply →
        (result.0 ≡ (outcome done core step).receiver)
        × (result.1 ≡ (outcome done core step).reply) }
    ensures rubbish { IsNoReceiver receiver.now ⊎ IsRubbish receiver.now.next →
        (result.0 ≡ ended_receiver) × (result.1 ≡ Reply.Silence) }
{
    let Some(core) = holder(receiver) else {
        return (ended(), Reply::Silence);
    };
    let Some(next) = load(&receiver.next) else {
        return (ended(), Reply::Silence);
    };
    if done == 0 && core.state() == RecvState::Running {
        return (core.failed(), Reply::Cancel);
    }
    (next, heard)
}

/// Takes the step that was heard, after the host did what was asked (`done` is not 0) or failed at
/// it, writes the reply, and tells how many bytes that has, 0 to 2. The next delivery begins. Where
/// nothing was heard, nothing is done; and a receiver that has ended does not fail.
#[unsafe(no_mangle)]
pub extern "C" fn ym_receiver_answer(
    receiver: &mut YmReceiver,
    done: u32,
    reply: &mut [u8],
) -> usize
    ensures step { (core : Receiver) (step : TableStep) → Awaits receiver.old core step →
        Holds receiver.new (outcome done core step).receiver []
        × IsWritten (reply_bytes (outcome done core step).reply) reply.old reply.new result
        × (receiver.new.reply ≡ 0) }
    ensures room { result ≤ length reply.old }
    ensures unheard { ((known : Replied) → receiver.old.reply ≢ reply_code known) →
        (result ≡ 0) × (receiver.new ≡ receiver.old) × (reply.new ≡ reply.old) }
    ensures rubbish { IsNoReceiver receiver.old ⊎ IsRubbish receiver.old.next →
        (known : Replied) → receiver.old.reply ≡ reply_code known →
        (result ≡ 0) × Holds receiver.new ended_receiver [] × (receiver.new.reply ≡ 0)
        × (reply.new ≡ reply.old) }
{
    let Some(heard) = reply_of(receiver.reply) else {
        return 0;
    };
    let (core, answer) = step_of(receiver, done, heard);
    store(&mut receiver.stand, core);
    receiver.reply = 0;
    receiver.len = 0;
    write_reply(answer, reply)
}
