//! Why an end heard nothing of use.

ghost use Rattle.std.specs.Prelude.{◌≡◌, Some};
ghost use Rattle.ym_text.specs.Causes.{absent_text, stopped_text, ceased_text, slow_text};
ghost use Rattle.ym_text.specs.Causes.{peer_text, silence_of, quiet_of, noise_of, asked_of};
ghost use Rattle.ym_text.specs.Causes.{heard_of, prompt_of, passed_of, cause_of, cause_text};
ghost use Rattle.ym_text.specs.Causes.{words_text};

use crate::came::{Came, Lately, Sight};
use std::fmt;

/// Which end the other one is.
#[derive(Clone, Copy)]
pub(crate) enum Peer {
    /// One that receives.
    Receiver,
    /// One that sends.
    Sender,
}

impl Peer {
    /// Its name.
    fn text(self) -> &'static str
        ensures { result.now ≡ peer_text self }
    {
        match self {
            Peer::Receiver => "receiver",
            Peer::Sender => "sender",
        }
    }
}

/// Why an end heard nothing of use, as often as it may. Its `Display` is that, in words, and what
/// to look at then.
#[derive(Clone, Copy)]
pub(crate) enum Cause {
    /// Nothing came for so many seconds, and nothing of use before.
    Absent(Peer, u64),
    /// Something did, and then nothing for so many seconds.
    Ceased(Peer, u64),
    /// Answers take so many seconds.
    Slow(u64),
    /// The receiver asks on.
    Asks,
    /// It asks for a block again and again.
    Refuses,
    /// It asks as one of XMODEM does.
    Xmodem,
    /// It passed block 0 over, as one of XMODEM does.
    Passes,
    /// It asks as one of YMODEM-g does.
    Streams,
    /// A receiver heard what receivers send.
    NoSender,
    /// A sender heard what no receiver sends, and nothing of use yet.
    NoReceiver,
    /// Text came.
    Text,
    /// The sender sends again what was answered.
    Copies,
    /// It sends on behind the length of a file.
    Past,
    /// Other bytes came from an end that was heard before.
    Damage,
    /// Other bytes came, and nothing whole yet.
    Noise,
}

/// That no answer came. Noise may have: a sender's port hears none of it.
#[derive(Clone, Copy)]
pub(crate) struct AbsentWords {
    /// The other end.
    pub(crate) peer: Peer,
    /// For how many seconds none came.
    pub(crate) seconds: u64,
}

impl fmt::Display for AbsentWords {
    ghost output = { λ words. Some (absent_text words.peer words.seconds) };

    fn fmt<W: fmt::Write>(&self, f: &mut fmt::Formatter<W>) -> fmt::Result {
        let seconds = self.seconds;
        let peer = self.peer.text();
        write!(
            f,
            "no answer came for {seconds} s: is the {peer} running, at the same speed?"
        )
    }
}

/// Whether the other end is there no more.
#[derive(Clone, Copy)]
struct StoppedWords {
    /// The other end.
    peer: Peer,
}

impl fmt::Display for StoppedWords {
    ghost output = { λ words. Some (stopped_text words.peer) };

    fn fmt<W: fmt::Write>(&self, f: &mut fmt::Formatter<W>) -> fmt::Result {
        let peer = self.peer.text();
        write!(f, "has the {peer} stopped, or was the line cut?")
    }
}

/// That no answer came any more.
#[derive(Clone, Copy)]
pub(crate) struct CeasedWords {
    /// The other end.
    pub(crate) peer: Peer,
    /// For how many seconds none came.
    pub(crate) seconds: u64,
}

impl fmt::Display for CeasedWords {
    ghost output = { λ words. Some (ceased_text words.peer words.seconds) };

    fn fmt<W: fmt::Write>(&self, f: &mut fmt::Formatter<W>) -> fmt::Result {
        let seconds = self.seconds;
        let question = StoppedWords { peer: self.peer };
        write!(f, "no answer came any more for {seconds} s: {question}")
    }
}

/// That answers take too long.
#[derive(Clone, Copy)]
pub(crate) struct SlowWords {
    /// How many seconds one takes.
    pub(crate) took: u64,
}

impl fmt::Display for SlowWords {
    ghost output = { λ words. Some (slow_text words.took) };

    fn fmt<W: fmt::Write>(&self, f: &mut fmt::Formatter<W>) -> fmt::Result {
        let took = self.took;
        write!(
            f,
            "answers take longer than {took} seconds: use a line that hands on sooner"
        )
    }
}

/// What the line of a cause is made of.
#[derive(Clone, Copy)]
pub(crate) enum CauseWords {
    /// A text that is the same each time.
    Text(&'static str),
    /// That no answer came. Noise may have: a sender's port hears none of it.
    Absent(AbsentWords),
    /// That no answer came any more.
    Ceased(CeasedWords),
    /// That answers take too long.
    Slow(SlowWords),
}

/// Why nothing comes.
fn silence(peer: Peer, seen: Sight, seconds: u64) -> Cause
    ensures { result ≡ silence_of peer seen seconds }
{
    match seen {
        Sight::Nothing => Cause::Absent(peer, seconds),
        _ => Cause::Ceased(peer, seconds),
    }
}

/// Why what receivers send comes from this end.
fn prompts(peer: Peer, cause: Cause) -> Cause
    ensures { result ≡ prompt_of peer cause }
{
    match peer {
        Peer::Receiver => cause,
        Peer::Sender => Cause::NoSender,
    }
}

/// Why a receiver took a frame and then asked by NAK, or else this.
fn passed(peer: Peer, seen: Sight, cause: Cause) -> Cause
    ensures { result ≡ passed_of peer seen cause }
{
    match (peer, seen) {
        (Peer::Receiver, Sight::Begun) => Cause::Passes,
        _ => cause,
    }
}

/// Why nothing comes any more behind what came.
fn quiet(peer: Peer, seen: Sight, came: Came, seconds: u64) -> Cause
    ensures { result ≡ quiet_of peer seen came seconds }
{
    match came {
        Came::Nothing | Came::Takes | Came::Copies | Came::Past | Came::Other => {
            silence(peer, seen, seconds)
        }
        Came::Passes => passed(peer, seen, silence(peer, seen, seconds)),
        Came::Text => Cause::Text,
        _ => prompts(peer, Cause::Ceased(peer, seconds)),
    }
}

/// Why a receiver asks for a block again.
fn asked(seen: Sight) -> Cause
    ensures { result ≡ asked_of seen }
{
    match seen {
        Sight::Nothing => Cause::Xmodem,
        _ => Cause::Refuses,
    }
}

/// Why other bytes come.
fn noise(peer: Peer, seen: Sight) -> Cause
    ensures { result ≡ noise_of peer seen }
{
    match (peer, seen) {
        (Peer::Receiver, Sight::Nothing) => Cause::NoReceiver,
        (Peer::Sender, Sight::Nothing) => Cause::Noise,
        _ => Cause::Damage,
    }
}

/// Why this comes, and nothing of use.
fn heard(peer: Peer, seen: Sight, came: Came, seconds: u64) -> Cause
    ensures { result ≡ heard_of peer seen came seconds }
{
    match came {
        Came::Nothing => silence(peer, seen, seconds),
        Came::Asks => prompts(peer, Cause::Asks),
        Came::Refuses => prompts(peer, asked(seen)),
        Came::Streams => prompts(peer, Cause::Streams),
        Came::Passes => passed(peer, seen, noise(peer, seen)),
        Came::Text => Cause::Text,
        Came::Copies => Cause::Copies,
        Came::Past => Cause::Past,
        Came::Takes | Came::Other => noise(peer, seen),
    }
}

impl Cause {
    /// Why nothing of use came from this end, where this came of late.
    pub(crate) fn of(peer: Peer, lately: Lately) -> Cause
        ensures { result ≡ cause_of peer lately }
    {
        let Lately { seconds, seen, .. } = lately;
        match (lately.came, lately.slow, lately.is_silent) {
            (Came::Nothing, _, _) => silence(peer, seen, seconds),
            (_, Some(took), _) => Cause::Slow(took),
            (came, None, true) => quiet(peer, seen, came, seconds),
            (came, None, false) => heard(peer, seen, came, seconds),
        }
    }

    /// What its line is made of.
    fn words(self) -> CauseWords
        ensures { cause_text self ≡ words_text result }
    {
        match self {
            Cause::Absent(peer, seconds) => CauseWords::Absent(AbsentWords { peer, seconds }),
            Cause::Ceased(peer, seconds) => CauseWords::Ceased(CeasedWords { peer, seconds }),
            Cause::Slow(took) => CauseWords::Slow(SlowWords { took }),
            Cause::Asks => CauseWords::Text(
                "nothing came but C, ten times: does the receiver get what is written to it?",
            ),
            Cause::Refuses => CauseWords::Text(
                "nothing came but NAK, ten times: does the receiver get every byte that is sent?",
            ),
            Cause::Xmodem => CauseWords::Text(
                "the receiver asks by NAK, as XMODEM does: start it as a receiver of YMODEM",
            ),
            Cause::Passes => CauseWords::Text(
                "the receiver took block 0 and asked by NAK, as XMODEM does: run `rb` there, \
                not `rx`",
            ),
            Cause::Streams => CauseWords::Text(
                "the receiver asks by G, as YMODEM-g does: start it as a receiver of YMODEM",
            ),
            Cause::NoSender => CauseWords::Text(
                "nothing came but what receivers send: is a sender at the other end?",
            ),
            Cause::NoReceiver => CauseWords::Text(
                "what comes is no answer of a YMODEM receiver: is one running, at the same speed?",
            ),
            Cause::Text => CauseWords::Text(
                "what comes is no YMODEM: is a shell or a boot loader's prompt at the other end?",
            ),
            Cause::Copies => CauseWords::Text(
                "nothing came but the same again, ten times: does the sender get what is \
                written to it?",
            ),
            Cause::Past => CauseWords::Text(
                "nothing came but data past the file's length, ten times: does the file grow?",
            ),
            Cause::Damage => CauseWords::Text(
                "nothing new came whole, ten times in a row: use a better line, or a lower speed",
            ),
            Cause::Noise => CauseWords::Text(
                "nothing whole came, ten times in a row: do both ends have the same speed?",
            ),
        }
    }
}

impl fmt::Display for Cause {
    ghost output = { λ cause. Some (cause_text cause) };

    fn fmt<W: fmt::Write>(&self, f: &mut fmt::Formatter<W>) -> fmt::Result {
        match self.words() {
            CauseWords::Text(text) => f.write_str(text),
            CauseWords::Absent(words) => write!(f, "{words}"),
            CauseWords::Ceased(words) => write!(f, "{words}"),
            CauseWords::Slow(words) => write!(f, "{words}"),
        }
    }
}
