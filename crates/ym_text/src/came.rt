//! What came of late.

ghost use Rattle.std.specs.Prelude.{◌≡◌, ◌≢◌, ◌↔◌, [], IsTrue, All};
ghost use Rattle.ym_text.specs.Readable.{IsAsk, IsStream, IsRefusal, IsTaking, IsTextByte};

/// The byte by which a receiver asks.
const ASK: u8 = b'C';

/// The one by which a receiver of YMODEM-g does, which answers no block.
const STREAM: u8 = b'G';

/// The one by which a receiver asks for a block again, and by which one of XMODEM asks.
const NAK: u8 = 0x15;

/// The one by which a receiver takes a frame.
const ACK: u8 = 0x06;

/// What came since an end last got on.
#[derive(Clone, Copy, PartialEq, Eq)]
pub enum Came {
    /// No byte.
    Nothing,
    /// C alone.
    Asks,
    /// NAK alone, or NAK and C or G.
    Refuses,
    /// G alone.
    Streams,
    /// ACK alone behind all that asks, if anything did.
    Takes,
    /// NAK alone behind that.
    Passes,
    /// Text, as a person reads it.
    Text,
    /// Frames alone that came before, and were answered.
    Copies,
    /// Blocks behind the length of their file, or those and copies.
    Past,
    /// Other bytes, or some of them.
    Other,
}

/// Whether these bytes are this one alone.
fn is_only(bytes: &[u8], only: u8) -> bool
    ensures { IsTrue result ↔ All (λ byte. byte ≡ only) bytes.now }
{
    bytes.iter().all(|&byte| byte == only)
}

/// Whether these bytes are NAK and C alone.
fn is_refusals(bytes: &[u8]) -> bool
    ensures { IsTrue result ↔ All IsRefusal bytes.now }
{
    bytes.iter().all(|&byte| byte == NAK || byte == ASK)
}

/// Whether these bytes are characters of ASCII that are printed, or controls that stand in what a
/// shell shows: BEL to CR, and ESC.
fn is_text(bytes: &[u8]) -> bool
    ensures { IsTrue result ↔ All IsTextByte bytes.now }
{
    bytes
        .iter()
        .all(|&byte| matches!(byte, 7..=13 | 27 | 32..=126))
}

impl Came {
    ghost use Rattle.ym_text.specs.Came.{and_asks, and_streams, and_refusals, and_text};
    ghost use Rattle.ym_text.specs.Came.{and_takings, and_copy, and_past};

    /// After more that asks.
    fn with_asks(self) -> Came
        ensures { result ≡ and_asks self }
    {
        match self {
            Came::Nothing => Came::Asks,
            Came::Takes | Came::Passes => Came::Other,
            came => came,
        }
    }

    /// After more that asks for all blocks.
    fn with_streams(self) -> Came
        ensures { result ≡ and_streams self }
    {
        match self {
            Came::Nothing => Came::Streams,
            Came::Takes | Came::Passes => Came::Other,
            came => came,
        }
    }

    /// After more that asks for a block again.
    fn with_refusals(self) -> Came
        ensures { result ≡ and_refusals self }
    {
        match self {
            Came::Text | Came::Copies | Came::Past | Came::Other => Came::Other,
            Came::Takes | Came::Passes => Came::Passes,
            _ => Came::Refuses,
        }
    }

    /// After more that takes a frame.
    fn with_takings(self) -> Came
        ensures { result ≡ and_takings self }
    {
        match self {
            Came::Nothing | Came::Asks | Came::Refuses | Came::Takes => Came::Takes,
            _ => Came::Other,
        }
    }

    /// After more that is text.
    fn with_text(self) -> Came
        ensures { result ≡ and_text self }
    {
        match self {
            Came::Passes | Came::Copies | Came::Past | Came::Other => Came::Other,
            _ => Came::Text,
        }
    }

    /// After a frame more that came before, and was answered.
    pub fn with_copy(self) -> Came
        ensures { result ≡ and_copy self }
    {
        match self {
            Came::Nothing | Came::Copies => Came::Copies,
            Came::Past => Came::Past,
            _ => Came::Other,
        }
    }

    /// After a block more that is behind the length of its file.
    pub fn with_past(self) -> Came
        ensures { result ≡ and_past self }
    {
        match self {
            Came::Nothing | Came::Copies | Came::Past => Came::Past,
            _ => Came::Other,
        }
    }

    /// After these bytes more.
    pub fn with(self, bytes: &[u8]) -> Came
        ensures quiet { bytes.now ≡ [] → result ≡ self }
        ensures asks { bytes.now ≢ [] → All IsAsk bytes.now → result ≡ and_asks self }
        ensures streams { ¬ All IsAsk bytes.now → All IsStream bytes.now →
            result ≡ and_streams self }
        ensures refusals { ¬ All IsAsk bytes.now → ¬ All IsStream bytes.now →
            All IsRefusal bytes.now → result ≡ and_refusals self }
        ensures takings { ¬ All IsAsk bytes.now → ¬ All IsStream bytes.now →
            ¬ All IsRefusal bytes.now → All IsTaking bytes.now → result ≡ and_takings self }
        ensures text { ¬ All IsAsk bytes.now → ¬ All IsStream bytes.now →
            ¬ All IsRefusal bytes.now → ¬ All IsTaking bytes.now → All IsTextByte bytes.now →
            result ≡ and_text self }
        ensures other { ¬ All IsAsk bytes.now → ¬ All IsStream bytes.now →
            ¬ All IsRefusal bytes.now → ¬ All IsTaking bytes.now →
            ¬ All IsTextByte bytes.now → result ≡ Came.Other }
    {
        if bytes.is_empty() {
            return self;
        }
        if is_only(bytes, ASK) {
            return self.with_asks();
        }
        if is_only(bytes, STREAM) {
            return self.with_streams();
        }
        if is_refusals(bytes) {
            return self.with_refusals();
        }
        if is_only(bytes, ACK) {
            return self.with_takings();
        }
        if is_text(bytes) {
            return self.with_text();
        }
        Came::Other
    }
}

/// What was seen of the other end.
#[derive(Clone, Copy, PartialEq, Eq)]
pub enum Sight {
    /// Nothing whole.
    Nothing,
    /// To a sender that the receiver asked, and to a receiver a block.
    Peer,
    /// To a sender that, and nothing of the one frame that it wrote then, and once.
    Begun,
    /// Its first block was block 1: it names no file.
    Nameless,
    /// Its block 0, of which the name leaves no room for a length.
    Crammed,
}

/// After so many milliseconds without an answer usual peers ask again, or say theirs once more.
pub const SLOW_MS: u64 = 10_000;

/// What came since an end last got on, and for how many seconds nothing did.
#[derive(Clone, Copy)]
pub struct Lately {
    /// What came.
    pub came: Came,
    /// For how many seconds nothing came.
    pub seconds: u64,
    /// Whether that is longer than two waits.
    pub is_silent: bool,
    /// What was seen of the other end.
    pub seen: Sight,
    /// How many seconds an answer takes on this line, where that is more than usual peers wait.
    pub slow: Option<u64>,
}

impl Lately {
    ghost use Rattle.ym_text.specs.Came.{slow_of};

    /// The same on a line whose slowest answer of late took so many milliseconds, where one was
    /// seen.
    pub fn on_line(self, slowest: Option<u64>) -> Lately
        ensures { result ≡ record self { slow = slow_of slowest } }
    {
        let slow = match slowest {
            Some(millis) if SLOW_MS < millis => Some(millis / 1000),
            _ => None,
        };
        Lately { slow, ..self }
    }
}
