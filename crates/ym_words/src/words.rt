//! The words that the commands take.

ghost use Rattle.std.specs.Prelude.{◌≡◌};
ghost use Rattle.ym_words.specs.CommandLine.{flag, flag_rule, value_id};

/// A flag.
#[derive(Clone, Copy)]
pub(crate) enum Flag {
    Short,
    Single,
    NoSync,
    DiscardParts,
    Eager,
    Keep,
    Verbose,
    Quiet,
    /// That the ways of a capture are the other way round.
    Turned,
    /// That the cases are named, and none is played.
    List,
    /// That the report is for machines.
    Json,
}

impl Flag {
    /// Its name, its word behind two dashes, and what help says of it.
    pub(crate) fn texts<'a>(self) -> (&'a str, &'a str, &'a str)
        ensures { flag_rule self ≡ flag result.0.now result.1.now }
    {
        match self {
            Flag::Short => ("short", "short", "Sends blocks of 128 bytes alone"),
            Flag::Single => (
                "single",
                "single",
                "Acknowledges the first EOT of a file (else the second)",
            ),
            Flag::NoSync => (
                "no_sync",
                "no-sync",
                "Acknowledges a file before it has reached the disk",
            ),
            Flag::DiscardParts => (
                "discard_parts",
                "discard-parts",
                "Removes a NAME.part that was left, when NAME comes",
            ),
            Flag::Eager => (
                "eager",
                "eager",
                "Asks for the first file at once, and not after 3 seconds",
            ),
            Flag::Keep => (
                "keep",
                "keep",
                "Takes one connection after another, until it is ended",
            ),
            Flag::Verbose => (
                "verbose",
                "verbose",
                "Tells what it does, also if standard error is no terminal",
            ),
            Flag::Quiet => ("quiet", "quiet", "Tells nothing but its report and faults"),
            Flag::Turned => (
                "turned",
                "turned",
                "Takes the sender of a capture of TCP for the receiver",
            ),
            Flag::List => (
                "list",
                "list",
                "Prints the names of the cases, and plays none",
            ),
            Flag::Json => ("json", "json", "Prints an object of JSON for each case"),
        }
    }
}

/// A value.
#[derive(Clone, Copy)]
pub(crate) enum Value {
    /// The line of `sb` and `rb`.
    Line,
    /// That at which a peer is tried.
    JudgedLine,
    /// The folder of `rb`.
    Folder,
    /// That of `receive`.
    Dir,
    /// The file that what passes is recorded in, of who sends or receives.
    Recorded,
    /// The record or capture of both ways, of `explain`.
    Record,
    /// The file of what the sender wrote.
    There,
    /// The file of what the receiver wrote.
    Back,
    /// The file that `explain` draws a chart in.
    Chart,
    /// What the peer does that `judge` tries.
    Peer,
    /// The name of the only case that is played.
    Only,
    /// The folder in which a receiver stores.
    Stored,
}

impl Value {
    /// Its name, what help calls it, and what it says of it.
    pub(crate) fn texts<'a>(self) -> (&'a str, &'a str, &'a str)
        ensures { result.0.now ≡ value_id self }
    {
        match self {
            Value::Line => (
                "line",
                "DEVICE",
                "The terminal of the line (else standard input and output)",
            ),
            Value::JudgedLine => (
                "line",
                "DEVICE",
                "The terminal of the line, in place of a port",
            ),
            Value::Folder => (
                "dir",
                "DIR",
                "The folder to receive into (else the working folder)",
            ),
            Value::Dir => ("dir", "DIR", "The folder to receive into"),
            Value::Recorded => (
                "record",
                "FILE",
                "Records what passes on the line, for `ymodem explain`",
            ),
            Value::Record => (
                "record",
                "CAPTURE",
                "A record of both ways, or a pcap capture (else standard input)",
            ),
            Value::There => ("there", "FILE", "A file of the bytes that the sender wrote"),
            Value::Back => (
                "back",
                "FILE",
                "A file of the bytes that the receiver wrote",
            ),
            Value::Chart => (
                "chart",
                "FILE",
                "Draws what it tells as a chart, in a new file (SVG)",
            ),
            Value::Peer => ("peer", "PEER", "What the peer is, `sender` or `receiver`"),
            Value::Only => ("only", "NAME", "Plays this case alone"),
            Value::Stored => (
                "stored",
                "DIR",
                "The folder of a receiver, whose files are compared",
            ),
        }
    }
}

/// A word that a command takes.
#[derive(Clone, Copy)]
pub(crate) enum Word {
    /// A flag.
    Flag(Flag),
    /// A value behind its name and two dashes. It may be left out.
    Named(Value),
    /// A value that stands alone, and whether it is needed.
    Placed(Value, bool),
    /// The port, and whether it is needed.
    Port(bool),
    /// The files, at least one.
    Files,
}
