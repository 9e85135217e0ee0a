//! Where both ends stand in what was told so far.

ghost use Rattle.std.specs.Prelude.{◌≡◌};
ghost use Rattle.ym_explain.specs.Noting.{noted};
ghost use Rattle.ym_told.specs.BothStand.{at_start, behind_prefix, behind_run, behind_frame, behind_damage, behind_cut, behind_answer, behind_control, counted, has_met, with_bytes_of, with_end, owes as owes_one};

use crate::prefix::BufferedPrefix;
use crate::stated::Stated;
use crate::way::Direction;
use ym_explain::{
    AnswerLine, Fate, Footing, FrameKind, Meaning, SendPosition, SentLine, Sign, Signs,
    answer_sign, fate_behind, follows, is_ahead, is_parting, meaning_of, sent_sign,
};
use ym_frame::{Control, Whole};

/// Where both ends stand, and what was seen so far.
#[derive(Clone, Copy)]
pub struct BothStanding {
    /// Where the sender stands, by its frames.
    pub position: SendPosition,
    /// What became of its last frame.
    pub fate: Fate,
    /// What was seen.
    pub signs: Signs,
    /// How many bytes of the file under way have not come, where its length is known.
    pub left: Option<u64>,
    /// Whether the two ends have parted.
    pub parted: bool,
}

impl BothStanding {
    /// Nothing passed.
    pub fn new() -> BothStanding
        ensures { result ≡ at_start }
    {
        BothStanding {
            position: SendPosition::Before,
            fate: Fate::Start,
            signs: Signs::new(),
            left: None,
            parted: false,
        }
    }

    /// Whether a frame, or a copy of one, has no answer yet.
    pub fn owes(&self) -> bool
        ensures { result ≡ owes_one self.now }
    {
        self.signs.out > 0
    }

    /// Whether a frame of a file was answered, so that the two ends can part.
    fn has_met(&self) -> bool
        ensures { result ≡ has_met self.now }
    {
        self.signs.heard && !matches!(self.position, SendPosition::Before)
    }

    /// Behind a front of this way, with these bytes, which announces a file or not.
    pub fn behind(
        self,
        way: Direction,
        prefix: BufferedPrefix,
        bytes: &[u8],
        stated: Stated,
    ) -> BothStanding
        ensures { result ≡ behind_prefix self way prefix bytes.now stated }
    {
        match prefix {
            BufferedPrefix::Run(_) => self.behind_run(way, bytes),
            BufferedPrefix::Zmodem => self.seeing(Sign::Zmodem),
            BufferedPrefix::Cut(used) => self.behind_cut(used),
            BufferedPrefix::Sent(told) => match told.line {
                SentLine::Frame { whole, kind } => {
                    self.behind_frame(whole, kind, told.position, stated)
                }
                SentLine::Damage { .. } | SentLine::Junk => self.behind_damage(told.line),
            },
            BufferedPrefix::Answer(line) => self.behind_answer(line),
        }
    }

    /// Behind a run of these bytes.
    fn behind_run(self, way: Direction, bytes: &[u8]) -> BothStanding
        ensures { result ≡ behind_run self way bytes.now }
    {
        match way {
            Direction::There => self.seeing(Sign::Junk),
            Direction::Back => {
                let mut behind = self;
                behind.signs = self.signs.note_answer_junk(bytes);
                behind
            }
        }
    }

    /// Behind a whole frame of this kind, which leaves the sender at this position. A block 0
    /// states what it does.
    fn behind_frame(
        self,
        whole: Whole,
        kind: FrameKind,
        position: SendPosition,
        stated: Stated,
    ) -> BothStanding
        ensures { result ≡ behind_frame self whole kind position stated }
    {
        let mut behind = self.counted(whole, kind, stated);
        behind.signs = behind
            .signs
            .note(sent_sign(self.position, SentLine::Frame { whole, kind }));
        behind.position = position;
        behind.fate = match kind {
            FrameKind::Cancel => self.fate,
            _ => Fate::Out,
        };
        behind.parted = self.parted || self.has_met() && is_parting(follows(self.fate, kind));
        behind
    }

    /// With the bytes of the file under way counted.
    fn counted(self, whole: Whole, kind: FrameKind, stated: Stated) -> BothStanding
        ensures { result ≡ counted self whole kind stated }
    {
        let mut behind = self;
        match (kind, whole, stated) {
            (FrameKind::Name, _, Stated::Length(length)) => behind.left = Some(length),
            (FrameKind::Name, _, Stated::NoRoom) => {
                behind.left = None;
                behind.signs = self.signs.note(Sign::NoRoom);
            }
            (FrameKind::Name, _, Stated::Nothing) => behind.left = None,
            (FrameKind::Data, Whole::Block(size), _) => {
                return self.with_bytes(size.body_len() as u64);
            }
            (FrameKind::Eot, _, _) => return self.with_end(),
            _ => {}
        }
        behind
    }

    /// With so many bytes more of the file under way. Where all of its length had come, they are
    /// past it.
    fn with_bytes(self, count: u64) -> BothStanding
        ensures { result ≡ with_bytes_of self self.left count }
    {
        let mut behind = self;
        if let Some(left) = self.left {
            if left == 0 {
                behind.signs = self.signs.note(Sign::PastLength);
            }
            behind.left = Some(left.saturating_sub(count));
        }
        behind
    }

    /// Where the file under way ends.
    fn with_end(self) -> BothStanding
        ensures { result ≡ with_end self self.left }
    {
        let mut behind = self;
        if matches!(self.left, Some(left) if left > 0) {
            behind.signs = self.signs.note(Sign::CutLength);
        }
        behind
    }

    /// Behind a damaged frame: it is out, and has moved nobody.
    fn behind_damage(self, line: SentLine) -> BothStanding
        ensures { result ≡ behind_damage self line }
    {
        let mut behind = self;
        behind.signs = self.signs.note(sent_sign(self.position, line));
        behind.fate = Fate::Damaged;
        behind
    }

    /// Behind a frame that ended before its end, of which so many bytes came.
    fn behind_cut(self, used: usize) -> BothStanding
        ensures { result ≡ behind_cut self used }
    {
        let mut behind = self;
        behind.signs = self.signs.note(Sign::Damage {
            short: true,
            headed: used > 2,
        });
        behind.fate = Fate::Damaged;
        behind
    }

    /// Behind what is told of the receiver.
    fn behind_answer(self, line: AnswerLine) -> BothStanding
        ensures { result ≡ behind_answer self line }
    {
        let mut behind = self;
        if let Some(sign) = answer_sign(line) {
            behind.signs = self.signs.note(sign);
        }
        if let AnswerLine::Answer(control) = line {
            return self.behind_control(control);
        }
        behind
    }

    /// Behind this answer. An EOT that was acknowledged may be so once more.
    fn behind_control(self, control: Control) -> BothStanding
        ensures { result ≡ behind_control self control }
    {
        let meaning = meaning_of(self.position, self.fate, self.owes(), control);
        let mut behind = self;
        if !matches!(meaning, Meaning::TakesEotAgain) {
            behind.signs = self.signs.note(Sign::Answer(control));
        }
        behind.fate = fate_behind(self.fate, control);
        behind.parted = self.parted || self.has_met() && is_ahead(meaning);
        behind
    }

    /// Behind a sign that moves nobody.
    fn seeing(self, sign: Sign) -> BothStanding
        ensures { result ≡ record self { signs = noted self.signs sign } }
    {
        let mut behind = self;
        behind.signs = self.signs.note(sign);
        behind
    }
}
