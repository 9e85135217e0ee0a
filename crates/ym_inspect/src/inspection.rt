//! A capture under way: what is held of each way, and where both ends stand.

ghost use Rattle.std.specs.Prelude.{◌≡◌, [], OnOk, IfOk};
ghost use Rattle.std.specs.Io.KnownBytes.{Appends};
ghost use Rattle.ym_told.specs.TellPrefix.{used_by};
ghost use Rattle.ym_inspect.specs.CaptureTold.{Ends, Tells, TellsAll, at_moment, last_words, parting_told, tagged, verdict_at};
ghost use Rattle.ym_inspect.specs.CaptureFaults.{CountsWrites, IsOfTelling};
ghost use Rattle.ym_inspect.specs.Inspecting.{nothing_buffered, buffered_of, with_piece, with_scene, without, IsPrefix, IsTold, TellsPrefix};

use crate::buffered::Buffered;
use crate::fault::InspectFault;
use crate::parting::Parting;
use std::alloc::{AllocError, Global};
use std::marker::Model;
use ym_explain::{Verdict, Ways, tell_sent, verdict_of};
use ym_streams::Output;
use ym_told::{
    BothStanding, BufferedPrefix, CaptureMoment, Direction, RunEnd, Scene, Settle, Stretch,
    prefix_back, prefix_there,
};

/// A frame that is not whole is over where nothing more came for so many microseconds.
const QUIET: u64 = 1_000_000;

/// So many are enough where the receiver answers.
const ANSWERED: u64 = 50_000;

/// A capture under way.
#[derive(Drop)]
pub(crate) struct Inspection {
    alloc: Global,
    there: Buffered,
    back: Buffered,
    scene: Scene,
    last_there: Option<u64>,
    last_back: Option<u64>,
    parted_at: Option<CaptureMoment>,
}

impl Model for Inspection {
    ghost use Rattle.ym_inspect.specs.Inspecting.{Parts};

    ghost Value = { Parts };

    ghost view = { λ i. record {
      there = i.there;
      back = i.back;
      scene = i.scene;
      last_there = i.last_there;
      last_back = i.last_back;
      parted_at = i.parted_at;
    } };
}

impl Inspection {
    /// One of which nothing came.
    pub(crate) fn new(alloc: Global) -> Inspection
        ensures { result ≡ nothing_buffered }
    {
        Inspection {
            alloc,
            there: Buffered::new(alloc),
            back: Buffered::new(alloc),
            scene: Scene::new(),
            last_there: None,
            last_back: None,
            parted_at: None,
        }
    }

    /// Where both ends stand.
    pub(crate) fn standing(&self) -> BothStanding
        ensures { result ≡ self.now.scene.standing }
    {
        self.scene.standing
    }

    /// The bytes of this way that are held.
    pub(crate) fn buffered(&self, way: Direction) -> &[u8]
        ensures { result.now ≡ buffered_of self.now way }
    {
        match way {
            Direction::There => self.there.as_slice(),
            Direction::Back => self.back.as_slice(),
        }
    }

    /// Holds bytes that came this way.
    pub(crate) fn hold(&mut self, way: Direction, piece: &[u8]) -> Result<(), AllocError>
        ensures { OnOk result (self.new ≡ with_piece self.old way piece.now) }
    {
        match way {
            Direction::There => {
                self.there.add(piece)?;
                self.scene.standing.signs = self.scene.standing.signs.note_bytes(piece);
            }
            Direction::Back => self.back.add(piece)?,
        }
        Ok(())
    }

    /// Takes bytes that came this way at this moment, and tells what is sure.
    pub(crate) fn take<O: Output>(
        &mut self,
        way: Direction,
        at: u64,
        piece: &[u8],
        out: &mut O,
    ) -> Result<(), InspectFault>
        ensures tells { OnOk result (Tells self.old (O.contents out.old) (tagged way piece.now)
            self.new (O.contents out.new)) }
        ensures failed { CountsWrites result (O.failures out.old) (O.failures out.new) }
        ensures why { IsOfTelling result }
    {
        self.settle(way, at, piece, out)?;
        self.pass(way, at);
        self.hold(way, piece)?;
        self.tell_way(way, Settle::Nothing, out)
    }

    /// Tells what is over before this piece comes this way, at this moment.
    fn settle<O: Output>(
        &mut self,
        way: Direction,
        at: u64,
        piece: &[u8],
        out: &mut O,
    ) -> Result<(), InspectFault>
        ensures tells { OnOk result
            (Tells self.old (O.contents out.old) [] self.new (O.contents out.new)) }
        ensures failed { CountsWrites result (O.failures out.old) (O.failures out.new) }
        ensures why { IsOfTelling result }
    {
        self.tell_way(way.other(), Settle::Damage, out)?;
        self.tell_way(Direction::There, self.settle_there(way, at, piece), out)?;
        self.tell_way(Direction::Back, settle_over(self.last_back, at, QUIET), out)?;
        Ok(())
    }

    /// What is sure of the sender's way at this moment, where this comes.
    fn settle_there(&self, way: Direction, at: u64, piece: &[u8]) -> Settle {
        let answers = way == Direction::Back && matches!(piece, [0x06 | 0x15 | 0x18, ..]);
        let most = if answers { ANSWERED } else { QUIET };
        settle_over(self.last_there, at, most)
    }

    /// This moment is there, at which this way wrote.
    fn pass(&mut self, way: Direction, at: u64)
        ensures { self.new ≡ at_moment self.old way at }
    {
        self.scene.moment = CaptureMoment(Some(at));
        match way {
            Direction::There => self.last_there = Some(at),
            Direction::Back => self.last_back = Some(at),
        }
    }

    /// Tells all that is sure of what is held of this way.
    pub(crate) fn tell_way<O: Output>(
        &mut self,
        way: Direction,
        settle: Settle,
        out: &mut O,
    ) -> Result<(), InspectFault>
        ensures tells { OnOk result (TellsAll self.old (O.contents out.old) way settle
            self.new (O.contents out.new)) }
        ensures failed { CountsWrites result (O.failures out.old) (O.failures out.new) }
        ensures why { IsOfTelling result }
    {
        for _ in 0..u64::MAX {
            if !self.tell_one(way, settle, out)? {
                return Ok(());
            }
        }
        Err(InspectFault::Endless)
    }

    /// What stands at the front of what is held of this way, where that is sure.
    fn prefix(&self, way: Direction, settle: Settle) -> Option<BufferedPrefix>
        ensures { IsPrefix self.now way settle result }
    {
        match way {
            Direction::There => self.prefix_there(settle),
            Direction::Back => self.prefix_back(settle),
        }
    }

    /// The same of the sender's way.
    fn prefix_there(&self, settle: Settle) -> Option<BufferedPrefix>
        ensures { IsPrefix self.now Direction.There settle result }
    {
        let buffered = self.there.as_slice();
        let told = tell_sent(self.scene.standing.position, buffered);
        prefix_there(buffered, told, settle)
    }

    /// The same of the receiver's way.
    fn prefix_back(&self, settle: Settle) -> Option<BufferedPrefix>
        ensures { IsPrefix self.now Direction.Back settle result }
    {
        let tail = self.scene.run.tail_back();
        prefix_back(tail, self.back.as_slice(), settle)
    }

    /// Tells what stands at the front of what is held of this way, where that is sure, and lets go
    /// of it. Else the answer is no.
    pub(crate) fn tell_one<O: Output>(
        &mut self,
        way: Direction,
        settle: Settle,
        out: &mut O,
    ) -> Result<bool, InspectFault>
        ensures tells { IfOk result (λ told. IsTold self.old way settle told self.new
            (O.contents out.old) (O.contents out.new)) }
        ensures failed { CountsWrites result (O.failures out.old) (O.failures out.new) }
        ensures why { IsOfTelling result }
    {
        match self.prefix(way, settle) {
            None => Ok(false),
            Some(prefix) => {
                self.tell_prefix(way, prefix, out)?;
                Ok(true)
            }
        }
    }

    /// Tells this front, and lets go of it.
    fn tell_prefix<O: Output>(
        &mut self,
        way: Direction,
        prefix: BufferedPrefix,
        out: &mut O,
    ) -> Result<(), InspectFault>
        ensures tells { OnOk result (TellsPrefix self.old way prefix self.new
            (O.contents out.old) (O.contents out.new)) }
        ensures failed { CountsWrites result (O.failures out.old) (O.failures out.new) }
        ensures why { IsOfTelling result }
    {
        let stretch = Stretch::of(prefix, self.buffered(way));
        let text = self.scene.text(self.alloc, way, &stretch)?;
        let behind = self.scene.behind(way, &stretch);
        if out.put(text.as_bytes()).is_err() {
            return Err(InspectFault::Write);
        }
        self.go_on(way, prefix, behind);
        Ok(())
    }

    /// Goes on behind this front, where the scene is this.
    fn go_on(&mut self, way: Direction, prefix: BufferedPrefix, behind: Scene)
        ensures { self.new ≡ without (with_scene self.old behind) way (used_by prefix) }
    {
        if behind.standing.parted && !self.scene.standing.parted {
            self.parted_at = Some(self.scene.moment);
        }
        self.scene = behind;
        match way {
            Direction::There => self.there.let_go(prefix.used()),
            Direction::Back => self.back.let_go(prefix.used()),
        }
    }

    /// Tells all that is left, where the two ends parted, and what went wrong.
    pub(crate) fn end<O: Output>(
        &mut self,
        ways: Ways,
        out: &mut O,
    ) -> Result<Verdict, InspectFault>
        ensures ends { IfOk result (λ verdict.
            Ends self.old (O.contents out.old) ways verdict (O.contents out.new)) }
        ensures failed { CountsWrites result (O.failures out.old) (O.failures out.new) }
        ensures why { IsOfTelling result }
    {
        self.tell_way(Direction::There, Settle::All, out)?;
        self.tell_way(Direction::Back, Settle::All, out)?;
        self.put_end(ways, out)
    }

    /// Where the two ends parted, as far as it is told beside this verdict.
    fn parting(&self, ways: Ways, verdict: Verdict) -> Option<CaptureMoment>
        ensures { result ≡ parting_told ways verdict self.now.parted_at }
    {
        match ways {
            Ways::Both if !verdict.is_of_whole() => self.parted_at,
            Ways::Both | Ways::There | Ways::Back => None,
        }
    }

    /// Writes where the two ends parted, and what went wrong.
    fn put_end<O: Output>(&self, ways: Ways, out: &mut O) -> Result<Verdict, InspectFault>
        ensures verdict { IfOk result (λ verdict. verdict ≡ verdict_at ways self.now) }
        ensures written { OnOk result
            (Appends (O.contents out.old) (O.contents out.new) (last_words ways self.now)) }
        ensures failed { CountsWrites result (O.failures out.old) (O.failures out.new) }
        ensures why { IsOfTelling result }
    {
        let end = RunEnd(self.scene.run);
        let verdict = verdict_of(ways, self.scene.standing.signs);
        let parting = Parting(self.parting(ways, verdict));
        let text = format!(in self.alloc; "{end}{parting}{verdict}\n")?;
        if out.put(text.as_bytes()).is_err() {
            return Err(InspectFault::Write);
        }
        Ok(verdict)
    }
}

/// All is sure of a way that was quiet for so long before a moment.
fn settle_over(last: Option<u64>, at: u64, most: u64) -> Settle {
    match last {
        Some(last) if at.saturating_sub(last) >= most => Settle::All,
        _ => Settle::Nothing,
    }
}
