//! `judge`: cases are played to a peer, and what it did is reported.

ghost use Rattle.std.specs.Prelude.{◌≡◌, ◌≤◌, ◌++◌, [], ◌∷◌, false, IfOk, IfErr, OnOk};
ghost use Rattle.std.specs.Prelude.{option_map};
ghost use Rattle.ym_judge.specs.Reporting.{counted, no_sums};
ghost use Rattle.ym_answer.specs.Lines.{line};
ghost use Rattle.ym_answer.specs.Page.{Prints, page};
ghost use Rattle.ym_judged.specs.Judged.{IsMidway, IsRefusal, JudgeGives};
ghost use Rattle.ym_judged.specs.Judged.{LacksWay, ListsCases, PlaysCases, TriesCases};
ghost use Rattle.ym_judged.specs.Judged.{avoid_lines, case_named, case_words, names_text};
ghost use Rattle.ym_judged.specs.Judged.{peer_named, report_end, status_of_avoided, to_avoid};

use crate::judge_message::JudgeMessage;
use crate::judged_peer::{Access, access_of, play_case, see_line};
use crate::looking::{looked_at, see_folder};
use std::alloc::{AllocError, Global};
use std::fs::{File, Files};
use std::net::{Net, TcpListener, TcpStream};
use std::time::Clock;
use ym_answer::CommandFault;
use ym_judge::{Avoided, Case, CaseJson, CaseLine, Peer, StartLine, Sums, Tried, cases_of};
use ym_judging::Outcome;
use ym_streams::{Output, Outputs, StreamFault};

/// The status where something has to be avoided.
const TO_AVOID: u8 = 1;

/// The status of refused words.
const REFUSED: u8 = 2;

/// What `judge` is asked for, as its words say it.
#[derive(Clone, Copy)]
pub struct JudgeOrder<'a> {
    /// What the peer does.
    pub peer: &'a str,
    /// At which port it is.
    pub port: Option<&'a str>,
    /// At which line.
    pub line: Option<&'a str>,
    /// The name of the only case.
    pub only: Option<&'a str>,
    /// The folder that it stores in.
    pub stored: Option<&'a str>,
    /// The cases are named alone.
    pub list: bool,
    /// The report is for machines.
    pub json: bool,
}

/// What was found so far.
#[derive(Drop)]
struct Report {
    sums: Sums,
    avoided: Vec<Tried>,
}

/// What peer this word names.
fn peer_of(word: &str) -> Option<Peer>
    ensures { result ≡ peer_named word.now }
{
    match word {
        "sender" => Some(Peer::Sender),
        "receiver" => Some(Peer::Receiver),
        _ => None,
    }
}

/// The case of this name among these.
fn case_of(alloc: Global, cases: &[Case], name: &str) -> Result<Option<Case>, AllocError>
    ensures { IfOk result (λ found. found ≡ case_named cases.now name.now) }
{
    for case in cases {
        let text = format!(in alloc; "{case}")?;
        if text.as_str() == name {
            return Ok(Some(*case));
        }
    }
    Ok(None)
}

/// Prints the names of these cases.
fn print_names<O: Output>(out: &mut O, cases: &[Case]) -> Result<(), StreamFault>
    ensures { Prints (page (O.contents out.old) (O.failures out.old)) (names_text cases.now) result
        (page (O.contents out.new) (O.failures out.new)) }
{
    for case in cases {
        out.put_line(*case)?;
    }
    Ok(())
}

/// Prints the names of the cases of such a peer.
fn list<O: Output>(peer: Peer, out: &mut O) -> Result<u8, CommandFault>
    ensures gives { ListsCases peer (page (O.contents out.old) (O.failures out.old)) result
        (page (O.contents out.new) (O.failures out.new)) }
    ensures status { IfOk result (λ status. status ≤ 2) }
{
    print_names(out, cases_of(peer))?;
    Ok(0)
}

/// Tells why the words are refused.
fn refuse<E: Output>(err: &mut E, why: JudgeMessage<'_>) -> Result<u8, CommandFault>
    ensures gives { IsRefusal result }
    ensures status { IfOk result (λ status. status ≡ 2) }
{
    err.put_line(why)?;
    Ok(REFUSED)
}

/// Prints what a case has shown.
fn print_case<O: Output>(out: &mut O, json: bool, tried: Tried) -> Result<(), StreamFault>
    ensures { Prints (page (O.contents out.old) (O.failures out.old))
        (line (case_words json tried)) result (page (O.contents out.new) (O.failures out.new)) }
{
    if json {
        out.put_line(CaseJson(tried))
    } else {
        out.put_line(CaseLine(tried))
    }
}

/// Prints a line for each case that is to be avoided.
fn print_avoided<O: Output>(out: &mut O, avoided: &[Tried]) -> Result<(), StreamFault>
    ensures { Prints (page (O.contents out.old) (O.failures out.old)) (avoid_lines avoided.now)
        result (page (O.contents out.new) (O.failures out.new)) }
{
    for tried in avoided {
        out.put_line(Avoided(*tried))?;
    }
    Ok(())
}

/// Prints for people what is to be avoided, and how many cases came out how.
fn print_end<O: Output>(out: &mut O, json: bool, report: &Report) -> Result<(), StreamFault>
    ensures { Prints (page (O.contents out.old) (O.failures out.old))
        (report_end json report.now.avoided.items report.now.sums) result
        (page (O.contents out.new) (O.failures out.new)) }
{
    if json {
        return Ok(());
    }
    print_avoided(out, report.avoided.as_slice())?;
    out.put_line(report.sums)
}

/// The status that the report comes to.
fn status_of(report: &Report) -> u8
    ensures gives { result ≡ status_of_avoided report.now.avoided.items }
    ensures status { result ≤ 2 }
{
    if report.avoided.is_empty() {
        0
    } else {
        TO_AVOID
    }
}

impl Report {
    /// Nothing was found.
    fn new(alloc: Global) -> Report
        ensures sums { result.sums ≡ no_sums }
        ensures avoided { result.avoided.items ≡ [] }
    {
        Report {
            sums: Sums::new(),
            avoided: Vec::new(alloc),
        }
    }

    /// Takes a case more.
    fn take(&mut self, tried: Tried) -> Result<(), AllocError>
        ensures sums { self.new.sums ≡ counted tried.finding self.old.sums }
        ensures avoided { OnOk result
            (self.new.avoided.items ≡ self.old.avoided.items ++ to_avoid (tried ∷ [])) }
    {
        self.sums = self.sums.with(tried.finding);
        if tried.is_to_avoid() {
            self.avoided.push(tried)?;
        }
        Ok(())
    }
}

/// What is asked for of a peer.
#[derive(Clone, Copy)]
pub(crate) struct PeerOrder<'a> {
    /// What the peer does.
    pub peer: Peer,
    /// What is asked for.
    pub order: JudgeOrder<'a>,
}

/// A peer that is tried.
#[derive(Drop)]
struct Trial<'a> {
    /// The way to it.
    access: Access,
    /// What is asked for of it.
    asked: PeerOrder<'a>,
}

/// Plays a case, and tells before it that it begins. No case counts where the line failed, or whose
/// stored files cannot be looked at: that is told.
fn play_telling<R, E>(
    rt: &R,
    alloc: Global,
    trial: &Trial<'_>,
    case: Case,
    err: &mut E,
) -> Result<Outcome, CommandFault>
where
    R: Files<File = File> + Net<Listener = TcpListener, Stream = TcpStream> + Clock,
    E: Output,
    ensures why { IfErr result (λ why. IsMidway why) }
    ensures sound { IfOk result (λ outcome. outcome.has_failed ≡ false) }
{
    let PeerOrder { peer, order } = trial.asked;
    see_folder(rt, alloc, order.stored, err)?;
    see_line(&trial.access, err)?;
    err.put_line(StartLine(case))?;
    let outcome = play_case(rt, alloc, &trial.access, peer, case, err)?;
    looked_at(rt, alloc, order.stored, outcome, err)
}

/// Plays these cases, and reports them.
fn try_cases<R, O, E>(
    rt: &R,
    alloc: Global,
    trial: &Trial<'_>,
    cases: &[Case],
    outputs: &mut Outputs<O, E>,
) -> Result<u8, CommandFault>
where
    R: Files<File = File> + Net<Listener = TcpListener, Stream = TcpStream> + Clock,
    O: Output,
    E: Output,
    ensures gives { TriesCases cases.now trial.now.asked.order.json
        (page (O.contents outputs.old.out) (O.failures outputs.old.out)) result
        (page (O.contents outputs.new.out) (O.failures outputs.new.out)) }
    ensures status { IfOk result (λ status. status ≤ 2) }
{
    let json = trial.asked.order.json;
    let mut report = Report::new(alloc);
    for case in cases {
        let outcome = play_telling(rt, alloc, trial, *case, &mut outputs.err)?;
        let tried = outcome.tried(*case);
        report.take(tried)?;
        print_case(&mut outputs.out, json, tried)?;
    }
    print_end(&mut outputs.out, json, &report)?;
    Ok(status_of(&report))
}

/// The answer where there is no way to the peer: words that name none, or two, are refused.
fn refuse_place<E: Output>(err: &mut E, order: JudgeOrder<'_>) -> Result<u8, CommandFault>
    ensures gives { LacksWay (option_map (λ w. w.now) order.entry.port)
        (option_map (λ w. w.now) order.entry.line) result }
    ensures status { IfOk result (λ status. status ≤ 2) }
{
    match (order.port, order.line) {
        (None, Some(_)) | (Some(_), None) => Err(CommandFault::Device),
        _ => refuse(err, JudgeMessage::NoPlace),
    }
}

/// Plays these cases, or tells why there is no way to the peer.
fn play_cases<R, O, E>(
    rt: &R,
    alloc: Global,
    asked: PeerOrder<'_>,
    cases: &[Case],
    outputs: &mut Outputs<O, E>,
) -> Result<u8, CommandFault>
where
    R: Files<File = File> + Net<Listener = TcpListener, Stream = TcpStream> + Clock,
    O: Output,
    E: Output,
    ensures gives { PlaysCases (option_map (λ w. w.now) asked.entry.order.port)
        (option_map (λ w. w.now) asked.entry.order.line) cases.now asked.entry.order.json
        (page (O.contents outputs.old.out) (O.failures outputs.old.out)) result
        (page (O.contents outputs.new.out) (O.failures outputs.new.out)) }
    ensures status { IfOk result (λ status. status ≤ 2) }
{
    match access_of(rt, asked, &mut outputs.err) {
        Ok(access) => {
            let trial = Trial { access, asked };
            try_cases(rt, alloc, &trial, cases, outputs)
        }
        Err(CommandFault::Port) => Err(CommandFault::Port),
        Err(_) => refuse_place(&mut outputs.err, asked.order),
    }
}

/// Does what the words of `judge` ask for: prints the names of the cases, or a line for each case
/// and, for people, what is to be avoided and the sums. The answer is the status: 0 where nothing
/// is to be avoided, 1 where something is, 2 where the words are refused.
pub fn judge<R, O, E>(
    rt: &R,
    alloc: Global,
    order: JudgeOrder<'_>,
    outputs: &mut Outputs<O, E>,
) -> Result<u8, CommandFault>
where
    R: Files<File = File> + Net<Listener = TcpListener, Stream = TcpStream> + Clock,
    O: Output,
    E: Output,
    ensures gives { JudgeGives order.entry.peer.now (option_map (λ w. w.now) order.entry.port)
        (option_map (λ w. w.now) order.entry.line) (option_map (λ w. w.now) order.entry.only)
        order.entry.list order.entry.json
        (page (O.contents outputs.old.out) (O.failures outputs.old.out)) result
        (page (O.contents outputs.new.out) (O.failures outputs.new.out)) }
    ensures status { IfOk result (λ status. status ≤ 2) }
{
    let Some(peer) = peer_of(order.peer) else {
        return refuse(&mut outputs.err, JudgeMessage::NoPeer(order.peer));
    };
    if order.list {
        return list(peer, &mut outputs.out);
    }
    let asked = PeerOrder { peer, order };
    let cases = cases_of(peer);
    match order.only {
        None => play_cases(rt, alloc, asked, cases, outputs),
        Some(name) => match case_of(alloc, cases, name)? {
            Some(case) => play_cases(rt, alloc, asked, &[case], outputs),
            None => refuse(&mut outputs.err, JudgeMessage::NoCase(peer, name)),
        },
    }
}
