//! `explain`: tells what passed on a line, as a record or a capture of both ways says it, or files
//! of bytes.

ghost use Rattle.std.specs.Prelude.{◌≡◌, ◌≤◌, ℕ, IfOk, Result, option_map};
ghost use Rattle.ym_answer.specs.Desk.{Desk, desk};
ghost use Rattle.ym_answer.specs.Page.{page};
ghost use Rattle.ym_answer.specs.declared.command_fault.CommandFault.{CommandFault};
ghost use Rattle.ym_explained.specs.Explaining.{ChartBehind, DrawsGives, ExplainGives, FileGives, PairGives, ReadingGives, Told};

use crate::answering::{answer, answer_chart, answer_closed, answer_opened, refuse, unread_of};
use crate::chart_file::write_chart;
use crate::charted::Draw;
use crate::opened::Opened;
use crate::untold::Untold;
use std::alloc::{AllocError, Global};
use std::fs;
use std::fs::{File, Files};
use ym_answer::CommandFault;
use ym_explain::Verdict;
use ym_inspect::{Direction, InspectFault, explain_capture, explain_one_way, explain_pair};
use ym_streams::{Input, Output, Outputs, Streams};

/// The status where the words ask for what cannot be done.
const REFUSED: u8 = 2;

/// Standard input, as a word: or standard output, where a file is written.
const STANDARD: &str = "-";

/// What it is called.
const INPUT_NAME: &str = "standard input";

/// What a capture has.
#[derive(Clone, Copy)]
pub(crate) enum Form {
    /// Both ways, in lines or in packets that say when what passed. Its ways may be turned.
    Capture(bool),
    /// The bytes of one way.
    OneWay(Direction),
}

/// Tells a capture of this form.
fn tell_form<I: Input, O: Output>(
    alloc: Global,
    form: Form,
    input: &mut I,
    out: &mut O,
) -> Result<Verdict, InspectFault>
    ensures { Told form (I.remaining input.old) (I.failures input.old)
        (page (O.contents out.old) (O.failures out.old)) result (I.failures input.new)
        (page (O.contents out.new) (O.failures out.new)) }
{
    match form {
        Form::Capture(turned) => explain_capture(alloc, input, turned, out),
        Form::OneWay(way) => explain_one_way(alloc, input, way, out),
    }
}

/// Tells a capture of one file, or of standard input.
fn explain_file<R: Files<File = File>, I: Input, O: Output, E: Output>(
    rt: &R,
    alloc: Global,
    path: &str,
    form: Form,
    streams: &mut Streams<I, O, E>,
) -> Result<u8, CommandFault>
    ensures gives { FileGives path.now form
        (desk (I.remaining streams.old.input) (I.failures streams.old.input)
        (page (O.contents streams.old.outputs.out) (O.failures streams.old.outputs.out))
        (page (E.contents streams.old.outputs.err) (E.failures streams.old.outputs.err))) result
        (desk (I.remaining streams.new.input) (I.failures streams.new.input)
        (page (O.contents streams.new.outputs.out) (O.failures streams.new.outputs.out))
        (page (E.contents streams.new.outputs.err) (E.failures streams.new.outputs.err))) }
    ensures status { IfOk result (λ status. status ≤ 1) }
{
    let Streams { input, outputs } = streams;
    let Outputs { out, err } = outputs;
    if path == STANDARD {
        let told = tell_form(alloc, form, input, out);
        return answer(err, INPUT_NAME, Untold::Unread(INPUT_NAME, None), told);
    }
    match fs::open(rt, path) {
        Ok(file) => {
            let mut opened = Opened::new(file);
            let told = tell_form(alloc, form, &mut opened, out);
            answer_opened(err, path, form, opened.seen(), told)
        }
        Err(error) => answer_closed(err, path, error),
    }
}

/// Tells a capture of a file for each way.
fn explain_files<R: Files<File = File>, O: Output, E: Output>(
    rt: &R,
    alloc: Global,
    there: &str,
    back: &str,
    outputs: &mut Outputs<O, E>,
) -> Result<u8, CommandFault>
    ensures gives { PairGives there.now back.now
        (page (O.contents outputs.old.out) (O.failures outputs.old.out))
        (page (E.contents outputs.old.err) (E.failures outputs.old.err)) result
        (page (O.contents outputs.new.out) (O.failures outputs.new.out))
        (page (E.contents outputs.new.err) (E.failures outputs.new.err)) }
    ensures status { IfOk result (λ status. status ≤ 1) }
{
    let Outputs { out, err } = outputs;
    let mut there_file = match fs::open(rt, there) {
        Ok(file) => Opened::new(file),
        Err(error) => return answer_closed(err, there, error),
    };
    let mut back_file = match fs::open(rt, back) {
        Ok(file) => Opened::new(file),
        Err(error) => return answer_closed(err, back, error),
    };
    let told = explain_pair(alloc, &mut there_file, &mut back_file, out);
    let unread = unread_of(there, back, there_file.seen().why, back_file.seen().why);
    answer(err, there, unread, told)
}

/// What `explain` is asked for, as its words say it. The paths are those of files; where one alone
/// is read, `-` is standard input.
#[derive(Clone, Copy)]
pub struct ExplainOrder<'a> {
    /// The path of what the sender wrote.
    pub there: Option<&'a str>,
    /// The path of what the receiver wrote.
    pub back: Option<&'a str>,
    /// The path of a capture of both ways.
    pub both: Option<&'a str>,
    /// The ways of the capture are turned.
    pub turned: bool,
    /// The path where a chart is to be.
    pub chart: Option<&'a str>,
}

/// What is read.
#[derive(Clone, Copy)]
pub(crate) enum Reading<'a> {
    /// The file at this path, which has this form. `-` is standard input.
    One(&'a str, Form),
    /// A file of what the sender wrote, and one of what the receiver wrote.
    Pair(&'a str, &'a str),
    /// Nothing: a record is given, and files of one way.
    TooMany,
    /// Nothing: files of one way are to be turned.
    TurnedFiles,
}

/// What is read where this is asked for.
fn reading_of<'a>(order: ExplainOrder<'a>) -> Reading<'a>
    ensures { (old : Desk) (answer : Result ℕ CommandFault) (new : Desk)
        → ReadingGives result old answer new
        → ExplainGives (option_map (λ f. f.now) order.entry.there)
        (option_map (λ f. f.now) order.entry.back) (option_map (λ f. f.now) order.entry.both)
        order.entry.turned old answer new }
{
    let capture = Form::Capture(order.turned);
    match (order.both, order.there, order.back, order.turned) {
        (Some(path), None, None, _) => Reading::One(path, capture),
        (Some(_), Some(_), None, _) => Reading::TooMany,
        (Some(_), None, Some(_), _) => Reading::TooMany,
        (Some(_), Some(_), Some(_), _) => Reading::TooMany,
        (None, None, None, _) => Reading::One(STANDARD, capture),
        (None, Some(_), None, true) => Reading::TurnedFiles,
        (None, Some(path), None, false) => Reading::One(path, Form::OneWay(Direction::There)),
        (None, None, Some(_), true) => Reading::TurnedFiles,
        (None, None, Some(path), false) => Reading::One(path, Form::OneWay(Direction::Back)),
        (None, Some(_), Some(_), true) => Reading::TurnedFiles,
        (None, Some(there), Some(back), false) => Reading::Pair(there, back),
    }
}

/// Tells what passed on a line, as these files have it: those of what the sender and the receiver
/// wrote, or of one of them alone, or else a capture of both ways, which may be turned. A capture
/// that is not named is read from standard input. No chart is drawn.
fn explain<R: Files<File = File>, I: Input, O: Output, E: Output>(
    rt: &R,
    alloc: Global,
    order: ExplainOrder<'_>,
    streams: &mut Streams<I, O, E>,
) -> Result<u8, CommandFault>
    ensures gives { ExplainGives (option_map (λ f. f.now) order.entry.there)
        (option_map (λ f. f.now) order.entry.back) (option_map (λ f. f.now) order.entry.both)
        order.entry.turned
        (desk (I.remaining streams.old.input) (I.failures streams.old.input)
        (page (O.contents streams.old.outputs.out) (O.failures streams.old.outputs.out))
        (page (E.contents streams.old.outputs.err) (E.failures streams.old.outputs.err))) result
        (desk (I.remaining streams.new.input) (I.failures streams.new.input)
        (page (O.contents streams.new.outputs.out) (O.failures streams.new.outputs.out))
        (page (E.contents streams.new.outputs.err) (E.failures streams.new.outputs.err))) }
    ensures status { IfOk result (λ status. status ≤ 2) }
{
    match reading_of(order) {
        Reading::One(path, form) => explain_file(rt, alloc, path, form, streams),
        Reading::Pair(there, back) => explain_files(rt, alloc, there, back, &mut streams.outputs),
        Reading::TooMany => refuse(&mut streams.outputs.err, Untold::TooMany, REFUSED),
        Reading::TurnedFiles => refuse(&mut streams.outputs.err, Untold::TurnedFiles, REFUSED),
    }
}

/// Writes a picture at this path, behind a telling that had this answer. Where nothing was told
/// there is none, and no file is made.
fn put_picture<R: Files<File = File>, E: Output>(
    rt: &R,
    path: &str,
    told: Result<u8, CommandFault>,
    picture: Result<Option<String>, AllocError>,
    err: &mut E,
) -> Result<u8, CommandFault>
    ensures gives { ChartBehind path.now told
        (page (E.contents err.old) (E.failures err.old)) result
        (page (E.contents err.new) (E.failures err.new)) }
    ensures status { IfOk told (λ it. it ≤ 2) → IfOk result (λ it. it ≤ 2) }
{
    match told {
        Err(fault) => Err(fault),
        // Where the words were refused, nothing was told.
        Ok(REFUSED) => Ok(REFUSED),
        Ok(status) => match picture {
            Ok(Some(text)) => {
                let written = write_chart(rt, path, text.as_str());
                answer_chart(err, path, status, written)
            }
            Ok(None) => Ok(status),
            Err(_) => Err(CommandFault::Memory),
        },
    }
}

/// Tells what passed on a line, as `explain` does, and draws it in a new file at this path, if one
/// is given.
pub fn explain_and_draw<R: Files<File = File>, I: Input, O: Draw, E: Output>(
    rt: &R,
    alloc: Global,
    order: ExplainOrder<'_>,
    streams: &mut Streams<I, O, E>,
) -> Result<u8, CommandFault>
    ensures gives { DrawsGives (option_map (λ f. f.now) order.entry.chart)
        (option_map (λ f. f.now) order.entry.there) (option_map (λ f. f.now) order.entry.back)
        (option_map (λ f. f.now) order.entry.both) order.entry.turned
        (desk (I.remaining streams.old.input) (I.failures streams.old.input)
        (page (O.contents streams.old.outputs.out) (O.failures streams.old.outputs.out))
        (page (E.contents streams.old.outputs.err) (E.failures streams.old.outputs.err))) result
        (desk (I.remaining streams.new.input) (I.failures streams.new.input)
        (page (O.contents streams.new.outputs.out) (O.failures streams.new.outputs.out))
        (page (E.contents streams.new.outputs.err) (E.failures streams.new.outputs.err))) }
    ensures status { IfOk result (λ status. status ≤ 2) }
{
    let Some(path) = order.chart else {
        return explain(rt, alloc, order, streams);
    };
    if path == STANDARD {
        return refuse(&mut streams.outputs.err, Untold::ChartUnnamed, REFUSED);
    }
    streams.outputs.out.begin_chart();
    let told = explain(rt, alloc, order, streams);
    let picture = streams.outputs.out.end_chart();
    put_picture(rt, path, told, picture, &mut streams.outputs.err)
}
