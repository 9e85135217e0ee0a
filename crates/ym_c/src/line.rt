//! When an end waits, asks again, lets its line clear, and what it does not hear: the machine of
//! `ym_timing`, whose numbers C keeps. Whatever stands there is a machine.

ghost use Rattle.std.specs.Prelude.{◌≡◌, ◌≤◌, ◌<◌, ◌*◌, false, length, take};
ghost use Rattle.ym_c.specs.Codes.{bool_code};
ghost use Rattle.ym_line_c.specs.Bulk as bulk;
ghost use Rattle.ym_line_c.specs.LineCodes as codes;
ghost use Rattle.ym_line_c.specs.Line.{timing_of, clock_of, purge_of};
ghost use Rattle.ym_timing.specs.ByteRows as rows;
ghost use Rattle.ym_heard.specs.Cancel as cancel;
ghost use Rattle.ym_timing.specs.Clears as clears;
ghost use Rattle.ym_heard.specs.Times as times;
ghost use Rattle.ym_timing.specs.Timing as table;
ghost use Rattle.ym_timing.specs.Writing as writing;

use ym_heard::cancels;
use ym_line_c::{
    YmClearing, YmLine, code_of_vain, drop_bytes, flag_of, hear_bytes, role_of, wait_of,
};
use ym_timing::Timing;

/// Makes the line of an end that said and heard nothing, whatever stood there: 0 a sender, any
/// other a receiver.
#[unsafe(no_mangle)]
pub extern "C" fn ym_line_init(line: &mut YmLine, receives: u32)
    ensures timing { timing_of line.new ≡ table.new_timing (codes.role_of receives) }
    ensures clock { clock_of line.new ≡ times.new_clock }
{
    line.start(role_of(receives));
}

/// The time, where the clock of the host tells this: never less than before.
#[unsafe(no_mangle)]
pub extern "C" fn ym_line_now(line: &mut YmLine, clock: u64) -> u64
    ensures clock { clock_of line.new ≡ times.told clock (clock_of line.old) }
    ensures now { result ≡ (clock_of line.new).at }
    ensures timing { timing_of line.new ≡ timing_of line.old }
{
    let mut kept = line.clock();
    let now = kept.read(clock);
    line.keep_clock(kept);
    now
}

/// The time, where a read waited until then in vain and the clock of the host tells this.
#[unsafe(no_mangle)]
pub extern "C" fn ym_line_waited(line: &mut YmLine, until: u64, clock: u64) -> u64
    ensures clock { clock_of line.new ≡ times.waited until clock (clock_of line.old) }
    ensures now { result ≡ (clock_of line.new).at }
    ensures timing { timing_of line.new ≡ timing_of line.old }
{
    let mut kept = line.clock();
    let now = kept.waited(until, clock);
    line.keep_clock(kept);
    now
}

/// Until when a read waits that began then: 0 for the first bytes of a delivery, any other for
/// more.
#[unsafe(no_mangle)]
pub extern "C" fn ym_line_until(line: &YmLine, wait: u32, start: u64) -> u64
    ensures { result ≡ table.until (codes.wait_of wait) start (timing_of line.now) }
{
    // A wait depends on this alone of what the line knows.
    let timing = Timing {
        pace: line.pace.load(),
        sent: line.sent.load(),
        heard: line.heard.load(),
        hold: line.hold.load(),
        ..Timing::new(role_of(u32::from(line.role)))
    };
    timing.until(wait_of(wait), start)
}

/// Takes that a read waited until then, and nothing came: 0 it waits on; 1 an ACK that came before
/// is heard; 2 nothing came.
#[unsafe(no_mangle)]
pub extern "C" fn ym_line_expired(line: &mut YmLine, wait: u32, now: u64) -> u32
    ensures timing { timing_of line.new
        ≡ table.after_vain (codes.wait_of wait) now (timing_of line.old) }
    ensures vain { result
        ≡ codes.vain_code (table.vain_of (codes.wait_of wait) (timing_of line.old)) }
    ensures clock { clock_of line.new ≡ clock_of line.old }
{
    let mut timing = line.timing();
    let vain = timing.expired(wait_of(wait), now);
    line.keep(timing);
    code_of_vain(vain)
}

/// Takes bytes that came now, where this was written last, and puts what is to be heard of them to
/// the front of `heard`, which has room for twice as many. Answers how many bytes that are; where
/// there is less room, nothing is done.
#[unsafe(no_mangle)]
pub extern "C" fn ym_line_hear(
    line: &mut YmLine,
    bytes: &[u8],
    written: &[u8],
    now: u64,
    heard: &mut [u8],
) -> usize
    ensures timing { 2 * length bytes.now ≤ length heard.old →
        timing_of line.new ≡ rows.after_bytes bytes.now written.now now (timing_of line.old) }
    ensures heard { 2 * length bytes.now ≤ length heard.old →
        take result heard.new ≡ rows.heard_of bytes.now written.now now (timing_of line.old) }
    ensures clock { clock_of line.new ≡ clock_of line.old }
    ensures few { result ≤ 2 * length bytes.now }
    ensures no_room { length heard.old < 2 * length bytes.now → line.new ≡ line.old }
{
    if bytes.len() > heard.len() / 2 {
        return 0;
    }
    let mut timing = line.timing();
    let count = hear_bytes(&mut timing, bytes, written, now, heard);
    line.keep(timing);
    count
}

/// 1 where CAN CAN stands among bytes that are to be heard: a reply before it is none.
#[unsafe(no_mangle)]
pub extern "C" fn ym_line_cancels(bytes: &[u8]) -> u32
    ensures { result ≡ bool_code (cancel.cancels bytes.now) }
{
    if cancels(bytes) { 1 } else { 0 }
}

/// 1 where CAN CAN came while the line cleared, and is to be heard now; it is so once.
#[unsafe(no_mangle)]
pub extern "C" fn ym_line_cancelled(line: &mut YmLine) -> u32
    ensures timing { timing_of line.new ≡ record (timing_of line.old) { has_cancel = false } }
    ensures result { result ≡ bool_code (timing_of line.old).has_cancel }
    ensures clock { clock_of line.new ≡ clock_of line.old }
{
    let was = line.has_cancel;
    line.has_cancel = 0;
    if was != 0 { 1 } else { 0 }
}

/// Why the line has to clear before these bytes are written, if it has to, and how far it is.
#[unsafe(no_mangle)]
pub extern "C" fn ym_line_clearing(line: &YmLine, bytes: &[u8], now: u64, clearing: &mut YmClearing)
    ensures { purge_of clearing.new ≡ clears.purge bytes.now now (timing_of line.now) }
{
    clearing.keep(line.timing().purge(bytes, now));
}

/// Until when what comes is dropped; 0 where nothing is to be.
#[unsafe(no_mangle)]
pub extern "C" fn ym_line_clear_at(line: &YmLine, clearing: &YmClearing) -> u64
    ensures { result ≡ clears.clear_at (purge_of clearing.now) (timing_of line.now) }
{
    // How far it is clear depends on this alone of what the line knows.
    let timing = Timing {
        pace: line.pace.load(),
        out: line.out.load(),
        sent: line.sent.load(),
        is_refused: flag_of(line.is_refused),
        vain: line.vain,
        has_cancel: flag_of(line.has_cancel),
        ..Timing::new(role_of(u32::from(line.role)))
    };
    timing.clear_at(clearing.load())
}

/// Takes bytes that came now and are dropped while the line clears, where this was written last.
#[unsafe(no_mangle)]
pub extern "C" fn ym_line_drop(
    line: &mut YmLine,
    clearing: &mut YmClearing,
    bytes: &[u8],
    written: &[u8],
    now: u64,
)
    ensures timing { timing_of line.new ≡ bulk.after_dropping bytes.now
        (purge_of clearing.old) written.now now (timing_of line.old) }
    ensures clearing { purge_of clearing.new ≡ bulk.cleared_by bytes.now
        (purge_of clearing.old) written.now now (timing_of line.old) }
    ensures clock { clock_of line.new ≡ clock_of line.old }
{
    let mut timing = line.timing();
    let left = drop_bytes(&mut timing, clearing.load(), bytes, written, now);
    line.keep(timing);
    clearing.keep(left);
}

/// Takes that these bytes were written now, behind this purge.
#[unsafe(no_mangle)]
pub extern "C" fn ym_line_wrote(line: &mut YmLine, clearing: &YmClearing, bytes: &[u8], now: u64)
    ensures timing { timing_of line.new
        ≡ writing.wrote bytes.now (purge_of clearing.now) now (timing_of line.old) }
    ensures clock { clock_of line.new ≡ clock_of line.old }
{
    let mut timing = line.timing();
    timing.wrote(bytes, clearing.load(), now);
    line.keep(timing);
}
