//! What a sender and a receiver are asked for, by the words' flags.

ghost use Rattle.std.specs.Prelude.{◌≡◌, true, false};
ghost use Rattle.ym_command.specs.Program.{shape_of, confirm_of, durability_of, leftover_of};

use ym_file::Shape;
use ym_folder::{Durability, Leftover};
use ym_machine::Confirm;
use ym_receiving::Order;
use ym_sending::SendOrder;
use ym_words::{ReceiveFlags, StoreFlags};

/// The blocks of a batch, by the flag `--short`.
fn shape_of(is_short: bool) -> Shape
    ensures { result ≡ shape_of is_short }
{
    if is_short { Shape::Short } else { Shape::Mixed }
}

/// When a receiver acknowledges an EOT, by the flag `--single`.
fn confirm_of(is_single: bool) -> Confirm
    ensures { result ≡ confirm_of is_single }
{
    if is_single {
        Confirm::Once
    } else {
        Confirm::Twice
    }
}

/// When a file counts as stored, by the flag `--no-sync`.
fn durability_of(is_unforced: bool) -> Durability
    ensures { result ≡ durability_of is_unforced }
{
    if is_unforced {
        Durability::System
    } else {
        Durability::Disk
    }
}

/// What becomes of the part of an earlier run, by the flag `--discard-parts`.
fn leftover_of(discards: bool) -> Leftover
    ensures { result ≡ leftover_of discards }
{
    if discards {
        Leftover::Discarded
    } else {
        Leftover::Refused
    }
}

/// What a sender is asked for, by the flag `--short`, with these files.
pub(crate) fn send_order_of<'a>(
    is_short: bool,
    paths: &'a [&'a str],
    record_path: Option<&'a str>,
) -> SendOrder<'a>
    ensures shape { result.shape ≡ shape_of is_short }
    ensures paths { result.paths.now ≡ paths.now }
    ensures recorded { result.record_path ≡ record_path.entry }
{
    SendOrder {
        paths,
        shape: shape_of(is_short),
        record_path,
    }
}

/// What a receiver is asked for, by the flags of `receive`, and where.
pub(crate) fn order_of<'a>(
    flags: ReceiveFlags,
    dir: &'a str,
    record_path: Option<&'a str>,
) -> Order<'a>
    ensures confirm { result.confirm ≡ confirm_of flags.store.single }
    ensures durability { result.durability ≡ durability_of flags.store.no_sync }
    ensures leftover { result.leftover ≡ leftover_of flags.store.discard_parts }
    ensures eager { result.eager ≡ flags.eager }
    ensures keep { result.keep ≡ flags.keep }
    ensures dir { result.dir.now ≡ dir.now }
    ensures recorded { result.record_path ≡ record_path.entry }
{
    Order {
        confirm: confirm_of(flags.store.single),
        durability: durability_of(flags.store.no_sync),
        leftover: leftover_of(flags.store.discard_parts),
        eager: flags.eager,
        keep: flags.keep,
        dir,
        record_path,
    }
}

/// What a receiver is asked for by the flags of `rb`, and where: it removes the parts that earlier
/// runs left, asks for the first file at once, and there is one line.
pub(crate) fn line_order_of<'a>(
    store: StoreFlags,
    dir: &'a str,
    record_path: Option<&'a str>,
) -> Order<'a>
    ensures confirm { result.confirm ≡ confirm_of store.single }
    ensures durability { result.durability ≡ durability_of store.no_sync }
    ensures leftover { result.leftover ≡ Leftover.Discarded }
    ensures eager { result.eager ≡ true }
    ensures keep { result.keep ≡ false }
    ensures dir { result.dir.now ≡ dir.now }
    ensures recorded { result.record_path ≡ record_path.entry }
{
    let flags = ReceiveFlags {
        store,
        eager: true,
        keep: false,
    };
    Order {
        leftover: Leftover::Discarded,
        ..order_of(flags, dir, record_path)
    }
}
