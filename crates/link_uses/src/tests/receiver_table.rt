//! The receiver's table written out.

ghost use Rattle.std.specs.Prelude.{◌≡◌, ◌<◌, ◌≤◌, ◌^◌, ◌-◌, Ok, Err, length};
ghost use Rattle.ym_core.specs.Receiver as table;

use ym_core::{Heard, OpenFile, RecvState, Stage, Stand};
use ym_frame::{Block, Item, Reply};
use ym_header::{HeaderFault, Zero};
use ym_machine::Confirm;

/// Progress.
fn goes_on(stand: Stand, stage: Stage, reply: Reply) -> (Stand, Reply)
    ensures stand { result.0 ≡ record stand { stage = stage; retries = 0 } }
    ensures reply { result.1 ≡ reply }
{
    let retries = 0;
    (
        Stand {
            stage,
            retries,
            ..stand
        },
        reply,
    )
}

/// No progress, for the tenth time in a row the end.
fn stays(stand: Stand, reply: Reply) -> (Stand, Reply)
    requires { stand.retries < 10 }
    ensures stand { result.0 ≡ (table.stays stand reply).receiver }
    ensures reply { result.1 ≡ (table.stays stand reply).reply }
{
    if stand.retries == 9 {
        return (
            Stand {
                retries: 10,
                state: RecvState::TooManyErrors,
                ..stand
            },
            Reply::Cancel,
        );
    }
    (
        Stand {
            retries: stand.retries + 1,
            ..stand
        },
        reply,
    )
}

/// The end.
fn ends(stand: Stand, state: RecvState, reply: Reply) -> (Stand, Reply)
    ensures stand { result.0 ≡ record stand { state = state } }
    ensures reply { result.1 ≡ reply }
{
    (Stand { state, ..stand }, reply)
}

/// A block 0 where a header is awaited.
fn zero_heard(stand: Stand, zero: &Result<Zero, HeaderFault>) -> (Stand, Reply)
    ensures stand { result.0 ≡ (table.zero_heard stand zero.now).receiver }
    ensures reply { result.1 ≡ (table.zero_heard stand zero.now).reply }
{
    match zero {
        Ok(Zero::File(header)) => {
            if stand.files >= 65_535 {
                return ends(stand, RecvState::TooManyFiles, Reply::Cancel);
            }
            let opened = OpenFile {
                length: header.length(),
                taken: 0,
                blocks: 0,
                first_eot: false,
            };
            goes_on(stand, Stage::InFile(opened), Reply::AckStart)
        }
        Ok(Zero::End) => ends(stand, RecvState::Finished, Reply::Ack),
        Err(fault) => ends(stand, RecvState::BadHeader(*fault), Reply::Cancel),
    }
}

/// A block of a file.
fn block_heard(stand: Stand, file: OpenFile, block: &Block) -> (Stand, Reply)
    requires retries { stand.retries < 10 }
    requires blocks { file.blocks < 2 ^ 64 - 1 }
    ensures stand { result.0
        ≡ (table.block_heard stand file block.now.number block.now.body).receiver }
    ensures reply { result.1
        ≡ (table.block_heard stand file block.now.number block.now.body).reply }
{
    let number = u64::from(block.number());
    let blocks = file.blocks + 1;
    if number == blocks % 256 {
        if file.taken >= file.length {
            let dropped = Stage::InFile(OpenFile { blocks, ..file });
            return stays(
                Stand {
                    stage: dropped,
                    ..stand
                },
                Reply::Ack,
            );
        }
        let missing = file.length - file.taken;
        let taken = file.taken + missing.min(block.body().len() as u64);
        let added = Stage::InFile(OpenFile {
            taken,
            blocks,
            ..file
        });
        return goes_on(stand, added, Reply::Ack);
    }
    if number == file.blocks % 256 {
        let reply = if file.blocks == 0 {
            Reply::AckStart
        } else {
            Reply::Ack
        };
        return stays(stand, reply);
    }
    ends(stand, RecvState::OutOfStep, Reply::Cancel)
}

/// An EOT of a file.
fn eot_heard(stand: Stand, file: OpenFile) -> (Stand, Reply)
    requires retries { stand.retries < 10 }
    requires files { stand.files ≤ 65535 }
    ensures stand { result.0 ≡ (table.eot_heard stand file).receiver }
    ensures reply { result.1 ≡ (table.eot_heard stand file).reply }
{
    if file.taken < file.length {
        return stays(stand, Reply::Nak);
    }
    if stand.confirm == Confirm::Twice && !file.first_eot {
        let accepted = Stage::InFile(OpenFile {
            first_eot: true,
            ..file
        });
        return goes_on(stand, accepted, Reply::Nak);
    }
    let files = stand.files + 1;
    goes_on(
        Stand { files, ..stand },
        Stage::AwaitHeader,
        Reply::AckStart,
    )
}

/// A delivery to a receiver that runs.
fn running_hears(stand: Stand, zero: &Result<Zero, HeaderFault>, heard: &Heard) -> (Stand, Reply)
    requires retries { stand.retries < 10 }
    requires files { stand.files ≤ 65535 }
    requires blocks { (file : OpenFile) → stand.stage ≡ Stage.InFile file →
        file.blocks < 2 ^ 64 - 1 }
    ensures stand { result.0 ≡ (table.running_hears stand stand.stage zero.now heard.now).receiver }
    ensures reply { result.1 ≡ (table.running_hears stand stand.stage zero.now heard.now).reply }
{
    match (stand.stage, heard) {
        (Stage::AwaitHeader, Heard::Item(Item::Block(block))) => {
            if block.number() == 0 {
                zero_heard(stand, zero)
            } else {
                ends(stand, RecvState::OutOfStep, Reply::Cancel)
            }
        }
        (Stage::AwaitHeader, Heard::Item(Item::Eot)) => {
            let reply = if stand.files > 0 {
                Reply::AckStart
            } else {
                Reply::Start
            };
            stays(stand, reply)
        }
        (Stage::AwaitHeader, Heard::Bad) => stays(stand, Reply::Start),
        (Stage::InFile(file), Heard::Item(Item::Block(block))) => block_heard(stand, file, block),
        (Stage::InFile(file), Heard::Item(Item::Eot)) => eot_heard(stand, file),
        (Stage::InFile(file), Heard::Bad) => {
            let reply = if file.blocks == 0 {
                Reply::Start
            } else {
                Reply::Nak
            };
            stays(stand, reply)
        }
        (_, Heard::Item(Item::Cancel)) => ends(stand, RecvState::Cancelled, Reply::Silence),
    }
}

/// What a delivery makes of a receiver, and the reply to it; `zero` is what the body of a block 0
/// stands for.
pub fn hears(stand: Stand, zero: &Result<Zero, HeaderFault>, heard: &Heard) -> (Stand, Reply)
    requires retries { stand.state ≡ RecvState.Running → stand.retries < 10 }
    requires files { stand.files ≤ 65535 }
    requires blocks { (file : OpenFile) → stand.stage ≡ Stage.InFile file →
        file.blocks < 2 ^ 64 - 1 }
    ensures stand { result.0 ≡ (table.hears stand zero.now heard.now).receiver }
    ensures reply { result.1 ≡ (table.hears stand zero.now heard.now).reply }
{
    match (stand.state, heard) {
        (RecvState::Running, _) => running_hears(stand, zero, heard),
        (RecvState::Finished, Heard::Item(Item::Block(block))) => {
            let _size = block.size();
            if block.number() == 0 && block.body()[0] == 0 {
                (stand, Reply::Ack)
            } else {
                (stand, Reply::Silence)
            }
        }
        _ => (stand, Reply::Silence),
    }
}
