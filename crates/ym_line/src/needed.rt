//! How many whole rounds a batch needs.

ghost use Rattle.std.specs.Prelude.{◌≡◌, ◌≤◌, length as list_length};
ghost use Rattle.ym_machine.specs.declared.limits.TheConstants.{MOST_FILES};
ghost use Rattle.ym_line.specs.Needed.{others_of, rounds_of};

use ym_file::{Shape, Source};
use ym_link::{Confirm, SourceFile};

/// How many frames of a file are no data blocks, its EOT as often as the receiver wants it.
fn others_of(confirm: Confirm) -> u128
    ensures { result ≡ others_of confirm }
{
    match confirm {
        Confirm::Twice => 3,
        Confirm::Once => 2,
    }
}

/// How many whole rounds bring a batch of at most 65,535 files across, where no round is lost or
/// damaged: two, and for each file its data blocks and three more, or two more where the receiver
/// takes the first EOT.
pub fn whole_rounds_needed<S: Source>(
    files: &[SourceFile<S>],
    shape: Shape,
    confirm: Confirm,
) -> u128
    requires { list_length files.now ≤ MOST_FILES }
    ensures { result ≡ rounds_of shape confirm files.now }
{
    let others = others_of(confirm);
    let mut rounds = 2;
    for file in files {
        rounds += u128::from(file.blocks(shape)) + others;
    }
    rounds
}
