//! Each law at a kind of batch.

use super::same;
use ym_machine::{Batch, Confirm, laws};

/// Batches whose headers are names.
struct Names;

impl Batch for Names {
    ghost use Rattle.std.specs.Prelude.{List, ℕ};

    ghost Header = { List ℕ };
}

#[test]
fn laws_hold_of_names() {
    laws::halves_keep_machine_states::<Names>();
    laws::halves_keep_the_other_end::<Names>();
    laws::ends_stop_for_a_reason::<Names>();
    laws::ended_ends_stay::<Names>();
    laws::committed_is_reported_or_one_more::<Names>();
    laws::heard_is_next_or_last::<Names>();
    laws::acknowledged_is_taken::<Names>();
    laws::a_receiver_asks_for_what_it_awaits::<Names>();
    laws::a_run_goes_on::<Names>();
    laws::positions_of_a_batch::<Names>();
    laws::files_within_a_batch::<Names>();
    laws::what_comes_back();
    laws::left_falls_by_whole_rounds::<Names>();
    laws::neither_end_gives_up::<Names>();
    laws::both_finish::<Names>();
    laws::not_sooner::<Names>();
    laws::four_is_the_largest::<Names>();
}

#[test]
fn confirm_is_one_of_two(rt: HostRuntime) {
    assert!(rt; same(&Confirm::Twice, &Confirm::Twice));
    assert!(rt; !same(&Confirm::Twice, &Confirm::Once));
}
