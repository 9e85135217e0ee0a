//! Laws of the calls of engines: each is the promise of a function that does nothing.

mod any_peer;
mod examples;
mod pairs;

pub use any_peer::{
    a_delivery_brings_its_frame, a_finished_sender_was_acknowledged,
    a_receiver_commits_what_it_heard, a_sender_was_acknowledged, what_was_heard_is_on_the_tape,
    what_was_written_is_on_the_tape,
};
pub use examples::{
    a_file_is_spelled_once, an_ack_is_of_the_frame_before_it, lost_and_early_replies_pair_up,
    waits_in_vain_pair_up,
};
pub use pairs::{two_engines_commit_a_prefix, two_engines_complete};
