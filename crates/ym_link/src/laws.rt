//! Laws of the definitions: each is the promise of a function that does nothing.

mod deliveries;
mod receiver;
mod sender;

pub use deliveries::{
    a_delivery_is_short, a_receiver_hears_few_deliveries, a_sender_hears_few_deliveries,
};
pub use receiver::{
    Headers, a_block_zero_means_one_thing, a_delivery_has_one_step, a_planned_file_is_sent,
    a_standing_receiver_follows_the_machine,
};
pub use sender::{
    a_delivery_goes_one_position, a_sender_follows_the_machine, a_settled_delivery_stays,
    a_step_keeps_the_batch, progress_is_a_change, what_came_back_is_of_the_reply,
};
