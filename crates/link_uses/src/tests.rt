//! Each module is named after what it tests.

mod batch;
mod ends;
mod every_receiver;
mod every_sender;
mod machine;
mod receiver;
mod receiver_table;
mod sender;
mod sender_table;

use ym_file::{Sink, Source};
use ym_frame::Reply;
use ym_link::{Heard, ReceiverInto, RecvState, SendState, SenderFrom};

// What either end is asked is asked of one over files of any kind: a call is dear to prove where it
// is made of one kind. These functions tell a proof nothing, and so cost it little.

/// The sender hears a delivery.
fn hear<S: Source>(sender: &mut SenderFrom<S>, bytes: &[u8]) {
    sender.hear(bytes);
}

/// Whether a sender has this frame to be sent, or none.
fn has_frame<S: Source>(sender: &SenderFrom<S>, want: Option<&[u8]>) -> bool {
    sender.frame() == want
}

/// Whether a sender is in this state, with so many files done.
fn stands<S: Source>(sender: &SenderFrom<S>, state: SendState, done: usize) -> bool {
    sender.state() == state && sender.done() == done
}

/// Whether a receiver answers a delivery by this reply.
fn replies<K: Sink>(receiver: &mut ReceiverInto<K>, heard: &Heard, reply: Reply) -> bool {
    match receiver.hear(heard) {
        Ok(told) => told == reply,
        Err(_) => false,
    }
}

/// Whether a receiver is in this state, with so many files committed.
fn is_left<K: Sink>(receiver: &ReceiverInto<K>, state: RecvState, committed: usize) -> bool {
    receiver.state() == state && receiver.committed() == committed
}

/// Whether two values are the same.
fn same<T: PartialEq>(left: &T, right: &T) -> bool {
    left == right
}
