//! What an end hears of a delivery.

ghost use Rattle.std.specs.Prelude.{◌≡◌};
ghost use Rattle.ym_core.specs.HeardRef.{owned_heard};

use ym_frame::{Item, ItemRef};

/// What an end hears of a delivery.
#[derive(Drop)]
pub enum Heard {
    /// The item whose frame the delivery begins with.
    Item(Item),
    /// No prefix of the delivery is a frame.
    Bad,
}

/// What an end hears of a delivery, with a block's body where it stands.
#[derive(Drop)]
pub enum HeardRef<'a> {
    /// The item whose frame the delivery begins with.
    Item(ItemRef<'a>),
    /// No prefix of the delivery is a frame.
    Bad,
}

impl<'a> HeardRef<'a> {
    /// The same, a block's body where it stands in `heard`.
    pub fn of(heard: &'a Heard) -> HeardRef<'a>
        ensures { owned_heard result ≡ heard.entry.now }
    {
        match heard {
            Heard::Item(item) => HeardRef::Item(ItemRef::of(item)),
            Heard::Bad => HeardRef::Bad,
        }
    }
}
