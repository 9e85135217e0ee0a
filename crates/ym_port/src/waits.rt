//! The waits that the reads of a port were given.

ghost use Rattle.std.specs.Prelude.{◌≡◌, ◌++◌, ◌∷◌, [], List};
ghost use base.Fml.{ftrue};
ghost use Rattle.ym_link.specs.declared.port.Wait.{Wait as Asked};
ghost use Rattle.ym_port.specs.Waits.{waits_code};

use std::marker::Model;
use ym_link::Wait;

/// The waits that reads were given, in order. They exist only in proofs, and take no bytes.
#[derive(Drop)]
pub struct Waits {
    ghost asked: { List Asked } by { waits_code },
}

impl Model for Waits {
    ghost also_owns = { λ _. ftrue };
}

impl Waits {
    /// No read was made.
    pub fn new() -> Waits
        ensures { result.asked ≡ [] }
    {
        Waits {}
    }

    /// A read was given this wait behind the others.
    #[inline(always)]
    pub fn then(&self, _wait: &Wait) -> Waits
        ensures { result.asked ≡ self.now.asked ++ _wait.now ∷ [] }
    {
        Waits {}
    }
}
