//! Laws of what is heard.

ghost use Rattle.std.specs.Prelude.{◌≡◌, ◌<◌, ◌+◌, ◌^◌, ℕ, Bool, List, length, true};
ghost use Rattle.ym_heard.specs.Ear.{is_first, rested};
ghost use Rattle.ym_heard.specs.Echoes.{block_of, IsDropped};
ghost use Rattle.ym_heard.specs.Hold.{control};
ghost use Rattle.ym_heard.specs.declared.ear.Ear.{Ear};
ghost use Rattle.ym_heard.specs.declared.ear.Echo.{Echo};
ghost use Rattle.ym_heard.specs.declared.hold.Hold.{Hold};
ghost use Rattle.ym_heard.specs.declared.hold.Say.TheVariants as say;
ghost use Rattle.ym_heard.specs.declared.limits.TheConstants.{WITHIN};
ghost use Rattle.ym_heard.specs.declared.sent.Kind.{Kind};

/// The ACK of an EOT, and that of the end block, is not heard when it comes.
pub fn last_acks_are_held()
    ensures eot { (is_first : Bool) (now : ℕ) (h : Hold)
        → (control Kind.Eot 0x06 is_first now h).say ≡ say.Nothing }
    ensures end { (is_first : Bool) (now : ℕ) (h : Hold)
        → (control Kind.End 0x06 is_first now h).say ≡ say.Nothing }
{}

/// The echo of a block is dropped whole, whatever bytes its data has, and what stands behind it is
/// listened to as if it had not come.
pub fn an_echo_is_dropped_whole()
    ensures { (first number : ℕ) (body : List ℕ) (now : ℕ) (e : Ear) → is_first first ≡ true
        → 0 < length body
        → now + WITHIN < 2 ^ 64 → (rested now e).echo ≡ Echo.Open
        → IsDropped (block_of first number body) now e }
{}
