//! A law of sessions: the promise of a function that does nothing.

ghost use Rattle.std.specs.Prelude.{◌≡◌, ◌≢◌, ℕ, List, Option, Some};
ghost use Rattle.ym_play.specs.Session.{SessionGives};
ghost use Rattle.ym_play.specs.SessionOver.{Scene, SessionEnds};

/// A session over known bytes, in which no read and no write failed, gives what its script says.
pub fn a_known_script_is_played()
    ensures { (text before wrong : List ℕ) (remaining : Option (List ℕ)) (old new : Scene)
        (status : ℕ)
        → remaining ≡ Some text → old.out ≡ Some before → old.err ≡ Some wrong
        → SessionEnds remaining old status new → status ≢ 3
        → SessionGives text before wrong old.told old.carries_failed status new.out new.err new.told
        new.carries_failed }
{}
