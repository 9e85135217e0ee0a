//! Laws of the definitions: each is the promise of a function that does nothing.

ghost use Rattle.std.specs.Prelude.{◌≡◌, ◌∷◌, [], codes, replicate};
ghost use Rattle.ym_check.specs.Check.{check_of};

/// Worked values of the check.
#[tactic(auto, unfolding(crate::specs::Check::check_of))]
pub fn check_values()
    ensures digits { check_of (codes "123456789") ≡ 0x31c3 }
    ensures nothing { check_of [] ≡ 0x0000 }
    ensures lowest_bit { check_of (0x01 ∷ []) ≡ 0x1021 }
    ensures highest_bit { check_of (0x80 ∷ []) ≡ 0x9188 }
    ensures zeros_in_front { check_of (0x00 ∷ 0x00 ∷ 0x01 ∷ []) ≡ 0x1021 }
    ensures all_bits { check_of (0xff ∷ []) ≡ 0x1ef0 }
    ensures zeros_alone { check_of (replicate 128 0x00) ≡ 0x0000 }
{}
