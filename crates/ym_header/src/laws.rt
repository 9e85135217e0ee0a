//! Laws of the definitions: each is the promise of a function that does nothing.

ghost use Rattle.std.specs.Prelude.{◌≡◌, ◌≢◌, ◌⊎◌, ◌<◌, ◌≤◌, ◌^◌, ◌++◌, List, ℕ, slice_index, length};
ghost use Rattle.ym_header.specs.Header.{HeaderParts, IsName, IsHeader, length_limit};
ghost use Rattle.ym_header.specs.HeaderReading.{Reads, IsFault};
ghost use Rattle.ym_header.specs.Text.{text, end_text};
ghost use Rattle.ym_header.specs.declared.fault.HeaderFault.{HeaderFault};
ghost use Rattle.ym_header.specs.declared.reading.Zero.{Zero};

/// A body stands for the end or for one header, or it has one fault, whatever the limit on the
/// length.
pub fn one_meaning()
    ensures some { (limit : ℕ) (body : List ℕ) →
        ((z : Zero) × Reads limit body z) ⊎ ((f : HeaderFault) × IsFault limit body f) }
    ensures one_value { (limit : ℕ) (body : List ℕ) (y z : Zero) →
        Reads limit body y → Reads limit body z → y ≡ z }
    ensures one_fault { (limit : ℕ) (body : List ℕ) (f g : HeaderFault) →
        IsFault limit body f → IsFault limit body g → f ≡ g }
    ensures not_both { (limit : ℕ) (body : List ℕ) (z : Zero) (f : HeaderFault) →
        Reads limit body z → IsFault limit body f → ⊥ }
{}

/// What is written is read, and as nothing else. A length is a `u64`, so the limit is below 2^64.
pub fn written_is_read()
    ensures reads { (limit : ℕ) (h : HeaderParts) → limit < 2 ^ 64 → IsHeader limit h →
        Reads limit (text h) (Zero.File h) }
    ensures alone { (limit : ℕ) (h : HeaderParts) (z : Zero) → limit < 2 ^ 64 → IsHeader limit h →
        Reads limit (text h) z → z ≡ Zero.File h }
    ensures end { (limit : ℕ) → Reads limit end_text Zero.End }
    ensures first_byte { (h : HeaderParts) → IsName h.name → slice_index (text h) 0 ≢ 0 }
{}

/// What is written of a header fills a short or a long body.
pub fn written_is_body()
    ensures { (h : HeaderParts) → IsHeader length_limit h →
        (length (text h) ≡ 128) ⊎ (length (text h) ≡ 1024) }
{}

/// A header that is read is within the limits.
pub fn read_is_within()
    ensures { (limit : ℕ) (body : List ℕ) (h : HeaderParts) →
        Reads limit body (Zero.File h) → IsHeader limit h }
{}

/// What a body stands for stays under a wider limit on the length, as from 2^32 - 1 to 2^63 - 1.
pub fn wider_limit()
    ensures { (narrow wide : ℕ) (body : List ℕ) (z : Zero) → narrow ≤ wide →
        Reads narrow body z → Reads wide body z }
{}
