//! Laws of the definitions: each is the promise of a function that does nothing.

ghost use Rattle.std.specs.Prelude.{◌≡◌, ℕ, List, None, Some, true};
ghost use Rattle.ym_folder.specs.DirSink.{DirSinkParts, stands, IsSafe};
ghost use Rattle.ym_folder.specs.OneName.{may_be_one};
ghost use Rattle.ym_folder.specs.SinkCalls.{AreCalls, last_of, IsAsPromised};

/// After any calls of a sink, of which one leads to the next, nothing that was there is
/// overwritten: each file has the bytes that it had.
pub fn nothing_is_overwritten()
    ensures { (sink : DirSinkParts) (calls : List DirSinkParts) → AreCalls sink calls →
        sink.part ≡ None → (name bytes : List ℕ) → IsSafe sink.leftover name →
        stands sink name ≡ Some bytes → stands (last_of sink calls) name ≡ Some bytes }
{}

/// After any calls of a sink a name that is new, or has other bytes, is that of a part, or has all
/// bytes that were put into a file of that name. Without hard links it may be empty.
pub fn names_appear_whole()
    ensures { (sink : DirSinkParts) (calls : List DirSinkParts) → AreCalls sink calls →
        (name bytes : List ℕ) → stands (last_of sink calls) name ≡ Some bytes →
        IsAsPromised sink calls name bytes }
{}

/// A name may be one with itself: where names may not be one, they differ.
pub fn a_name_may_be_itself()
    ensures { (name : List ℕ) → may_be_one name name ≡ true }
{}
