//! Laws of a record: each is the promise of a function that does nothing.

ghost use Rattle.std.specs.Prelude.{◌≡◌, ℕ, List, All, Ok};
ghost use Rattle.ym_capture.specs.RecordText.{Piece, IsPiece, head_of, text_of};
ghost use Rattle.ym_inspect.specs.RecordBack.{bytes_of};
ghost use Rattle.ym_inspect.specs.RecordRead.{and_chars, recorded, so_much};
ghost use Rattle.ym_inspect.specs.declared.in_line.InLine.TheVariants.{Start, Bytes};
ghost use Rattle.ym_told.specs.declared.way.Direction.{Direction};

/// The lines of pieces, read as a record, say the bytes of these pieces, each with its way, in
/// their order.
pub fn a_record_says_what_passed()
    ensures { (pieces : List Piece) → All IsPiece pieces
        → recorded (text_of pieces) ≡ Ok (bytes_of pieces) }
{}

/// Who has read a line up to its bytes has read the moment and the way of its piece.
pub fn a_line_says_when()
    ensures { (p : Piece) (number : ℕ) (buffered : List ℕ) (read : List (Direction × ℕ))
        → IsPiece p
        → and_chars (Ok (so_much Start number buffered read)) (head_of p.at p.way)
        ≡ Ok (so_much (Bytes p.at p.way) number buffered read) }
{}
