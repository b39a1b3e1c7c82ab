//! Theorems about the definitions, each as a function that does nothing.

ghost use Rattle.std.specs.Prelude.{◌≡◌, ℕ, List};
ghost use Rattle.bk_record.specs.Files.{Files};
ghost use Rattle.bk_record.specs.Latest.{ScanTakesLast};
ghost use Rattle.bk_record.specs.Piece.{IsPieceAt};
ghost use Rattle.bk_record.specs.declared.piece.Piece.{Piece};
ghost use Rattle.bk_record.specs.Spelling.{IsBytes, IsReadOneWay};

/// Bytes are a body with exactly the computed records and the computed rest, or they are bad at
/// exactly one position; never both.
pub fn one_spelling()
    ensures { (from : ℕ) (bytes : List ℕ) → IsBytes bytes → IsReadOneWay from bytes }
{}

/// There is one piece at each position, so the result of `read_record` is determined by the bytes.
pub fn one_piece()
    ensures { (bytes : List ℕ) (at : ℕ) (first second : Piece)
        → IsPieceAt bytes at first → IsPieceAt bytes at second → first ≡ second }
{}

/// The scan of a set of files gives a key the payload of its last record, in order of log, then
/// position. It gives nothing exactly if no record has the key.
pub fn last_record_wins()
    ensures { (files : Files) → ScanTakesLast files }
{}
