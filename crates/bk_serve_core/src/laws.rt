//! Theorems about the definitions. The functions do nothing.

ghost use Rattle.std.specs.Prelude.{◌≡◌, ℕ, List, Ok};
ghost use Rattle.bk_serve_core.specs.Fields.{IsBytes};
ghost use Rattle.bk_serve_core.specs.Requests.{Ask, ask_bytes, asked};
ghost use Rattle.bk_serve_core.specs.Requests as requests;
ghost use Rattle.bk_serve_core.specs.Replies.{Told, told_bytes, replied};
ghost use Rattle.bk_serve_core.specs.Replies as replies;

/// The bytes of a request are decoded to that request, and bytes that are decoded to a request are
/// its bytes: each request has one encoding, and each byte string is at most one request.
pub fn requests_have_one_encoding()
    ensures again { (a : Ask) → requests.Fits a → asked (ask_bytes a) ≡ Ok a }
    ensures taken { (bytes : List ℕ) (a : Ask) → IsBytes bytes → asked bytes ≡ Ok a → (bytes ≡ ask_bytes a) × requests.Fits a }
{}

/// The same for replies.
pub fn replies_have_one_encoding()
    ensures again { (t : Told) → replies.Fits t → replied (told_bytes t) ≡ Ok t }
    ensures taken { (bytes : List ℕ) (t : Told) → IsBytes bytes → replied bytes ≡ Ok t → (bytes ≡ told_bytes t) × replies.Fits t }
{}
