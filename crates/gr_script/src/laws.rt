ghost use Rattle.std.specs.Prelude.{◌≡◌, ◌⊎◌, ◌++◌, ℕ, List, true, false, length, take};
ghost use Rattle.gr_script.specs.Braces.{IsBraced};
ghost use Rattle.gr_script.specs.Pieces.{begins_braced, piece_len};

/// Where the text of a value ends in its line: a text in braces, which are in balance but for those in
/// strings, is the piece, whatever stands behind it; where no beginning is such a text, all is one piece.
pub fn values_end_with_their_brace()
    ensures braced { (text rest : List ℕ) → IsBraced text → piece_len (text ++ rest) ≡ length text }
    ensures ended { (text : List ℕ) → begins_braced text ≡ true
        → IsBraced (take (piece_len text) text) ⊎ (piece_len text ≡ length text) }
    ensures other { (text : List ℕ) → begins_braced text ≡ false → piece_len text ≡ length text }
{}
