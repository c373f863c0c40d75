ghost use Rattle.std.specs.Prelude.{◌≡◌, ◌≤◌, ◌<◌, ◌+◌, ◌^◌, length, IfSome};
ghost use Rattle.gr_script.specs.Pieces.{behind, closing, nesting_of, begins_braced, piece_len};
ghost use Rattle.gr_script.specs.declared.piece.Place.TheVariants.{Outside as outside};

/// Where a byte of a value's text stands.
#[derive(Clone, Copy)]
pub(crate) enum Place {
    /// Outside quoted texts.
    Outside,
    Quoted,
    /// Behind a backslash in a quoted text.
    Escaped,
}

/// How many braces are open, and where that is.
#[derive(Clone, Copy)]
pub(crate) struct Nesting {
    pub(crate) depth: usize,
    pub(crate) place: Place,
}

fn nesting_of(depth: usize, place: Place) -> Nesting
    ensures { result ≡ nesting_of depth place }
{
    Nesting { depth, place }
}

fn behind_outside(depth: usize, byte: u8) -> Nesting
    requires { depth + 1 < 2 ^ 64 }
    ensures { result ≡ behind (nesting_of depth outside) byte }
{
    match byte {
        b'{' => nesting_of(depth + 1, Place::Outside),
        b'}' => nesting_of(depth.saturating_sub(1), Place::Outside),
        b'"' => nesting_of(depth, Place::Quoted),
        _ => nesting_of(depth, Place::Outside),
    }
}

fn behind(before: Nesting, byte: u8) -> Nesting
    requires { before.depth + 1 < 2 ^ 64 }
    ensures exact { result ≡ behind before byte }
    ensures near { result.depth ≤ before.depth + 1 }
{
    match before.place {
        Place::Outside => behind_outside(before.depth, byte),
        Place::Quoted => match byte {
            b'"' => nesting_of(before.depth, Place::Outside),
            b'\\' => nesting_of(before.depth, Place::Escaped),
            _ => before,
        },
        Place::Escaped => nesting_of(before.depth, Place::Quoted),
    }
}

fn closing(text: &[u8]) -> Option<usize>
    ensures exact { result ≡ closing (nesting_of 0 outside) text.now }
    ensures within { IfSome result (λ place. place < length text.now) }
{
    let mut before = nesting_of(0, Place::Outside);
    for (place, byte) in text.iter().enumerate() {
        before = behind(before, *byte);
        if before.depth == 0 {
            return Some(place);
        }
    }
    None
}

fn begins_braced(text: &[u8]) -> bool
    ensures { result ≡ begins_braced text.now }
{
    match text {
        [] => false,
        [first, ..] => *first == b'{',
    }
}

/// How many bytes the piece has that a value is.
pub(crate) fn piece_len(text: &[u8]) -> usize
    ensures exact { result ≡ piece_len text.now }
    ensures within { result ≤ length text.now }
{
    if !begins_braced(text) {
        return text.len();
    }
    match closing(text) {
        Some(place) => place + 1,
        None => text.len(),
    }
}
