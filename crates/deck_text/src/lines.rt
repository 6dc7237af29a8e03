//! The lines of a deck.
ghost use Rattle.std.specs.Prelude.{◌≡◌, ◌≢◌, ◌⊎◌, ℕ, ◌<◌, ◌≤◌, List, [], ◌∷◌, ◌++◌, length, drop, slice_index};
ghost use Rattle.deck_text.specs.Lines.{lines_of};

/// The first LF from an offset on, or the end of the bytes.
fn line_end(bytes: &[u8], at: usize) -> usize
    requires { at ≤ length bytes.now }
    ensures forward { at ≤ result }
    ensures within { result ≤ length bytes.now }
    ensures line { (k : ℕ) → at ≤ k → k < result → slice_index bytes.now k ≢ 10 }
    ensures stops { result < length bytes.now → slice_index bytes.now result ≡ 10 }
{
    let mut end = at;
    while end < bytes.len() && bytes[end] != b'\n' {
        end += 1;
    }
    end
}

/// The bytes without the one CR at their end, if they have one.
fn without_return(line: &[u8]) -> &[u8]
    ensures { (line.now ≡ result.now ++ 13 ∷ []) ⊎ ((result.now ≡ line.now) × ((front : List ℕ) → line.now ≢ front ++ 13 ∷ [])) }
{
    match line {
        [front @ .., b'\r'] => front,
        _ => line,
    }
}

/// The line that begins at an offset, and the offset of the next.
pub(crate) fn line_at(bytes: &[u8], at: usize) -> (&[u8], usize)
    requires { at < length bytes.now }
    ensures line { lines_of (drop at bytes.now) ≡ result.0.now ∷ lines_of (drop result.1 bytes.now) }
    ensures forward { at < result.1 }
    ensures within { result.1 ≤ length bytes.now }
{
    let end = line_end(bytes, at);
    if end == bytes.len() {
        return (&bytes[at..], end);
    }
    (without_return(&bytes[at..end]), end + 1)
}
