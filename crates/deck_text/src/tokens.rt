//! The tokens of a line.
ghost use Rattle.std.specs.Prelude.{◌≡◌, ℕ, true, false, slice_index, ◌+◌, ◌-◌, ◌<◌, ◌≤◌, [], ◌∷◌, length, take, drop, IfNone, IfSome};
ghost use Rattle.std.specs.Char.{is_ascii_graphic};
ghost use Rattle.deck_text.specs.Tokens.{is_blank, piece, pieces_at};

/// Where a token, or a byte that belongs to none, begins and ends in its line.
#[derive(Clone, Copy, Debug)]
pub(crate) struct Span {
    pub start: usize,
    pub end: usize,
}

// Whether the byte is a space or a tab.
fn is_blank(byte: u8) -> bool
    ensures { result ≡ is_blank byte }
{
    byte == b' ' || byte == b'\t'
}

// The first offset from `at` on where no blank stands.
fn after_blanks(line: &[u8], at: usize) -> usize
    requires { at ≤ length line.now }
    ensures within { result ≤ length line.now }
    ensures same { pieces_at line.now result ≡ pieces_at line.now at }
    ensures stops { result < length line.now → is_blank (slice_index line.now result) ≡ false }
{
    let mut start = at;
    while start < line.len() && is_blank(line[start]) {
        start += 1;
    }
    start
}

// The first offset after `at` where no byte of a token stands.
fn run_end(line: &[u8], at: usize) -> usize
    requires { at < length line.now }
    ensures forward { at < result }
    ensures within { result ≤ length line.now }
    ensures run { (k : ℕ) → at < k → k < result → is_ascii_graphic (slice_index line.now k) ≡ true }
    ensures stops { result < length line.now → is_ascii_graphic (slice_index line.now result) ≡ false }
{
    let mut end = at + 1;
    while end < line.len() && line[end].is_ascii_graphic() {
        end += 1;
    }
    end
}

/// The first piece from `at` on.
pub(crate) fn next_piece(line: &[u8], at: usize) -> Option<Span>
    requires { at ≤ length line.now }
    ensures none { IfNone result (pieces_at line.now at ≡ []) }
    ensures some { IfSome result (λ span. pieces_at line.now at
        ≡ piece (span.start + 1) (take (span.end - span.start) (drop span.start line.now)) ∷ pieces_at line.now span.end) }
    ensures within { IfSome result (λ span. (span.start < span.end) × (span.end ≤ length line.now)) }
{
    let start = after_blanks(line, at);
    if start == line.len() {
        return None;
    }
    if line[start].is_ascii_graphic() {
        let end = run_end(line, start);
        return Some(Span { start, end });
    }
    Some(Span {
        start,
        end: start + 1,
    })
}
