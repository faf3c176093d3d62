// Texts as lines.
ghost use Rattle.std.specs.Prelude.{◌≡◌, ◌<◌, ◌≤◌, [], ◌∷◌, length, MatchOption};
ghost use Rattle.script_words.specs.Lines.{lines};

// The first line, without its newline, and what stands behind it. None where the text is empty.
pub(crate) fn split_line(text: &[u8]) -> Option<(&[u8], &[u8])>
    ensures { MatchOption result (lines text.now ≡ [])
        (λ p. (lines text.now ≡ p.0.now ∷ lines p.1.now) × (length p.1.now < length text.now)) }
{
    if text.is_empty() {
        return None;
    }
    match text.iter().position(|b| *b == b'\n') {
        Some(end) => Some((&text[..end], &text[end + 1..])),
        None => Some((text, &[])),
    }
}

// The number of lines.
pub(crate) fn count_lines(text: &[u8]) -> usize
    ensures count { result ≡ length (lines text.now) }
    ensures bound { result ≤ length text.now }
{
    let mut count = 0;
    let mut rest = text;
    while let Some((_, behind)) = split_line(rest) {
        count += 1;
        rest = behind;
    }
    count
}
