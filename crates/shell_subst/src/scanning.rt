// A command text, cut into characters and marks.
ghost use Rattle.std.specs.Prelude.{◌≡◌, ◌∷◌, ◌++◌, [], ◌<◌, ℕ, List, IfSome, MatchOption, encode_utf8, length, codes};
ghost use Rattle.shell_subst.specs.Commands.{is_blank_next as is_blank_next_of};
ghost use Rattle.shell_subst.specs.Scan.{Cuts, is_blank_token};

// What a command text is made of.
#[derive(Clone, Copy, Debug, PartialEq, Eq)]
pub(crate) enum Token {
    // A character that stays.
    Char(char),
    // A `*` alone between whitespace.
    AllNames,
    // A `?` alone between whitespace, or between backquotes.
    OneName,
}

// The first token and the text behind it, or None at the end. `after_blank` says that whitespace or the start of the
// command stands before the text.
pub(crate) fn next_token(after_blank: bool, text: &str) -> Option<(Token, &str)>
    ensures { MatchOption result (text.now ≡ []) (λ x. Cuts after_blank text.now x.0 x.1.now) }
{
    let (c, later) = split_first_char(text)?;
    let is_alone = after_blank && is_blank_next(later);
    match c {
        '*' if is_alone => Some((Token::AllNames, later)),
        '?' if is_alone => Some((Token::OneName, later)),
        '`' => match behind_question(later) {
            Some(behind) => Some((Token::OneName, behind)),
            None => Some((Token::Char(c), later)),
        },
        _ => Some((Token::Char(c), later)),
    }
}

// Whether a token is whitespace.
pub(crate) fn is_blank(token: Token) -> bool
    ensures { result ≡ is_blank_token token }
{
    match token {
        Token::Char(' ' | '\t') => true,
        _ => false,
    }
}

// The first character and the text behind it.
fn split_first_char(text: &str) -> Option<(char, &str)>
    ensures { MatchOption result (text.now ≡ [])
        (λ (c, rest). (text.now ≡ encode_utf8 c ++ rest.now) ×
        (length rest.now < length text.now)) }
{
    let mut chars = text.chars();
    match chars.next() {
        Some(c) => Some((c, chars.as_str())),
        None => None,
    }
}

// Whether whitespace comes next, as which the end counts.
fn is_blank_next(text: &str) -> bool
    ensures { result ≡ is_blank_next_of text.now }
{
    match text.as_bytes() {
        [] | [b' ' | b'\t', ..] => true,
        _ => false,
    }
}

// The text behind the rest of a mark, which is a `?` and a backquote.
fn behind_question(text: &str) -> Option<&str>
    ensures { MatchOption result ((rest : List ℕ) → text.now ≡ codes "?`" ++ rest → ⊥)
        (λ rest. text.now ≡ codes "?`" ++ rest.now) }
{
    text.strip_prefix("?`")
}
