ghost use Rattle.std.specs.Prelude.{◌≡◌, ◌∷◌, ◌<◌, ◌≤◌, ◌+◌, ◌==◌, false, length, IfSome, MatchOption};
ghost use Rattle.std.specs.List.{position_or_len};
ghost use Rattle.match_pattern.specs.Globs.{globs, place_of, star};

const STAR: u8 = b'*';

// Where a piece first stands in a text. None where it doesn't stand there.
pub(crate) fn find(piece: &[u8], text: &[u8]) -> Option<usize>
    ensures place { result ≡ place_of piece.now text.now }
    ensures within { IfSome result (λ at. at + length piece.now ≤ length text.now) }
{
    let mut at = 0;
    while !text[at..].starts_with(piece) {
        if at == text.len() {
            return None;
        }
        at += 1;
    }
    Some(at)
}

// Whether a text fits a pattern in which a star stands for any run of bytes, and any other byte for itself.
// The time is at worst the product of the lengths.
pub(crate) fn globs(pattern: &[u8], text: &[u8]) -> bool
    ensures { result ≡ globs pattern.now text.now }
{
    let star = star_in(pattern);
    let front = &pattern[..star];
    if star == pattern.len() {
        text == front
    } else {
        text.starts_with(front) && globs_behind_star(&pattern[star + 1..], &text[star..])
    }
}

// The same of a pattern that a star stands before.
fn globs_behind_star(pattern: &[u8], text: &[u8]) -> bool
    ensures { result ≡ globs (star ∷ pattern.now) text.now }
{
    let mut pattern = pattern;
    let mut text = text;
    let mut at = star_in(pattern);
    while at < pattern.len() {
        let Some((pattern_left, text_left)) = behind_piece(pattern, at, text) else {
            return false;
        };
        pattern = pattern_left;
        text = text_left;
        at = star_in(pattern);
    }
    text.ends_with(pattern)
}

// What is left behind the piece between two stars, of which the second stands in the pattern at this place.
// The piece may be taken where it first stands: what can follow it later in the text can follow it there too.
fn behind_piece<'a>(pattern: &'a [u8], at: usize, text: &'a [u8]) -> Option<(&'a [u8], &'a [u8])>
    requires place { at ≡ position_or_len (λ b. b == star) pattern.now }
    requires within { at < length pattern.now }
    ensures left { MatchOption result (globs (star ∷ pattern.now) text.now ≡ false)
        (λ left. globs (star ∷ left.0.now) left.1.now ≡ globs (star ∷ pattern.now) text.now) }
    ensures shorter { IfSome result (λ left. length left.0.now < length pattern.now) }
{
    let Some(start) = find(&pattern[..at], text) else {
        return None;
    };
    Some((&pattern[at + 1..], &text[start + at..]))
}

// Where the first star stands, or the length where there is none.
fn star_in(pattern: &[u8]) -> usize
    ensures { result ≡ position_or_len (λ b. b == star) pattern.now }
{
    pattern.iter().take_while(|b| **b != STAR).count()
}
