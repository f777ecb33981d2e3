//! Parts of a word.
ghost use Rattle.std.specs.Prelude.{◌≡◌, ◌<◌, length, drop, Some, None, IfSome, MatchOption};
ghost use Rattle.jc_text.specs.ProcessWords.{begins_with};
ghost use Rattle.jc_litmus.specs.WordParts.{sign_at, halves_of};

/// Whether a word begins with this text.
pub(crate) fn begins_with(text: &str, word: &[u8]) -> bool
    ensures { result ≡ begins_with text.now word.now }
{
    begins(text.as_bytes(), word)
}

/// Whether bytes begin with these.
fn begins(first: &[u8], bytes: &[u8]) -> bool
    ensures { result ≡ begins_with first.now bytes.now }
{
    first.len() <= bytes.len() && &bytes[..first.len()] == first
}

/// The part of a word after its first `count` bytes.
pub(crate) fn behind(count: usize, word: &[u8]) -> &[u8]
    ensures { result.now ≡ drop count word.now }
{
    if word.len() < count {
        &[]
    } else {
        &word[count..]
    }
}

/// The place of the first byte that is this sign.
fn sign_at(sign: u8, word: &[u8]) -> Option<usize>
    ensures place { result ≡ sign_at sign word.now }
    ensures within { IfSome result (λ at. at < length word.now) }
{
    word.iter().position(|b| *b == sign)
}

/// The parts of a word before the first such byte, and after it.
pub(crate) fn halves_of(sign: u8, word: &[u8]) -> Option<(&[u8], &[u8])>
    ensures { MatchOption result
        (halves_of sign word.now ≡ None)
        (λ halves. halves_of sign word.now ≡ Some (halves.0.now, halves.1.now)) }
{
    match sign_at(sign, word) {
        None => None,
        Some(at) => Some((&word[..at], &word[at + 1..])),
    }
}
