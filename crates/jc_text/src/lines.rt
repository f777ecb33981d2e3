//! Bytes, cut into lines at their line feeds.
ghost use Rattle.std.specs.Prelude.{◌≡◌, ◌<◌, ◌∷◌, ◌==◌, [], length, position, MatchOption};
ghost use Rattle.jc_text.specs.Pieces.{pieces_of};

use memchr::memchr;

/// The place of the first line feed.
fn line_feed(bytes: &[u8]) -> Option<usize>
    ensures { result ≡ position (λ b. b == 10) bytes.now }
{
    memchr(b'\n', bytes)
}

/// The bytes before the first line feed, and those after it. None if there is no line feed.
pub fn first_line(bytes: &[u8]) -> Option<(&[u8], &[u8])>
    ensures { MatchOption result
        (pieces_of bytes.now ≡ bytes.now ∷ [])
        (λ x. (pieces_of bytes.now ≡ x.0.now ∷ pieces_of x.1.now) × (length x.1.now < length bytes.now)) }
{
    match line_feed(bytes) {
        None => None,
        Some(at) => Some((&bytes[..at], &bytes[at + 1..])),
    }
}
