//! The words of a line: maximal runs of bytes other than space and tab.
ghost use Rattle.std.specs.Prelude.{◌≡◌, ◌≢◌, ◌≤◌, ◌<◌, ℕ, true, false, [], ◌∷◌, length, slice_index, MatchOption};
ghost use Rattle.osb_language.specs.Words.{is_blank, words_in};

use memchr::memchr2;

fn is_blank(byte: u8) -> bool
    ensures blank { result ≡ is_blank byte }
{
    byte == b' ' || byte == b'\t'
}

// The line from its first word on.
pub fn skip_blanks(line: &[u8]) -> &[u8]
    ensures same { words_in result.now ≡ words_in line.now }
    ensures begins { 0 < length result.now → is_blank (slice_index result.now 0) ≡ false }
{
    let mut rest = line;
    while !rest.is_empty() && is_blank(rest[0]) {
        rest = &rest[1..];
    }
    rest
}

// How many bytes stand before the first blank.
fn word_length(line: &[u8]) -> usize
    ensures within { result ≤ length line.now }
    ensures run { (k : ℕ) → k < result → is_blank (slice_index line.now k) ≡ false }
    ensures stop { result < length line.now → is_blank (slice_index line.now result) ≡ true }
{
    memchr2(b' ', b'\t', line).unwrap_or(line.len())
}

/// The first word of a line and what follows it, or none where the line has no word (this project's choice). It
/// takes no memory.
pub fn split_word(line: &[u8]) -> Option<(&[u8], &[u8])>
    ensures words { MatchOption result (words_in line.now ≡ [])
        (λ parts. words_in line.now ≡ parts.0.now ∷ words_in parts.1.now) }
{
    let rest = skip_blanks(line);
    if rest.is_empty() {
        return None;
    }
    Some(rest.split_at(word_length(rest)))
}

// The one word of a line, or none where it has more or fewer.
pub fn one_word(line: &[u8]) -> Option<&[u8]>
    ensures words { MatchOption result (length (words_in line.now) ≢ 1)
        (λ word. words_in line.now ≡ word.now ∷ []) }
{
    let (word, rest) = split_word(line)?;
    match split_word(rest) {
        None => Some(word),
        Some(_) => None,
    }
}

// The two words of a line, or none where it has more or fewer.
pub fn two_words(line: &[u8]) -> Option<(&[u8], &[u8])>
    ensures words { MatchOption result (length (words_in line.now) ≢ 2)
        (λ words. words_in line.now ≡ words.0.now ∷ words.1.now ∷ []) }
{
    let (first, rest) = split_word(line)?;
    let second = one_word(rest)?;
    Some((first, second))
}

// The three words of a line, or none where it has more or fewer.
pub fn three_words(line: &[u8]) -> Option<(&[u8], &[u8], &[u8])>
    ensures words { MatchOption result (length (words_in line.now) ≢ 3)
        (λ words. words_in line.now ≡ words.0.now ∷ words.1.now ∷ words.2.now ∷ []) }
{
    let (first, rest) = split_word(line)?;
    let (second, third) = two_words(rest)?;
    Some((first, second, third))
}

/// The four words of a line, or none where it has more or fewer. It takes no memory.
pub fn four_words(line: &[u8]) -> Option<(&[u8], &[u8], &[u8], &[u8])>
    ensures words { MatchOption result (length (words_in line.now) ≢ 4)
        (λ words. words_in line.now ≡ words.0.now ∷ words.1.now ∷ words.2.now ∷ words.3.now ∷ []) }
{
    let (first, rest) = split_word(line)?;
    let (second, third, fourth) = three_words(rest)?;
    Some((first, second, third, fourth))
}
