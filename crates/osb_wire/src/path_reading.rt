//! The path of a target, as it is taken, and the text of an id in it.
ghost use Rattle.std.specs.Prelude.{◌≡◌, ◌≤◌, ◌<◌, ◌==◌, not, length, take, drop, MatchOption, option_map};
ghost use Rattle.std.specs.List.{position_or_len};
ghost use Rattle.percent_encoding.specs.Percent.{percent_decode as decoded};
ghost use Rattle.osb_wire.specs.Paths as paths;

use crate::id_texts::LONGEST_ID;
use percent_encoding::{AsciiSet, NON_ALPHANUMERIC, ascii_set, percent_decode};

/// The bytes of an id's text that a path has escaped: all but letters, digits, `-`, `.`, `_` and `~`.
pub const SEGMENT: AsciiSet = ascii_set!(
    NON_ALPHANUMERIC
        .remove(b'-')
        .remove(b'.')
        .remove(b'_')
        .remove(b'~')
);

/// Where a byte first stands, or the end. It takes no memory.
pub fn place_of(byte: u8, text: &[u8]) -> usize
    ensures place { result ≡ position_or_len (λ b. b == byte) text.now }
    ensures within { result ≤ length text.now }
{
    match text.iter().position(|&b| b == byte) {
        Some(place) => place,
        None => text.len(),
    }
}

// What follows a scheme, where a text begins with it, in either case.
fn after_scheme<'p>(scheme: &[u8], text: &'p [u8]) -> Option<&'p [u8]>
    ensures rest { option_map (λ rest. rest.now) result ≡ paths.after_scheme scheme.now text.now }
{
    let (front, rest) = text.split_at_checked(scheme.len())?;
    if front.eq_ignore_ascii_case(scheme) {
        Some(rest)
    } else {
        None
    }
}

// What follows the authority of a target in absolute form.
fn below_authority(rest: &[u8]) -> &[u8]
    ensures path { result.now ≡ drop (paths.slash_at rest.now) rest.now }
{
    &rest[place_of(b'/', rest)..]
}

// The path of a target that may be in absolute form.
fn own_path(path: &[u8]) -> &[u8]
    ensures path { result.now ≡ paths.own_path path.now }
{
    if let Some(rest) = after_scheme(b"http://", path) {
        return below_authority(rest);
    }
    match after_scheme(b"https://", path) {
        Some(rest) => below_authority(rest),
        None => path,
    }
}

// How many slashes stand at the front.
fn slashes(path: &[u8]) -> usize
    ensures slashes { result ≡ paths.slashes path.now }
    ensures within { result ≤ length path.now }
{
    match path.iter().position(|&b| b != b'/') {
        Some(place) => place,
        None => path.len(),
    }
}

// With one slash in the place of several at the front.
fn with_one_slash(path: &[u8]) -> &[u8]
    ensures path { result.now ≡ paths.with_one_slash path.now }
{
    let extra = slashes(path).saturating_sub(1);
    &path[extra..]
}

// Without a slash at the end.
fn without_last_slash(path: &[u8]) -> &[u8]
    ensures path { result.now ≡ paths.without_last_slash path.now }
{
    if path.is_empty() {
        return path;
    }
    let last = path.len() - 1;
    if path[last] == b'/' {
        &path[..last]
    } else {
        path
    }
}

/// The plain path that a target's path stands for. It takes no memory.
pub fn plain_path(path: &[u8]) -> &[u8]
    ensures path { result.now ≡ paths.plain_path path.now }
{
    without_last_slash(with_one_slash(own_path(path)))
}

// Decodes a segment into a buffer, if it has room.
fn decode_into(raw: &[u8], buffer: &mut [u8; LONGEST_ID]) -> Option<usize>
    ensures decoded { MatchOption result (LONGEST_ID < length (decoded raw.now))
        (λ count. (count ≤ LONGEST_ID) × (take count buffer.new ≡ decoded raw.now)) }
{
    let mut count = 0usize;
    for byte in percent_decode(raw) {
        if count == LONGEST_ID {
            return None;
        }
        buffer[count] = byte;
        count += 1;
    }
    Some(count)
}

/// Whether a text is `.` or `..`, which no path can carry as an id. It takes no memory.
pub fn is_dots(text: &str) -> bool
    ensures dots { result ≡ paths.is_dots text.now }
{
    text == "." || text == ".."
}

/// The text that a segment of a path stands for, in a buffer; none where it is no text of an id. It takes no memory.
#[tactic(auto, using(crate::proofs::Segments::segment_steps))]
pub fn segment_text<'b>(raw: &[u8], buffer: &'b mut [u8; LONGEST_ID]) -> Option<&'b str>
    ensures text { option_map (λ text. text.now) result ≡ paths.segment_text raw.now }
{
    let count = decode_into(raw, buffer)?;
    match std::str::from_utf8(&buffer[..count]) {
        Ok(text) => { if is_dots(text) { None } else { Some(text) } }
        Err(_) => None,
    }
}
