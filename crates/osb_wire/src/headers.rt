//! The headers of requests and of responses.
ghost use Rattle.std.specs.Prelude.{◌≡◌, IfOk, option_map, string_bytes};
ghost use Rattle.std.specs.Char.{is_ascii_digit};
ghost use Rattle.std.specs.List.{list_all};
ghost use Rattle.std.specs.Str.{bytes_eq};
ghost use Rattle.base64.specs.Engines.{standard};
ghost use Rattle.base64.specs.GeneralPurpose.{decode_of};
ghost use Rattle.osb_wire.specs.HeaderValues as headers;

use crate::Refusal;
use crate::json_body::read_object;
use crate::target_reading::split_at_byte;
use base64::DecodeAllocError;
use base64::engine::general_purpose::STANDARD;
use osb_message::Memory;
use std::alloc::Global;

/// The header in which a platform names the version that it speaks (section API Version Header).
pub const API_VERSION_HEADER: &str = "X-Broker-API-Version";

/// The header in which a platform names the user behind a request (section Originating Identity).
pub const ORIGINATING_IDENTITY_HEADER: &str = "X-Broker-API-Originating-Identity";

/// The header in which a platform names a request, and a broker its answer (section Request Identity).
pub const REQUEST_IDENTITY_HEADER: &str = "X-Broker-API-Request-Identity";

/// The version that a platform with this library speaks, the value of that header.
pub const API_VERSION: &str = "2.17";

/// The value of `Content-Type` for each body that isn't empty, of requests and of responses.
pub const CONTENT_TYPE: &str = "application/json";

// Whether each byte is a decimal digit.
fn are_digits(text: &[u8]) -> bool
    ensures digits { result ≡ list_all is_ascii_digit text.now }
{
    text.iter().all(|&byte| byte.is_ascii_digit())
}

// Whether each byte is a decimal digit, and there is one.
fn is_number(text: &[u8]) -> bool
    ensures number { result ≡ headers.is_number text.now }
{
    !text.is_empty() && are_digits(text)
}

// Whether this is a version that a broker speaks.
fn is_version(value: &str) -> bool
    ensures version { result ≡ headers.is_version value.now }
{
    match value.as_bytes().strip_prefix(b"2.") {
        Some(minor) => is_number(minor),
        None => false,
    }
}

/// Judges the version that a platform names in [`API_VERSION_HEADER`]; none where the request has no such
/// header. Accepted is `2.` with a number in decimal digits, whichever. It takes no memory. Section API
/// Version Header; that every 2.x is accepted, and that a request must name one, is this project's choice.
///
/// # Errors
///
/// [`Refusal::BadVersion`] for every other value, and for none.
pub fn api_version(value: Option<&str>) -> Result<(), Refusal>
    ensures version { result ≡ headers.version_judged (option_map (λ text. text.now) value.entry) }
{
    match value {
        Some(text) => {
            if is_version(text) {
                Ok(())
            } else {
                Err(Refusal::BadVersion)
            }
        }
        None => Err(Refusal::BadVersion),
    }
}

// Whether two lists of bytes are the same. Every byte of both is looked at, wherever they differ.
fn are_same(left: &[u8], right: &[u8]) -> bool
    ensures same { result ≡ bytes_eq left.now right.now }
{
    if left.len() != right.len() {
        return false;
    }
    let mut differences = 0usize;
    for place in 0..left.len() {
        differences += usize::from(left[place] != right[place]);
    }
    differences == 0
}

/// Whether a platform names this user and this password in the header `Authorization`, by HTTP's Basic
/// scheme (section Authentication): `Basic`, in letters of either case, one blank, and the base64 of the user, a colon
/// and the password, padded, with nothing after it. Where it isn't so, HTTP wants a 401 with the header
/// `WWW-Authenticate`. The user must have no colon, since another user and password would read the same. An empty
/// user with an empty password, as a program has them that was started without a login, is never accepted (this
/// project's choice). Either of them alone may be empty.
///
/// Of values of the right length every byte is compared, wherever they differ, so that the time tells no
/// more than the length. That is how the code is written; no proof speaks of time.
///
/// # Errors
///
/// [`Memory`] where an allocation failed. The same call may be made again.
pub fn basic_auth(alloc: Global, value: &str, user: &str, password: &str) -> Result<bool, Memory>
    ensures authorized { IfOk result (λ authorized. authorized
        ≡ headers.is_authorized value.now user.now password.now) }
{
    if user.is_empty() && password.is_empty() {
        return Ok(false);
    }
    let Some((scheme, given)) = value.as_bytes().split_at_checked(6) else {
        return Ok(false);
    };
    if !scheme.eq_ignore_ascii_case(b"Basic ") {
        return Ok(false);
    }
    let credentials = format!(in alloc; "{user}:{password}")?;
    let wanted = STANDARD.encode(alloc, credentials.as_bytes())?;
    Ok(are_same(given, wanted.as_bytes()))
}

/// The seconds that a broker names in the header `Retry-After` of an answer, after which a platform polls
/// again: a number in decimal digits below 2^64, and nothing else; none for every other value, a date as
/// well. It takes no memory. Section Polling Last Operation for Service Instances, which has seconds alone.
pub fn retry_after(value: &str) -> Option<u64>
    ensures seconds { result ≡ headers.seconds_in value.now }
{
    if !is_number(value.as_bytes()) {
        return None;
    }
    match value.parse::<u64>() {
        Ok(seconds) => Some(seconds),
        Err(_) => None,
    }
}

/// The user behind a request, as the platform names it in [`ORIGINATING_IDENTITY_HEADER`].
#[derive(Drop)]
pub struct OriginatingIdentity {
    /// The platform, as `cloudfoundry` or `kubernetes`.
    pub platform: String,
    /// The text of a JSON object, as it was decoded; its members are the platform's.
    pub object: String,
}

// The bytes that base64 stands for.
fn decoded(alloc: Global, encoded: &[u8]) -> Result<Option<Vec<u8>>, Memory>
    ensures bytes { IfOk result (λ bytes. option_map (λ bytes. bytes.items) bytes
        ≡ headers.if_decoded (decode_of standard encoded.now)) }
{
    match STANDARD.decode(alloc, encoded) {
        Ok(bytes) => Ok(Some(bytes)),
        Err(DecodeAllocError::OutOfMemory) => Err(Memory),
        Err(DecodeAllocError::DecodeError(_)) => Ok(None),
    }
}

// The text of an object that base64 stands for.
#[tactic(auto, using(crate::proofs::ObjectTexts::object_steps))]
fn decoded_object(alloc: Global, encoded: &[u8]) -> Result<Option<String>, Memory>
    ensures text { IfOk result (λ text. option_map string_bytes text ≡ headers.object_text encoded.now) }
{
    let Some(bytes) = decoded(alloc, encoded)? else {
        return Ok(None);
    };
    if read_object(alloc, bytes.as_slice())?.is_none() {
        return Ok(None);
    }
    match String::from_utf8(bytes) {
        Ok(text) => Ok(Some(text)),
        Err(_) => Ok(None),
    }
}

// The platform that bytes name.
#[tactic(auto, using(crate::proofs::Segments::text_steps))]
fn platform_in(bytes: &[u8]) -> Option<&str>
    ensures platform { option_map (λ text. text.now) result ≡ headers.if_platform bytes.now }
{
    match std::str::from_utf8(bytes) {
        Ok(text) => { if text.is_empty() { None } else { Some(text) } }
        Err(_) => None,
    }
}

/// The user behind a request, from the value of [`ORIGINATING_IDENTITY_HEADER`]: the platform, a blank, and a JSON object
/// in padded base64; none of every other value. Section Originating Identity, which doesn't say what a broker does with
/// another value.
///
/// # Errors
///
/// [`Memory`] where an allocation failed. The same call may be made again.
pub fn originating_identity(
    alloc: Global,
    value: &str,
) -> Result<Option<OriginatingIdentity>, Memory>
    ensures identity { IfOk result (λ found. option_map
        (λ found. (string_bytes found.platform, string_bytes found.object)) found ≡ headers.identity_in value.now) }
{
    let (front, encoded) = split_at_byte(b' ', value.as_bytes());
    let Some(platform) = platform_in(front) else {
        return Ok(None);
    };
    match decoded_object(alloc, encoded)? {
        Some(object) => Ok(Some(OriginatingIdentity {
            platform: String::from_str(alloc, platform)?,
            object,
        })),
        None => Ok(None),
    }
}

// Whether a header of an answer can carry each byte.
fn are_printable(text: &[u8]) -> bool
    ensures printable { result ≡ list_all headers.is_printable text.now }
{
    text.iter().all(|&byte| byte >= 32 && byte != 127)
}

/// The text by which a platform names a request, from the value of [`REQUEST_IDENTITY_HEADER`], which a broker returns in
/// the same header of its answer; none where it is empty or has an ASCII control character, which no answer could carry.
/// It takes no memory. Section Request Identity; that other values count as none is this project's choice.
pub fn request_identity(value: &str) -> Option<&str>
    ensures identity { option_map (λ text. text.now) result ≡ headers.request_identity_in value.now }
{
    if !value.is_empty() && are_printable(value.as_bytes()) {
        Some(value)
    } else {
        None
    }
}
