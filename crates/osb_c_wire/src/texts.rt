//! Texts that cross from C and to it.
ghost use Rattle.std.specs.Prelude.{◌≡◌, ◌↔◌, ◌++◌, IsSome, IfSome, OnOk, OnErr, length, option_map, string_bytes};
ghost use Rattle.osb_c_wire.specs.Texts as texts;

use std::alloc::AllocError;

/// A text that counts where a flag says so: none where it is no UTF-8.
pub fn text_if(is_there: bool, text: &[u8]) -> Option<Option<&str>>
    ensures text { IfSome result (λ given. option_map (λ text. text.now) given ≡ texts.text_if is_there text.now) }
    ensures utf8 { IsSome result ↔ texts.IsUtf8If is_there text.now }
{
    if !is_there {
        return Some(None);
    }
    match std::str::from_utf8(text) {
        Ok(text) => Some(Some(text)),
        Err(_) => None,
    }
}

/// Adds a text, if it is there.
///
/// # Errors
///
/// [`AllocError`] if an allocation failed. `all` is then as before.
pub fn push_if(all: &mut String, text: &Option<String>) -> Result<(), AllocError>
    ensures all { OnOk result (string_bytes all.new
        ≡ string_bytes all.old ++ texts.or_nothing (option_map string_bytes text.now)) }
    ensures err { OnErr result (string_bytes all.new ≡ string_bytes all.old) }
{
    match text {
        Some(text) => all.push_str(text.as_str()),
        None => Ok(()),
    }
}

/// The length of a text: 0 if it isn't there.
pub fn length_if(text: &Option<String>) -> usize
    ensures length { result ≡ length (texts.or_nothing (option_map string_bytes text.now)) }
{
    match text {
        Some(text) => text.len(),
        None => 0,
    }
}
