//! Texts and bytes as words of a line: `%XX` stands for a byte, as in a target, and `''` for the empty text. `-` is
//! none, and the text `-` is `%2D`. What is printed has escapes for controls, blanks, `%`, `'` and all that isn't
//! ASCII. A digest has two digits for each byte. A blank stands before each word that is printed.
use anyhow::{Context, Result};
use osb_instance::Digest;
use percent_encoding::{AsciiSet, CONTROLS, ascii_set, percent_decode, percent_encode};
use std::alloc::Global;

const ESCAPED: AsciiSet = ascii_set!(CONTROLS.add(b' ').add(b'%').add(b'\''));

// ---- as they are read

pub(crate) fn bytes(alloc: Global, word: &str) -> Result<Vec<u8>> {
    let mut found = Vec::new(alloc);
    if word != "''" {
        percent_decode(word.as_bytes()).append_to(&mut found)?;
    }
    Ok(found)
}

pub(crate) fn text(alloc: Global, word: &str) -> Result<String> {
    String::from_utf8(bytes(alloc, word)?)
        .ok()
        .context("not UTF-8")
}

pub(crate) fn given(alloc: Global, word: &str) -> Result<Option<String>> {
    if word == "-" {
        Ok(None)
    } else {
        Ok(Some(text(alloc, word)?))
    }
}

// ---- as they are printed

pub(crate) fn tell_text(rt: &impl Print, alloc: Global, text: &str) -> Result<()> {
    match text {
        "" => Ok(print!(rt; " ''")?),
        "-" => Ok(print!(rt; " %2D")?),
        _ => {
            let mut word = String::new(alloc);
            percent_encode(text.as_bytes(), ESCAPED).append_to(&mut word)?;
            Ok(print!(rt; " {word}")?)
        }
    }
}

pub(crate) fn tell_given(rt: &impl Print, alloc: Global, text: &Option<String>) -> Result<()> {
    match text {
        Some(text) => tell_text(rt, alloc, text.as_str()),
        None => Ok(print!(rt; " -")?),
    }
}

pub(crate) fn tell_digest(rt: &impl Print, alloc: Global, digest: &Digest) -> Result<()> {
    let digits = hex::encode(alloc, digest.bytes)?;
    Ok(print!(rt; " {digits}")?)
}

pub(crate) fn tell_digest_given(
    rt: &impl Print,
    alloc: Global,
    digest: &Option<Digest>,
) -> Result<()> {
    match digest {
        Some(digest) => tell_digest(rt, alloc, digest),
        None => Ok(print!(rt; " -")?),
    }
}
