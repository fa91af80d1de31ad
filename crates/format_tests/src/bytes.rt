// Bytes and numbers as words.
use crate::control::RECORD;
use std::alloc::Global;
use std::fmt::Debug;

/// What a call gives, in words.
pub(crate) fn shown<T: Debug>(alloc: Global, given: &T) -> Option<String> {
    format!(in alloc; "{given:?}").ok()
}

/// A number of 32 bits.
pub(crate) fn number(word: &str) -> Option<u32> {
    word.parse::<u32>().ok()
}

fn push_times(bytes: &mut Vec<u8>, part: &[u8], count: u32) -> Option<()> {
    for _ in 0..count {
        bytes.extend_from_slice(part).ok()?;
    }
    Some(())
}

fn put(bytes: &mut Vec<u8>, place: usize, part: &[u8]) -> Option<()> {
    let end = place.checked_add(part.len())?;
    if end > bytes.len() {
        return None;
    }
    bytes[place..end].copy_from_slice(part);
    Some(())
}

fn push_part(alloc: Global, bytes: &mut Vec<u8>, part: &str) -> Option<()> {
    if part == "RECORD" {
        return push_times(bytes, &RECORD, 1);
    }
    if let Some((hex, count)) = part.split_once('*') {
        return push_times(bytes, &hex::decode(alloc, hex).ok()?, number(count)?);
    }
    if let Some((place, hex)) = part.split_once('=') {
        return put(
            bytes,
            number(place)? as usize,
            &hex::decode(alloc, hex).ok()?,
        );
    }
    push_times(bytes, &hex::decode(alloc, part).ok()?, 1)
}

/// The bytes that a word means. It has parts with `+` between them: `HEX`, `HEX*COUNT`, the control record `RECORD`, and
/// `PLACE=HEX`, which puts bytes over those of earlier parts.
pub(crate) fn bytes(alloc: Global, word: &str) -> Option<Vec<u8>> {
    let mut bytes = Vec::new(alloc);
    for part in word.split('+') {
        push_part(alloc, &mut bytes, part)?;
    }
    Some(bytes)
}
