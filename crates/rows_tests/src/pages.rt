// Bytes and pages as words.
use fs_model::FsError;
use fs_words::number;
use std::alloc::Global;

// Puts bytes over those that stand at a place.
fn put(bytes: &mut [u8], place: usize, part: &[u8]) -> Result<(), FsError> {
    let end = place.saturating_add(part.len());
    if end > bytes.len() {
        return Err(FsError::OutOfMemory);
    }
    bytes[place..end].copy_from_slice(part);
    Ok(())
}

fn digit(byte: u8) -> Result<u8, FsError> {
    match byte {
        b'0'..=b'9' => Ok(byte - b'0'),
        b'a'..=b'f' => Ok(byte - b'a' + 10),
        _ => Err(FsError::OutOfMemory),
    }
}

// Adds the bytes of hex digits.
fn push_hex(bytes: &mut Vec<u8>, word: &str) -> Result<(), FsError> {
    let digits = word.as_bytes();
    if digits.len() % 2 != 0 {
        return Err(FsError::OutOfMemory);
    }
    for n in 0..digits.len() / 2 {
        let high = digit(digits[2 * n])?;
        let low = digit(digits[2 * n + 1])?;
        bytes.push(high.wrapping_mul(16).wrapping_add(low))?;
    }
    Ok(())
}

fn push_part(bytes: &mut Vec<u8>, part: &str) -> Result<(), FsError> {
    let (word, count) = part.split_once('*').unwrap_or((part, "1"));
    for _ in 0..number(count)? {
        push_hex(bytes, word)?;
    }
    Ok(())
}

/// The bytes of parts with `+` between them, each `HEX` or `HEX*COUNT`.
pub(crate) fn bytes(alloc: Global, word: &str) -> Result<Vec<u8>, FsError> {
    let mut bytes = Vec::new(alloc);
    for part in word.split('+') {
        push_part(&mut bytes, part)?;
    }
    Ok(bytes)
}

/// Puts the bytes of a word over those that stand at a place.
pub(crate) fn put_word(
    alloc: Global,
    page: &mut [u8],
    place: u32,
    word: &str,
) -> Result<(), FsError> {
    put(page, place as usize, &bytes(alloc, word)?)
}

// ---- tuples

// What the header of a tuple says.
#[derive(Clone, Copy)]
struct Head {
    xmin: u32,
    xmax: u32,
    // The number of attributes, and the infomask in the upper half.
    masks: u32,
}

// The number of hex digits.
fn flags(word: &str) -> Result<u32, FsError> {
    let mut flags = 0u32;
    for byte in word.as_bytes() {
        flags = flags
            .wrapping_mul(16)
            .wrapping_add(u32::from(digit(*byte)?));
    }
    Ok(flags)
}

// `XMIN,XMAX,INFOMASK,ATTRIBUTES`, with the infomask in hex digits.
fn head_of(word: &str) -> Result<Head, FsError> {
    let (xmin, rest) = word.split_once(',').unwrap_or((word, ""));
    let (xmax, rest) = rest.split_once(',').unwrap_or((rest, ""));
    let (infomask, attributes) = rest.split_once(',').unwrap_or((rest, ""));
    Ok(Head {
        xmin: number(xmin)?,
        xmax: number(xmax)?,
        masks: flags(infomask)?
            .wrapping_mul(0x1_0000)
            .wrapping_add(number(attributes)?),
    })
}

// A tuple whose data begins at byte 24; the bytes are those from byte 23 on.
fn put_tuple(page: &mut [u8], at: usize, head: &Head, behind: &[u8]) -> Result<(), FsError> {
    put(page, at, &head.xmin.to_le_bytes())?;
    put(page, at.saturating_add(4), &head.xmax.to_le_bytes())?;
    put(page, at.saturating_add(18), &head.masks.to_le_bytes())?;
    put(page, at.saturating_add(22), &[24])?;
    put(page, at.saturating_add(23), behind)
}

// ---- pages

// The lines of a page and where its tuples begin.
#[derive(Clone, Copy)]
struct Bounds {
    lines: u32,
    upper: u32,
}

// Puts a tuple in front of the others, and its line behind theirs.
fn add(page: &mut [u8], bounds: Bounds, head: &Head, behind: &[u8]) -> Result<Bounds, FsError> {
    let length = behind.len().min(8192) as u32 + 23;
    let upper = bounds.upper.saturating_sub(length) / 8 * 8;
    put_tuple(page, upper as usize, head, behind)?;
    let pointer = upper
        .wrapping_add(0x8000)
        .wrapping_add(length.wrapping_mul(0x2_0000));
    let place = bounds.lines.wrapping_mul(4).wrapping_add(24);
    put(page, place as usize, &pointer.to_le_bytes())?;
    Ok(Bounds {
        lines: bounds.lines.wrapping_add(1),
        upper,
    })
}

fn put_bounds(page: &mut [u8], bounds: Bounds) -> Result<(), FsError> {
    let lower = bounds.lines.wrapping_mul(4).wrapping_add(24);
    let upper = bounds.upper.wrapping_mul(0x1_0000);
    put(page, 12, &lower.wrapping_add(upper).to_le_bytes())?;
    put(page, 16, &[0x00, 0x20, 0x04, 0x20])
}

/// Lays out a page of tuples: a word `XMIN,XMAX,INFOMASK,ATTRIBUTES` says what the headers of the following tuples have, and
/// one of hex digits is what a tuple has from its byte 23 on: the null bitmap or what aligns the data, and the data.
pub(crate) fn put_page(alloc: Global, page: &mut [u8], words: &str) -> Result<(), FsError> {
    let mut bounds = Bounds {
        lines: 0,
        upper: 8192,
    };
    let mut now = head_of("700,0,0900,1")?;
    for word in words.split_whitespace() {
        if word.contains(',') {
            now = head_of(word)?;
        } else {
            bounds = add(page, bounds, &now, &bytes(alloc, word)?)?;
        }
    }
    put_bounds(page, bounds)
}
