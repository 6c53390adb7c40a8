// Reads the fields of a line.
use hex::{FromHex, FromHexError};
use std::alloc::{AllocError, Global};

// Why a line has no answer: its form is wrong, or memory ran out.
#[derive(Clone, Copy)]
pub(crate) enum Fault {
    Form,
    Memory,
}

impl From<AllocError> for Fault {
    fn from(_e: AllocError) -> Fault {
        Fault::Memory
    }
}

fn has_small(text: &str) -> bool {
    for c in text.bytes() {
        if c.is_ascii_lowercase() {
            return true;
        }
    }
    false
}

// Bytes as capital hex pairs, or a dash for none.
pub(crate) fn bytes(heap: Global, text: &str) -> Result<Vec<u8>, Fault> {
    if text == "-" {
        return Ok(Vec::new(heap));
    }
    if text.is_empty() || has_small(text) {
        return Err(Fault::Form);
    }
    match hex::decode(heap, text) {
        Ok(bytes) => Ok(bytes),
        Err(FromHexError::OutOfMemory) => Err(Fault::Memory),
        Err(_) => Err(Fault::Form),
    }
}

// A number as 16 capital hex digits.
pub(crate) fn word(text: &str) -> Result<u64, Fault> {
    match <[u8; 8]>::from_hex(text) {
        Ok(bytes) if !has_small(text) => Ok(u64::from_be_bytes(bytes)),
        _ => Err(Fault::Form),
    }
}

// A decimal number without a needless leading zero.
pub(crate) fn number(text: &str) -> Result<u64, Fault> {
    let is_plain = match text.as_bytes() {
        [b'0', _, ..] => false,
        [first, ..] => first.is_ascii_digit(),
        [] => false,
    };
    if !is_plain {
        return Err(Fault::Form);
    }
    text.parse().map_err(|_| Fault::Form)
}

// The same of a count or a size.
pub(crate) fn size(text: &str) -> Result<usize, Fault> {
    Ok(number(text)? as usize)
}
