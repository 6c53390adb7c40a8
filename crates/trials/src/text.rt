// How answers show bytes and values.
use std::alloc::{AllocError, Global};
use synopsis::kind::Synopsis;
use texts::shown::Pairs;

// Bytes as capital hex pairs, or a dash for none.
pub(crate) fn shown(heap: Global, bytes: &[u8]) -> Result<String, AllocError> {
    if bytes.is_empty() {
        return String::from_str(heap, "-");
    }
    Pairs(bytes).to_string(heap)
}

// The frame of a value; an overlong kind has none.
pub(crate) fn frame<S: Synopsis>(heap: Global, value: &S) -> Result<Vec<u8>, AllocError> {
    let mut room = vec![in heap; 0; value.length()]?;
    if value.encode(&mut room).is_err() {
        room.clear();
    }
    Ok(room)
}

// A value, as its length and its frame.
pub(crate) fn written<S: Synopsis>(heap: Global, value: &S) -> Result<String, AllocError> {
    let frame = frame(heap, value)?;
    format!(in heap; "{} {}", value.length(), shown(heap, &frame)?)
}
