//! Places in a text: bytes that are sought come in, offsets go out.

/// The offset after the first such bytes that are in the text from a place on.
pub fn next_after(text: &[u8], from: usize, wanted: &[u8]) -> Option<usize> {
    let rest = text.get(from..)?;
    let first = wanted.first()?;
    for (number, byte) in rest.iter().enumerate() {
        if *byte == *first && rest.get(number..)?.starts_with(wanted) {
            return Some(from.saturating_add(number).saturating_add(wanted.len()));
        }
    }
    None
}

/// The same, from the text's beginning on where there are none from the place on; the text's end
/// where there are none at all.
pub fn place_after(text: &[u8], from: usize, wanted: &[u8]) -> usize {
    match next_after(text, from, wanted) {
        Some(place) => place,
        None => next_after(text, 0, wanted).unwrap_or(text.len()),
    }
}

fn is_name_byte(byte: u8) -> bool {
    byte.is_ascii_alphanumeric() || byte == b'_'
}

/// The offset after the first such name that is in the text from a place on.
pub fn next_name(text: &[u8], from: usize, name: &[u8]) -> Option<usize> {
    let mut place = from;
    for _ in 0..text.len() {
        place = next_after(text, place, name)?;
        match text.get(place) {
            Some(byte) if is_name_byte(*byte) => {}
            _ => return Some(place),
        }
    }
    None
}
