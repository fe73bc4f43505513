// Reads a row's numbers, each after one blank.
#![tactic(auto)]

// A line that can't be read.
#[derive(Clone, Copy, Debug, PartialEq, Eq)]
pub struct BadRow;

// A digit's value in a base of at most 16.
fn digit(byte: u8, base: u64) -> Option<u64> {
    let value = match byte {
        b'0'..=b'9' => byte - b'0',
        b'a'..=b'f' => byte - b'a' + 10,
        b'A'..=b'F' => byte - b'A' + 10,
        _ => return None,
    };
    Some(u64::from(value)).filter(|v| *v < base)
}

// The number of a word of at least one digit; none where 64 bits don't hold it.
fn number_in(word: &[u8], base: u64) -> Option<u64> {
    if word.is_empty() {
        return None;
    }
    word.iter().try_fold(0u64, |value, byte| {
        value.checked_mul(base)?.checked_add(digit(*byte, base)?)
    })
}

// Hexadecimal after 0x, else decimal.
fn number(word: &[u8]) -> Option<u64> {
    match word.strip_prefix(b"0x") {
        Some(digits) => number_in(digits, 16),
        None => number_in(word, 10),
    }
}

// The numbers of a row, which stand after its letter; they have to be just as many as are asked for.
pub fn read<const N: usize>(text: &[u8]) -> Result<[u64; N], BadRow> {
    let mut words = text.split(|byte| *byte == b' ');
    if words.next() != Some(&[]) {
        return Err(BadRow);
    }
    let mut numbers = [0; N];
    for n in &mut numbers {
        *n = words.next().and_then(number).ok_or(BadRow)?;
    }
    if words.next().is_some() {
        return Err(BadRow);
    }
    Ok(numbers)
}
