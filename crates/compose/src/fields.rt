// The fields of a line, which spaces and tabs separate.
use crate::bad_line::Reason;

// The first field, and what follows from the next one on. No plainer with `word` of other programs: they split at other letters and trim otherwise.
pub(crate) fn field(line: &str) -> Result<(&str, &str), Reason> {
    if line.is_empty() {
        return Err(Reason::TooFew);
    }
    let (field, rest) = line.split_once([' ', '\t']).unwrap_or((line, ""));
    Ok((field, rest.trim_ascii_start()))
}

// The one field that a line is.
pub(crate) fn only(line: &str) -> Result<&str, Reason> {
    match field(line)? {
        (field, "") => Ok(field),
        _ => Err(Reason::TooMany),
    }
}

// The number that a field spells; one that has no room in 64 bits counts as the greatest. No `parse`: that would take a sign, and say
// nothing of how great a number is that has no room.
pub(crate) fn number(field: &str) -> Result<u64, Reason> {
    let mut number = 0u64;
    for byte in field.bytes() {
        let digit = match byte {
            b'0'..=b'9' => byte - b'0',
            _ => return Err(Reason::Digits),
        };
        number = number.saturating_mul(10).saturating_add(digit as u64);
    }
    Ok(number)
}

pub(crate) fn byte(field: &str) -> Result<u8, Reason> {
    u8::try_from(number(field)?).map_err(|_| Reason::AboveByte)
}

// The number of the first field, and what follows from the next one on.
pub(crate) fn long(line: &str) -> Result<(u32, &str), Reason> {
    let (word, rest) = field(line)?;
    let long = u32::try_from(number(word)?).map_err(|_| Reason::AboveLong)?;
    Ok((long, rest))
}
