// Dates: decimal numbers of 64 bits without a leading zero.
ghost use Rattle.std.specs.Prelude.{◌≡◌, ◌≤◌, length};
ghost use Rattle.ip_script.specs.Dates.{next_value, date_length, date_value, digits_on, value_on};

/// The date at the front of a text: of how many bytes, and its value. Without a digit at the front it has none.
#[derive(Clone, Copy, Debug, PartialEq, Eq)]
pub struct Date {
    pub length: usize,
    pub value: u64,
}

// What a value comes to by one more digit, where there is one and it fits.
fn next_value(value: u64, byte: u8) -> Option<u64>
    ensures { result ≡ next_value value byte }
{
    if !byte.is_ascii_digit() {
        return None;
    }
    value.checked_mul(10)?.checked_add((byte - b'0') as u64)
}

fn digits_at(text: &[u8]) -> Date
    ensures length { result.length ≡ digits_on 0 text.now }
    ensures value { result.value ≡ value_on 0 text.now }
    ensures bound { result.length ≤ length text.now }
{
    let mut value = 0;
    for (i, byte) in text.iter().enumerate() {
        match next_value(value, *byte) {
            Some(next) => value = next,
            None => return Date { length: i, value },
        }
    }
    Date {
        length: text.len(),
        value,
    }
}

/// The longest date that the text begins with.
pub fn date_at(text: &[u8]) -> Date
    ensures length { result.length ≡ date_length text.now }
    ensures value { result.value ≡ date_value text.now }
    ensures bound { result.length ≤ length text.now }
{
    match text {
        [b'0', ..] => Date {
            length: 1,
            value: 0,
        },
        _ => digits_at(text),
    }
}
