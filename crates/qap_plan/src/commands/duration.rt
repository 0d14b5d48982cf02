//! Durations on the command line.

ghost use Rattle.std.specs.Prelude.{◌<◌};

/// The most digits after the point.
const MAX_DECIMALS: u32 = 3;

/// The milliseconds that a text states: a decimal number of seconds, or of minutes or hours if `m` or `h` follows it
/// (`90`, `1.5`, `90s`, `2m`, `1h`), with at most three decimals. A time beyond 64 bits is refused, like any other
/// text.
pub fn milliseconds_of(text: &str) -> Option<u64> {
    let (number, unit_ms) = unit_of(text.as_bytes());
    let (digits, decimals) = decimal_of(number)?;
    Some(digits.checked_mul(unit_ms)? / power_of_ten(decimals))
}

/// The number, and how many milliseconds its unit has.
fn unit_of(text: &[u8]) -> (&[u8], u64) {
    match text.split_last() {
        Some((b's', number)) => (number, 1000),
        Some((b'm', number)) => (number, 60_000),
        Some((b'h', number)) => (number, 3_600_000),
        _ => (text, 1000),
    }
}

/// The digits of a decimal number as a whole one, and how many are after the point.
fn decimal_of(text: &[u8]) -> Option<(u64, u32)> {
    let mut value: u64 = 0;
    let mut decimals = None;
    for byte in text {
        match byte {
            b'0'..=b'9' => {
                value = value.checked_mul(10)?.checked_add(u64::from(byte - b'0'))?;
                decimals = decimals.map(|count: u32| count.saturating_add(1));
            }
            b'.' if decimals.is_none() => decimals = Some(0),
            _ => return None,
        }
    }
    let is_number = text.first().is_some_and(u8::is_ascii_digit) && decimals != Some(0);
    let decimals = decimals.unwrap_or(0);
    if is_number && decimals <= MAX_DECIMALS {
        Some((value, decimals))
    } else {
        None
    }
}

/// A power of ten, up to the greatest number of decimals.
fn power_of_ten(exponent: u32) -> u64
    ensures { 0 < result }
{
    match exponent {
        0 => 1,
        1 => 10,
        2 => 100,
        _ => 1000,
    }
}
