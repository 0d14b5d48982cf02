// Decimal digits.
ghost use Rattle.std.specs.Prelude.{◌≡◌, min, take};
ghost use Rattle.std.specs.Option.{option_map};
ghost use Rattle.qap_io.specs.Digits.{magnitude_of, unsigned_number_of, BeginsWithDigits, IsRun};

/// The most digits whose number is made in 64 bits.
const FEW: usize = 18;

/// Digits at the beginning of a text: how many they are, and what they represent.
#[derive(Clone, Copy)]
struct FewDigits {
    count: usize,
    magnitude: u64,
}

/// Digits at the beginning of a text: how many there are, and their value, clamped to a bound.
#[derive(Clone, Copy, Debug, PartialEq, Eq)]
pub struct Digits {
    pub count: usize,
    pub magnitude: u128,
}

/// Up to 18 digits at the beginning of a text.
fn few_digits(text: &[u8]) -> FewDigits
    ensures digits { BeginsWithDigits text.now result.count }
    ensures value { result.magnitude ≡ magnitude_of (take result.count text.now) }
{
    let stop = FEW.min(text.len());
    let mut count = 0;
    let mut magnitude = 0;
    while count < stop && text[count].is_ascii_digit() {
        magnitude = magnitude * 10 + u64::from(text[count] - b'0');
        count += 1;
    }
    FewDigits { count, magnitude }
}

/// All digits at the beginning of a text, in any number. If their value is above the bound, the bound is returned
/// instead.
pub fn front_digits(text: &[u8], bound: u128) -> Digits
    ensures { IsRun text.now bound result.count result.magnitude }
{
    let few = few_digits(text);
    let mut count = few.count;
    let mut magnitude = bound.min(u128::from(few.magnitude));
    while count < text.len() && text[count].is_ascii_digit() {
        let digit = u128::from(text[count] - b'0');
        magnitude = bound.min(magnitude.saturating_mul(10).saturating_add(digit));
        count += 1;
    }
    Digits { count, magnitude }
}

/// The value of one or more digits, in any number, clamped to a bound; `None` if the text is anything else.
pub fn all_digits(text: &[u8], bound: u128) -> Option<u128>
    ensures { result ≡ option_map (λ n. min n bound) (unsigned_number_of text.now) }
{
    let digits = front_digits(text, bound);
    if digits.count > 0 && digits.count == text.len() {
        Some(digits.magnitude)
    } else {
        None
    }
}
