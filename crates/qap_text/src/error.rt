//! Why a text is not an instance, or not a solution, and how that is reported.

use qap_io::{Device, Refusal};
use std::alloc::AllocError;
use thiserror::Error;

/// Why a text is refused. A place is the number of bytes before the word at fault.
#[derive(Clone, Copy, Debug, PartialEq, Eq, Error)]
pub enum TextError {
    /// The text has no word.
    #[error("the text has no word")]
    Empty,
    /// A word is not a whole number.
    #[error("the word at {0} is no whole number")]
    NotANumber(usize),
    /// The size of an instance is 0 or less.
    #[error("the size at {0} is not positive")]
    SizeZero(usize),
    /// The size of an instance is above 256.
    #[error("the size at {0} is above 256")]
    SizeTooLarge(usize),
    /// An entry is outside -10^9 to 10^9.
    #[error("the entry at {0} lies outside -10^9 to 10^9")]
    EntryRange(usize),
    /// The text ends before all its numbers are there.
    #[error("the text has too few numbers")]
    CountDiffers,
    /// A solution's size is not that of the instance.
    #[error("the size at {0} is not the instance's")]
    SizeDiffers(usize),
    /// A location is outside 1 to the size, or repeated.
    #[error("the location at {0} is none of the size's, or stands twice")]
    NotPermutation(usize),
    /// A solution's value is outside -10^24 to 10^24.
    #[error("the value at {0} lies outside -10^24 to 10^24")]
    ValueRange(usize),
    /// The input is longer than was allowed.
    #[error("the input is too long")]
    InputTooLong,
    /// Memory ran out.
    #[error("out of memory")]
    OutOfMemory,
    /// The reader or the writer failed.
    #[error("the reader or the writer failed")]
    Device,
}

impl TextError {
    ghost use Rattle.std.specs.Prelude.{◌≡◌};
    ghost use Rattle.qap_text.specs.Refusal.{text_refusal};

    /// The refusal that reports the fault: its number, its name, and its place if it has one.
    pub fn refusal(self) -> Refusal
        ensures { result ≡ text_refusal self }
    {
        match self {
            TextError::Empty => Refusal::new(1, "Empty"),
            TextError::NotANumber(place) => Refusal::at(2, "NotANumber", place as u64),
            TextError::SizeZero(place) => Refusal::at(3, "SizeZero", place as u64),
            TextError::SizeTooLarge(place) => Refusal::at(4, "SizeTooLarge", place as u64),
            TextError::EntryRange(place) => Refusal::at(5, "EntryRange", place as u64),
            TextError::CountDiffers => Refusal::new(6, "CountDiffers"),
            TextError::SizeDiffers(place) => Refusal::at(8, "SizeDiffers", place as u64),
            TextError::NotPermutation(place) => Refusal::at(9, "NotPermutation", place as u64),
            TextError::ValueRange(place) => Refusal::at(10, "ValueRange", place as u64),
            TextError::InputTooLong => Refusal::new(24, "InputTooLong"),
            TextError::OutOfMemory => Refusal::out_of_memory(),
            TextError::Device => Refusal::device(),
        }
    }
}

impl From<Device> for TextError {
    ghost use Rattle.std.specs.Prelude.{◌≡◌};
    ghost use Rattle.qap_text.specs.declared.error.TextError.TheVariants.{Device as FailedDevice};

    ghost from_gives = { λ _ f. f ≡ FailedDevice };

    fn from(_error: Device) -> TextError {
        TextError::Device
    }
}

impl From<AllocError> for TextError {
    ghost use Rattle.std.specs.Prelude.{◌≡◌};
    ghost use Rattle.qap_text.specs.declared.error.TextError.TheVariants.{OutOfMemory};

    ghost from_gives = { λ _ f. f ≡ OutOfMemory };

    fn from(_error: AllocError) -> TextError {
        TextError::OutOfMemory
    }
}
