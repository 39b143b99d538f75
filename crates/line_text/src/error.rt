use thiserror::Error;

/// Why a text is not a number.
#[derive(Clone, Copy, Debug, PartialEq, Eq, Error)]
pub enum NumErr {
    /// The text is empty.
    #[error("no number")]
    Empty,
    /// The text is not an optional minus, digits, and an optional point with digits.
    #[error("not a number")]
    Digit,
    /// There are more than six decimals.
    #[error("more than six decimals")]
    TooManyDecimals,
    /// The number is past ten million in absolute value.
    #[error("past ten million")]
    Range,
}
