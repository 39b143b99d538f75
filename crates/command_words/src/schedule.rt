//! The number of a schedule.

ghost use Rattle.std.specs.Prelude.{◌≡◌};
ghost use Rattle.std.specs.Char.{is_ascii_digit};
ghost use Rattle.std.specs.List.{list_all};
ghost use Rattle.command_words.specs.Asking.{schedule_of};

/// As many digits as the greatest number has.
const MOST_DIGITS: usize = 20;

/// The number that 1 to 20 digits spell, where it has 64 bits at most.
#[tactic(auto, using(crate::proofs::Digits::numeral_of))]
pub fn schedule_of(text: &str) -> Option<u64>
    ensures { result ≡ schedule_of text.now }
{
    if text.is_empty() || text.len() > MOST_DIGITS || !all_digits(text) {
        return None;
    }
    match text.parse::<u64>() {
        Ok(number) => Some(number),
        Err(_) => None,
    }
}

fn all_digits(text: &str) -> bool
    ensures { result ≡ list_all is_ascii_digit text.now }
{
    text.as_bytes().iter().all(|byte| byte.is_ascii_digit())
}
