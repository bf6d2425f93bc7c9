//! Whole numbers on a command line.

ghost use Rattle.std.specs.Prelude.{◌≡◌, option_map};
ghost use Rattle.run_words.specs.Numbers.{number_from, number_if_given, number_up_to};

/// An exploration has at most so many rounds.
pub(crate) const MOST_ROUNDS: u64 = 65_536;

/// The number that a word writes, from a least one on: decimal digits without leading zeros.
pub(crate) fn number_from(least: u64, text: &str) -> Option<u64>
    ensures { result ≡ number_from least text.now }
{
    let bytes = text.as_bytes();
    if bytes.len() == 0 {
        return None;
    }
    if bytes[0] == b'0' {
        return if bytes.len() == 1 && least == 0 {
            Some(0)
        } else {
            None
        };
    }
    if bytes[0] < b'1' || b'9' < bytes[0] {
        return None;
    }
    match text.parse::<u64>() {
        Ok(number) => { if least <= number { Some(number) } else { None } }
        Err(_) => None,
    }
}

/// The number of an option, which may not be given; `None` where its word writes no such number.
pub(crate) fn number_if_given(least: u64, text: Option<&str>) -> Option<Option<u64>>
    ensures { result ≡ number_if_given least (option_map (λ s. s.now) text.entry) }
{
    match text {
        None => Some(None),
        Some(text) => match number_from(least, text) {
            None => None,
            Some(number) => Some(Some(number)),
        },
    }
}

/// The number that a word writes, from 0 up to a greatest one; `None` where it writes no such number.
pub(crate) fn number_up_to(most: u64, text: &str) -> Option<u64>
    ensures { result ≡ number_up_to most text.now }
{
    match number_from(0, text) {
        None => None,
        Some(number) => { if number <= most { Some(number) } else { None } }
    }
}
