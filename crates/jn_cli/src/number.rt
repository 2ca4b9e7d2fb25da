//! Numbers in decimal digits.
ghost use Rattle.std.specs.Prelude.{◌≡◌};
ghost use Rattle.std.specs.Char.{is_ascii_digit};
ghost use Rattle.std.specs.List.{list_all};
ghost use Rattle.jn_cli.specs.Words as spec;

use jn_base::Text;

/// The number that one to ten decimal digits write.
#[tactic(auto, unfolding(crate::specs::Words::number_of))]
pub fn number_of(text: &str) -> Option<u64>
    ensures { result ≡ spec.number_of text.now }
{
    if text.len() < 1 || 10 < text.len() || !are_digits(text.as_bytes()) {
        return None;
    }
    text.parse::<u64>().ok()
}

fn are_digits(text: &[u8]) -> bool
    ensures { result ≡ list_all is_ascii_digit text.now }
{
    text.iter().all(|byte| byte.is_ascii_digit())
}

/// Whether the option is absent, or a number in the range.
pub fn fits(text: &Option<Text>, least: u64, most: u64) -> bool
    ensures { result ≡ spec.fits least most text.now }
{
    match text {
        None => true,
        Some(text) => match number_of(text.as_str()) {
            None => false,
            Some(number) => least <= number && number <= most,
        },
    }
}

/// The number, or the default where the option is absent or no number.
pub fn number_or(text: &Option<Text>, default: u64) -> u64
    ensures { result ≡ spec.number_or default text.now }
{
    match text {
        None => default,
        Some(text) => number_of(text.as_str()).unwrap_or(default),
    }
}
