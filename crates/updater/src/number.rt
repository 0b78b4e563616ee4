//! A number among the words.
ghost use Rattle.std.specs.Prelude.{◌≡◌, IsTrue};
ghost use Rattle.std.specs.Char.{is_ascii_digit};
ghost use Rattle.std.specs.List.{list_all};
ghost use Rattle.std.specs.Str.Parse.{digits_value};
ghost use Rattle.updater.specs.Number as spec;

/// The number that a word of 1 to 6 digits writes.
#[tactic(auto, unfolding(crate::specs::Number::number))]
pub fn number_in(word: &[u8]) -> Option<u32>
    ensures number { result ≡ spec.number word.now }
{
    if spelled(word) {
        Some(value_of(word))
    } else {
        None
    }
}

/// Whether a word is from 1 to 6 digits.
fn spelled(word: &[u8]) -> bool
    ensures spelled { result ≡ spec.is_spelled word.now }
{
    1 <= word.len() && word.len() <= 6 && all_digits(word)
}

/// Whether each byte is a digit.
fn all_digits(word: &[u8]) -> bool
    ensures digits { result ≡ list_all is_ascii_digit word.now }
{
    for byte in word {
        if !byte.is_ascii_digit() {
            return false;
        }
    }
    true
}

/// The number that these digits write.
fn value_of(digits: &[u8]) -> u32
    requires { IsTrue (spec.is_spelled digits.now) }
    ensures value { result ≡ digits_value 10 digits.now }
{
    let mut value = 0;
    for &digit in digits {
        value = value * 10 + u32::from(digit - b'0');
    }
    value
}
