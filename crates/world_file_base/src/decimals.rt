//! Whole numbers as texts, of any length.

ghost use Rattle.std.specs.Prelude.{◌≡◌, ◌<◌, ◌^◌, is_some, option_and_then};
ghost use Rattle.std.specs.List.{list_all};
ghost use Rattle.world_file_base.specs.Texts.{is_decimal, is_digit, is_natural, number_of_text, sized};

fn are_digits(bytes: &[u8]) -> bool
    ensures { result ≡ list_all is_digit bytes.now }
{
    bytes.iter().all(|byte| 48 <= *byte && *byte <= 57)
}

/// Whether the text is digits alone, and no zero stands before others.
fn is_natural(digits: &str) -> bool
    ensures { result ≡ is_natural digits.now }
{
    let bytes = digits.as_bytes();
    if bytes.is_empty() {
        return false;
    }
    are_digits(bytes) && !(bytes[0] == 48 && bytes.len() > 1)
}

/// Whether the text is a number: a minus alone may stand before the digits, but for those of zero.
fn is_decimal(text: &str) -> bool
    ensures { result ≡ is_decimal text.now }
{
    match text.strip_prefix('-') {
        Some(digits) => is_natural(digits) && digits != "0",
        None => is_natural(text),
    }
}

/// Whether the text is a number.
#[tactic(auto, unfolding(crate::specs::Texts::number_of_text))]
pub(crate) fn is_number(text: &str) -> bool
    ensures { result ≡ is_some (number_of_text text.now) }
{
    is_decimal(text)
}

/// The number that a text is, if its size is at most `most`.
pub fn sized_number(text: &str, most: u128) -> Option<i128>
    requires { most < 2 ^ 127 }
    ensures { result ≡ option_and_then (sized most) (number_of_text text.now) }
{
    if !is_decimal(text) {
        return None;
    }
    match text.parse::<i128>() {
        Ok(number) => sized(number, most),
        Err(_) => None,
    }
}

/// A number, if its size is at most `most`.
fn sized(number: i128, most: u128) -> Option<i128>
    ensures { result ≡ sized most number }
{
    if number.unsigned_abs() <= most {
        Some(number)
    } else {
        None
    }
}
