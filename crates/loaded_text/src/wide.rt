//! Whole numbers of up to 128 bits, which stand in the text as texts.

ghost use Rattle.std.specs.Prelude.{◌≡◌, ◌<◌, ◌^◌, ◌++◌, decimal, IfSome, IsSome, neg_ℤ, pos, []};
ghost use Rattle.std.specs.Fmt.{signed_decimal};
ghost use Rattle.loaded_text.specs.Leads.{IsWide, IsWideUnsigned, Leads, Reads};
ghost use Rattle.world_file_base.specs.Written.{decimal_of, integer, natural};

use crate::text::Text;

/// The greatest number that may have one more digit.
const BEFORE_A_DIGIT: u128 = 17_014_118_346_046_923_173_168_730_371_588_410_572;

/// A number below zero of this size.
fn negative_of(size: u128) -> Option<i128>
    ensures negative { IfSome result (λ z. z ≡ neg_ℤ (pos size)) }
    ensures some { IfSome result (λ _. 0 < size) }
    ensures low { IfSome result (λ _. size < 2 ^ 127) }
    ensures fits { 0 < size → size < 2 ^ 127 → IsSome result }
{
    match i128::try_from(size) {
        Ok(size) if size > 0 => Some(-size),
        _ => None,
    }
}

fn positive_of(size: u128) -> Option<i128>
    ensures positive { IfSome result (λ z. z ≡ pos size) }
    ensures low { IfSome result (λ _. size < 2 ^ 127) }
    ensures fits { size < 2 ^ 127 → IsSome result }
{
    i128::try_from(size).ok()
}

impl<'a> Text<'a> {
    /// Takes the digits of a number. No zero stands before others.
    fn wide_digits(&mut self) -> Option<u128>
        ensures text { IfSome result (λ n. self.old.rest.now ≡ decimal n ++ self.new.rest.now) }
        ensures reads { Reads natural IsWideUnsigned [] self.old.rest.now result self.new.rest.now }
    {
        let first = self.digit()?;
        if first == 0 {
            return Some(0);
        }
        let mut number = u128::from(first);
        while let Some(digit) = self.digit() {
            if number > BEFORE_A_DIGIT {
                return None;
            }
            number = number * 10 + u128::from(digit);
        }
        Some(number)
    }

    fn wide_signed(&mut self) -> Option<i128>
        ensures text { IfSome result (λ z. self.old.rest.now ≡ signed_decimal z ++ self.new.rest.now) }
        ensures size { IfSome result IsWide }
        ensures reads { Reads integer IsWide [] self.old.rest.now result self.new.rest.now }
    {
        if self.take(b"-") {
            negative_of(self.wide_digits()?)
        } else {
            positive_of(self.wide_digits()?)
        }
    }

    /// A number with a sign as a text, after these bytes.
    pub(crate) fn decimal(&mut self, lead: &[u8]) -> Option<i128>
        ensures text { IfSome result (λ z. Leads lead.now (decimal_of z) self.old.rest.now self.new.rest.now) }
        ensures reads { Reads decimal_of IsWide lead.now self.old.rest.now result self.new.rest.now }
    {
        self.expect(lead)?;
        self.expect(b"\"")?;
        let number = self.wide_signed()?;
        self.expect(b"\"")?;
        Some(number)
    }
}
