//! Whole numbers of 64 bits.

ghost use Rattle.std.specs.Prelude.{◌≡◌, ◌<◌, ◌≤◌, ◌^◌, ◌+◌, ◌*◌, ◌++◌, decimal, IfSome, IsSome, neg_ℤ, pos, []};
ghost use Rattle.loaded_text.specs.Leads.{IsSigned, IsUnsigned, IsUnsignedIfAny, Leads, Reads};
ghost use Rattle.world_file_base.specs.Written.{integer, natural, natural_or_null};

use crate::text::Text;

/// The greatest number with a sign.
const MOST_SIGNED: u64 = 9_223_372_036_854_775_807;

/// A number below zero of this size.
fn negative_of(size: u64) -> Option<i64>
    ensures negative { IfSome result (λ z. z ≡ neg_ℤ (pos size)) }
    ensures some { IfSome result (λ _. 0 < size) }
    ensures low { IfSome result (λ _. size < 2 ^ 63) }
    ensures fits { 0 < size → size < 2 ^ 63 → IsSome result }
{
    if size == 0 || size > MOST_SIGNED {
        return None;
    }
    Some(-(size as i64))
}

fn positive_of(size: u64) -> Option<i64>
    ensures positive { IfSome result (λ z. z ≡ pos size) }
    ensures low { IfSome result (λ _. size < 2 ^ 63) }
    ensures fits { size < 2 ^ 63 → IsSome result }
{
    if size > MOST_SIGNED {
        return None;
    }
    Some(size as i64)
}

/// A number with one more digit behind it, if 64 bits hold it.
fn with_digit(number: u64, digit: u8) -> Option<u64>
    ensures value { IfSome result (λ more. more ≡ number * 10 + digit) }
    ensures small { IfSome result (λ more. more < 2 ^ 64) }
    ensures fits { number * 10 + digit < 2 ^ 64 → IsSome result }
{
    number.checked_mul(10)?.checked_add(u64::from(digit))
}

impl<'a> Text<'a> {
    /// Takes the digits of a number. No zero stands before others.
    fn digits(&mut self) -> Option<u64>
        ensures text { IfSome result (λ n. self.old.rest.now ≡ decimal n ++ self.new.rest.now) }
        ensures small { IfSome result (λ n. n < 2 ^ 64) }
        ensures reads { Reads natural IsUnsigned [] self.old.rest.now result self.new.rest.now }
    {
        let first = self.digit()?;
        if first == 0 {
            return Some(0);
        }
        let mut number = u64::from(first);
        while let Some(digit) = self.digit() {
            number = with_digit(number, digit)?;
        }
        Some(number)
    }

    /// A number without a sign, after these bytes.
    pub(crate) fn natural(&mut self, lead: &[u8]) -> Option<u64>
        ensures text { IfSome result (λ n. Leads lead.now (natural n) self.old.rest.now self.new.rest.now) }
        ensures small { IfSome result IsUnsigned }
        ensures reads { Reads natural IsUnsigned lead.now self.old.rest.now result self.new.rest.now }
    {
        self.expect(lead)?;
        self.digits()
    }

    /// A number without a sign or null, after these bytes.
    pub(crate) fn natural_or_null(&mut self, lead: &[u8]) -> Option<Option<u64>>
        ensures text { IfSome result (λ o. Leads lead.now (natural_or_null o) self.old.rest.now self.new.rest.now) }
        ensures small { IfSome result (λ o. IfSome o IsUnsigned) }
        ensures reads { Reads natural_or_null IsUnsignedIfAny lead.now self.old.rest.now result self.new.rest.now }
    {
        self.expect(lead)?;
        if self.take(b"null") {
            return Some(None);
        }
        Some(Some(self.digits()?))
    }

    fn signed(&mut self) -> Option<i64>
        ensures text { IfSome result (λ z. Leads [] (integer z) self.old.rest.now self.new.rest.now) }
        ensures signed { IfSome result IsSigned }
        ensures reads { Reads integer IsSigned [] self.old.rest.now result self.new.rest.now }
    {
        if self.take(b"-") {
            negative_of(self.digits()?)
        } else {
            positive_of(self.digits()?)
        }
    }

    /// A number with a sign, after these bytes. The least of all is left to others.
    pub(crate) fn integer(&mut self, lead: &[u8]) -> Option<i64>
        ensures text { IfSome result (λ z. Leads lead.now (integer z) self.old.rest.now self.new.rest.now) }
        ensures signed { IfSome result IsSigned }
        ensures reads { Reads integer IsSigned lead.now self.old.rest.now result self.new.rest.now }
    {
        self.expect(lead)?;
        self.signed()
    }
}
