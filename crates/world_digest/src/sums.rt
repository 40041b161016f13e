//! Four sums over the words of a world.

ghost use Rattle.std.specs.Prelude.{◌≡◌, ◌%◌, ◌/◌, ◌^◌};
ghost use Rattle.std.specs.Int.{cast_unsigned, w64, w128};
ghost use Rattle.sha2.specs.Sha256.{sha256};
ghost use Rattle.world_digest.specs.Sums.{absorbed, bytes_of, first_sums, mixed, truth_word};

use sha2::{Digest, Sha256};

/// What a sum is multiplied by: an odd number, so that no two sums become one (the golden ratio times 2^64, from Knuth,
/// 'The Art of Computer Programming', volume 3, section 6.4).
pub(crate) const FACTOR: u64 = 0x9E37_79B9_7F4A_7C15;

/// Four sums. The first one takes the next word and becomes the last.
#[derive(Drop)]
pub(crate) struct Sums {
    first: u64,
    second: u64,
    third: u64,
    fourth: u64,
}

/// A sum with one word more: both joined by exclusive or, times an odd number, and the halves exchanged. Each of the
/// three can be undone, so that different words make different sums.
#[inline(always)]
#[tactic(auto, unfolding(crate::specs::Sums::mixed))]
fn mixed(sum: u64, word: u64) -> u64
    ensures { result ≡ mixed sum word }
{
    (sum ^ word).wrapping_mul(FACTOR).rotate_left(32)
}

/// The law of the factor: the number that the definition of a sum takes from the code, in digits. The function does
/// nothing; its contract is the law.
pub fn factor_in_digits()
    ensures { FACTOR ≡ 11400714819323198485 }
{}

impl Sums {
    /// The sums of no words.
    pub(crate) fn new() -> Sums
        ensures { result ≡ first_sums }
    {
        Sums {
            first: 1,
            second: 2,
            third: 3,
            fourth: 4,
        }
    }

    /// Takes a word.
    #[inline(always)]
    #[tactic(auto, unfolding(crate::specs::Sums::absorbed))]
    pub(crate) fn natural(&mut self, word: u64)
        ensures { self.new ≡ absorbed self.old word }
    {
        let last = mixed(self.first, word);
        self.first = self.second;
        self.second = self.third;
        self.third = self.fourth;
        self.fourth = last;
    }

    /// Takes a number with a sign, in two's complement.
    #[inline(always)]
    pub(crate) fn integer(&mut self, number: i64)
        ensures { self.new ≡ absorbed self.old (cast_unsigned w64 number) }
    {
        self.natural(number.cast_unsigned());
    }

    /// Takes a number of 128 bits, its lower half first.
    #[inline(always)]
    pub(crate) fn wide(&mut self, number: i128)
        ensures { self.new ≡ absorbed (absorbed self.old (cast_unsigned w128 number % 2 ^ 64)) (cast_unsigned w128 number / 2 ^ 64) }
    {
        let bits = number.cast_unsigned();
        self.natural((bits % (1 << 64)) as u64);
        self.natural((bits / (1 << 64)) as u64);
    }

    /// Takes 1 for what holds, and 0 for what doesn't.
    #[inline(always)]
    pub(crate) fn truth(&mut self, holds: bool)
        ensures { self.new ≡ absorbed self.old (truth_word holds) }
    {
        self.natural(if holds { 1 } else { 0 });
    }

    /// Their SHA-256, each sum with its lowest byte first.
    pub(crate) fn finish(&self) -> [u8; 32]
        ensures { result ≡ sha256 (bytes_of self.now) }
    {
        let mut hasher = Sha256::new();
        hasher.update(self.first.to_le_bytes().as_slice());
        hasher.update(self.second.to_le_bytes().as_slice());
        hasher.update(self.third.to_le_bytes().as_slice());
        hasher.update(self.fourth.to_le_bytes().as_slice());
        hasher.finalize()
    }
}
