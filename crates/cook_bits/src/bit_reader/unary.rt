ghost use Rattle.std.specs.Prelude.{◌≡◌, ◌<◌, ◌++◌, IfNone, IfSome};
ghost use Rattle.cook_bits.specs.Bits.{low_bits, bits_of};
ghost use Rattle.cook_bits.specs.Unary.{in_32_bits, unary_taken, unary_left, Found};

use super::{BitReader, filled, with_enough};

#[derive(Drop)]
struct Behind<'a> {
    zeros: u32,
    word: u64,
    held: u32,
    rest: &'a [u8],
}

// The bits behind the next one that is set.
#[inline]
fn behind_one(word: u64, held: u32, rest: &[u8]) -> Option<Behind<'_>>
    requires { held < 64 }
    ensures none { IfNone result (unary_taken (low_bits held word ++ bits_of rest.now) ≡ None) }
    ensures held { IfSome result (λ x. x.held < 64) }
    ensures some { let bits = low_bits held word ++ bits_of rest.now in
        IfSome result (λ x. Found x.zeros bits (low_bits x.held x.word ++ bits_of x.rest.now)) }
{
    let mut zeros: u32 = 0;
    let mut ahead = with_enough(word, held, rest, 32);
    while ahead.held > 0 {
        let next = ahead.word % (1 << ahead.held);
        if next > 0 {
            let highest = next.ilog2();
            return Some(Behind {
                zeros: zeros.saturating_add(ahead.held - 1 - highest),
                word: ahead.word,
                held: highest,
                rest: ahead.rest,
            });
        }
        zeros = zeros.saturating_add(ahead.held);
        ahead = filled(0, 0, ahead.rest);
    }
    None
}

impl BitReader<'_> {
    /// How many bits that aren't set stand before the next one that is, or 2^32 - 1 where there are more; all these
    /// bits are taken. `None` exactly where none is set; the reader is then unchanged. It takes no memory.
    #[inline]
    #[tactic(auto, unfolding(crate::specs::Unary::unary_left))]
    pub fn take_unary(&mut self) -> Option<u32>
        ensures value { result ≡ in_32_bits (unary_taken self.old) }
        ensures left { self.new ≡ unary_left self.old }
    {
        let Behind {
            zeros,
            word,
            held,
            rest,
        } = behind_one(self.word, self.held, self.rest)?;
        self.word = word;
        self.held = held;
        self.rest = rest;
        Some(zeros)
    }
}
