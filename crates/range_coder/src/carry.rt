// Digits of a number at the end of bytes, with the carries that they bring.

ghost use Rattle.std.specs.Prelude.{◌≡◌, ℕ, ◌+◌, ◌*◌, ◌^◌, ◌<◌, ◌≤◌, length, slice_index, OnOk, OnErr};
ghost use Rattle.range_coder.specs.Interval.{first_bytes};
ghost use Rattle.range_coder.specs.Encoding.{number_in, spare_in};

use cook_bits::NoMemory;

/// Adds a digit to the base 256 at the end, which may have a carry to the bytes before it. After a
/// refusal the bytes are unchanged.
#[inline(never)]
pub(crate) fn push_digit(bytes: &mut Vec<u8>, digit: u32) -> Result<(), NoMemory>
    requires digit { digit < 512 }
    requires room { number_in bytes.old.items * 256 + digit < 256 ^ (length bytes.old.items + 1) }
    ensures len { OnOk result (length bytes.new.items ≡ length bytes.old.items + 1) }
    ensures number { OnOk result (number_in bytes.new.items ≡ number_in bytes.old.items * 256 + digit) }
    ensures err { OnErr result (bytes.new.items ≡ bytes.old.items) }
    ensures spare { spare_in bytes.old ≤ spare_in bytes.new + 1 }
    ensures full { OnErr result (spare_in bytes.old ≡ 0) }
    ensures fits { (k : ℕ) → slice_index bytes.new.items k < 256 }
{
    let end = bytes.len();
    bytes.push((digit % 256) as u8)?;
    if digit >= 256 {
        carry(bytes.as_mut_slice(), end);
    }
    Ok(())
}

// Adds one to the number that the bytes before `end` spell.
#[tactic(auto, using(crate::proofs::Carries::carries))]
fn carry(bytes: &mut [u8], end: usize)
    requires within { end ≤ length bytes.old }
    requires room { first_bytes end bytes.old + 1 < 256 ^ end }
    ensures number { first_bytes end bytes.new ≡ first_bytes end bytes.old + 1 }
    ensures behind { (k : ℕ) → end ≤ k → slice_index bytes.new k ≡ slice_index bytes.old k }
{
    let mut at = end;
    while at > 0 {
        at -= 1;
        if bytes[at] != 255 {
            bytes[at] += 1;
            return;
        }
        bytes[at] = 0;
    }
}
