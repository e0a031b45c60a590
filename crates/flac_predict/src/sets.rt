// Sets of linear predictors, and the writer's bank of them.

ghost use Rattle.std.specs.Prelude.{◌≡◌, ◌≤◌, length};

/// The coefficients of a linear predictor (RFC 9639, section 9.2.6). The first is for the newest sample.
#[derive(Clone, Copy, Debug, Drop, PartialEq, Eq)]
pub struct LinearSet {
    /// How many coefficients there are, 1 to 32.
    pub order: u32,
    /// The bits of a coefficient in two's complement, 1 to 15.
    pub precision: u32,
    /// How far the sum is shifted right, 0 to 15.
    pub shift: u32,
    /// The coefficients; those from `order` on don't count.
    pub coefficients: [i32; 32],
}

ghost use Rattle.flac_predict.specs.Linear.{IsLinearSet};
ghost use Rattle.flac_predict.specs.Bank.{set_of, bank_set};

/// The set of a number from 1 to 8, which the writer tries. It takes no memory.
#[inline(always)]
pub fn bank(number: u32) -> LinearSet
    requires low { 1 ≤ number }
    requires high { number ≤ 8 }
    ensures set { result ≡ bank_set number }
    ensures linear { IsLinearSet result }
{
    numbered(number)
}

#[inline(always)]
fn numbered(number: u32) -> LinearSet
    requires low { 1 ≤ number }
    requires high { number ≤ 8 }
    ensures { result ≡ bank_set number }
{
    match number {
        1 => set_of(4, &[15]),
        2 => set_of(4, &[30, -14]),
        3 => set_of(4, &[28, -13]),
        4 => set_of(4, &[42, -38, 12]),
        5 => set_of(5, &[104, -127, 72, -17]),
        6 => set_of(4, &[24, -6, -4, 1]),
        7 => set_of(5, &[70, -48, 6, 8, -6, 1]),
        _ => set_of(5, &[80, -70, 30, -10, 4, -4, 3, -1]),
    }
}

// A set with these coefficients, of 8 bits.
#[inline(always)]
fn set_of(shift: u32, first: &[i32]) -> LinearSet
    requires { length first.now ≤ 32 }
    ensures { result ≡ set_of (record { shift = shift; coefficients = first.now }) }
{
    let mut coefficients = [0; 32];
    coefficients[..first.len()].copy_from_slice(first);
    LinearSet {
        order: first.len() as u32,
        precision: 8,
        shift,
        coefficients,
    }
}
