ghost use Rattle.std.specs.Prelude.{◌≡◌, ◌^◌, ◌↔◌, ℕ, ◌≤◌, IsTrue};
ghost use Rattle.range_coder.specs.Table.{IsLive, IsClosed, next_state};
ghost use Rattle.range_coder.specs.DefaultTable.{default_one_states};

use std::marker::Model;

/// How a state is adapted after each bit that is coded with it (RFC 9043, section 3.8.1.4).
#[derive(Drop)]
pub struct Table {
    ones: [u8; 256],
    zeros: [u8; 256],
}

impl Model for Table {
    ghost use Rattle.std.specs.Prelude.{List, ℕ};
    ghost use Rattle.range_coder.specs.TableFields.{IsTable};

    ghost Value = { List ℕ };

    ghost view = { λ t. t.ones };

    ghost invariant = { λ t. IsTable t.ones t.zeros };
}

impl Table {
    /// The default table (RFC 9043, section 3.8.1.5). Its live states are 8 to 248. It takes no memory.
    pub fn default_table() -> Table
        ensures table { result ≡ default_one_states }
        ensures closed { IsClosed result }
        ensures live { (state : ℕ) → 8 ≤ state → state ≤ 248 → IsLive result state }
    {
        Table {
            ones: DEFAULT_ONE_STATES,
            zeros: DEFAULT_ZERO_STATES,
        }
    }

    /// Whether the state is live for the table: a bit can be coded with it, and then again with the state
    /// that follows. It takes no memory.
    pub fn live(&self, state: u8) -> bool
        ensures live { IsTrue result ↔ IsLive self.now state }
        ensures closed { IsClosed self.now }
    {
        state > 0 && self.ones[usize::from(state)] > 0 && self.ones[256 - usize::from(state)] > 0
    }

    /// The state that follows a bit on a live state.
    #[inline(always)]
    pub(crate) fn next(&self, state: u8, bit: bool) -> u8
        requires { IsLive self.now state }
        ensures next { result ≡ next_state self.now state bit }
        ensures live { IsLive self.now result }
        ensures closed { IsClosed self.now }
    {
        if bit {
            self.ones[usize::from(state)]
        } else {
            self.zeros[usize::from(state)]
        }
    }
}

// The states after bit 1.
#[rattlefmt::skip]
const DEFAULT_ONE_STATES: [u8; 256] = [
      0,   0,   0,   0,   0,   0,   0,   0,  20,  21,  22,  23,  24,  25,  26,  27,
     28,  29,  30,  31,  32,  33,  34,  35,  36,  37,  37,  38,  39,  40,  41,  42,
     43,  44,  45,  46,  47,  48,  49,  50,  51,  52,  53,  54,  55,  56,  56,  57,
     58,  59,  60,  61,  62,  63,  64,  65,  66,  67,  68,  69,  70,  71,  72,  73,
     74,  75,  75,  76,  77,  78,  79,  80,  81,  82,  83,  84,  85,  86,  87,  88,
     89,  90,  91,  92,  93,  94,  94,  95,  96,  97,  98,  99, 100, 101, 102, 103,
    104, 105, 106, 107, 108, 109, 110, 111, 112, 113, 114, 114, 115, 116, 117, 118,
    119, 120, 121, 122, 123, 124, 125, 126, 127, 128, 129, 130, 131, 132, 133, 133,
    134, 135, 136, 137, 138, 139, 140, 141, 142, 143, 144, 145, 146, 147, 148, 149,
    150, 151, 152, 152, 153, 154, 155, 156, 157, 158, 159, 160, 161, 162, 163, 164,
    165, 166, 167, 168, 169, 170, 171, 171, 172, 173, 174, 175, 176, 177, 178, 179,
    180, 181, 182, 183, 184, 185, 186, 187, 188, 189, 190, 190, 191, 192, 194, 194,
    195, 196, 197, 198, 199, 200, 201, 202, 202, 204, 205, 206, 207, 208, 209, 209,
    210, 211, 212, 213, 215, 215, 216, 217, 218, 219, 220, 220, 222, 223, 224, 225,
    226, 227, 227, 229, 229, 230, 231, 232, 234, 234, 235, 236, 237, 238, 239, 240,
    241, 242, 243, 244, 245, 246, 247, 248, 248,   0,   0,   0,   0,   0,   0,   0,
];

// The states after bit 0: 256 less the state after bit 1 of the state that is as far from the other end.
#[rattlefmt::skip]
const DEFAULT_ZERO_STATES: [u8; 256] = [
      0,   0,   0,   0,   0,   0,   0,   0,   8,   8,   9,  10,  11,  12,  13,  14,
     15,  16,  17,  18,  19,  20,  21,  22,  22,  24,  25,  26,  27,  27,  29,  29,
     30,  31,  32,  33,  34,  36,  36,  37,  38,  39,  40,  41,  41,  43,  44,  45,
     46,  47,  47,  48,  49,  50,  51,  52,  54,  54,  55,  56,  57,  58,  59,  60,
     61,  62,  62,  64,  65,  66,  66,  67,  68,  69,  70,  71,  72,  73,  74,  75,
     76,  77,  78,  79,  80,  81,  82,  83,  84,  85,  85,  86,  87,  88,  89,  90,
     91,  92,  93,  94,  95,  96,  97,  98,  99, 100, 101, 102, 103, 104, 104, 105,
    106, 107, 108, 109, 110, 111, 112, 113, 114, 115, 116, 117, 118, 119, 120, 121,
    122, 123, 123, 124, 125, 126, 127, 128, 129, 130, 131, 132, 133, 134, 135, 136,
    137, 138, 139, 140, 141, 142, 142, 143, 144, 145, 146, 147, 148, 149, 150, 151,
    152, 153, 154, 155, 156, 157, 158, 159, 160, 161, 162, 162, 163, 164, 165, 166,
    167, 168, 169, 170, 171, 172, 173, 174, 175, 176, 177, 178, 179, 180, 181, 181,
    182, 183, 184, 185, 186, 187, 188, 189, 190, 191, 192, 193, 194, 195, 196, 197,
    198, 199, 200, 200, 201, 202, 203, 204, 205, 206, 207, 208, 209, 210, 211, 212,
    213, 214, 215, 216, 217, 218, 219, 219, 220, 221, 222, 223, 224, 225, 226, 227,
    228, 229, 230, 231, 232, 233, 234, 235, 236,   0,   0,   0,   0,   0,   0,   0,
];
