ghost use Rattle.std.specs.Prelude.{◌≡◌, List, [], ◌∷◌, ℕ, ◌<◌, length, OnOk, OnErr, IfOk};
ghost use Rattle.range_coder.specs.Symbol.{choice, fresh_states, IsCodable, symbol_choices, overlong_choices};
ghost use Rattle.range_coder.specs.Table.{IsLive, IsClosed, AreLive};
ghost use Rattle.range_coder.specs.Coding.{Puts, PutsFront, Gets};

use crate::getting::get_value;
use crate::{BadSymbol, Decoder, Encoder, Table};
use cook_bits::NoMemory;
use std::marker::Model;

/// The 32 states with which numbers of one kind are coded (RFC 9043, section 3.8.1.2).
#[derive(Drop)]
pub struct States {
    states: [u8; 32],
}

impl Model for States {
    ghost use Rattle.std.specs.Prelude.{List, ℕ};

    ghost Value = { List ℕ };

    ghost view = { λ s. s.states };
}

impl States {
    /// The states before any number: 128 in each, as where no initial states are coded (RFC 9043, section 4.2,
    /// "Parameters", `states_coded`). It takes no memory.
    pub fn fresh() -> States
        ensures states { result ≡ fresh_states }
        ensures count { length result ≡ 32 }
        ensures live { (table : List ℕ) → IsLive table 128 → AreLive table result }
    {
        States { states: [128; 32] }
    }

    /// Codes a bit with the state of a slot, and adapts it. After a refusal nothing is changed. Where there is room
    /// it isn't refused.
    pub fn put(
        &mut self,
        encoder: &mut Encoder,
        table: &Table,
        slot: usize,
        bit: bool,
    ) -> Result<(), NoMemory>
        requires slot { slot < 32 }
        requires live { AreLive table.now self.old }
        ensures ok { OnOk result (Puts table.now encoder.old self.old encoder.new self.new (choice slot bit ∷ [])) }
        ensures err { OnErr result (PutsFront table.now encoder.old self.old encoder.new self.new (choice slot bit ∷ [])) }
        ensures live { AreLive table.now self.new }
        ensures closed { IsClosed table.now }
        ensures count { length self.new ≡ 32 }
    {
        encoder.put_slot(table, &mut self.states, slot, bit)
    }

    /// Reads a bit with the state of a slot, and adapts it. It takes no memory.
    pub fn get(&mut self, decoder: &mut Decoder<'_>, table: &Table, slot: usize) -> bool
        requires slot { slot < 32 }
        requires live { AreLive table.now self.old }
        ensures gets { Gets table.now decoder.old self.old decoder.new self.new (choice slot result ∷ []) }
        ensures live { AreLive table.now self.new }
        ensures closed { IsClosed table.now }
        ensures count { length self.new ≡ 32 }
    {
        decoder.get_slot(table, &mut self.states, slot)
    }
}

/// Codes a number with the states, and adapts them. After a refusal a front of its bits stands in the
/// encoder. Where there is room for all its bits it isn't refused.
pub fn put_symbol(
    encoder: &mut Encoder,
    table: &Table,
    states: &mut States,
    value: i32,
    signed: bool,
) -> Result<(), NoMemory>
    requires live { AreLive table.now states.old }
    requires codable { IsCodable value signed }
    ensures ok { OnOk result (Puts table.now encoder.old states.old encoder.new states.new (symbol_choices value signed)) }
    ensures err { OnErr result (PutsFront table.now encoder.old states.old encoder.new states.new (symbol_choices value signed)) }
    ensures live { AreLive table.now states.new }
    ensures closed { IsClosed table.now }
{
    encoder.put_value(table, &mut states.states, value, signed)
}

/// Reads a number with the states, and adapts them. It is `BadSymbol` exactly where the exponent passes
/// 30. It takes no memory.
pub fn get_symbol(
    decoder: &mut Decoder<'_>,
    table: &Table,
    states: &mut States,
    signed: bool,
) -> Result<i32, BadSymbol>
    requires { AreLive table.now states.old }
    ensures ok { IfOk result (λ value. Gets table.now decoder.old states.old decoder.new states.new (symbol_choices value signed)) }
    ensures codable { IfOk result (λ value. IsCodable value signed) }
    ensures bad { OnErr result (Gets table.now decoder.old states.old decoder.new states.new overlong_choices) }
    ensures live { AreLive table.now states.new }
    ensures closed { IsClosed table.now }
{
    get_value(decoder, table, &mut states.states, signed)
}
