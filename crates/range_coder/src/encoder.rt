ghost use Rattle.std.specs.Prelude.{◌≡◌, ◌+◌, ◌<◌, ◌≤◌, [], ◌∷◌, length, IfOk, OnOk, OnErr};
ghost use Rattle.range_coder.specs.Interval.{whole, narrow, ending};
ghost use Rattle.range_coder.specs.Table.{IsLive, IsClosed, AreLive, next_state};
ghost use Rattle.range_coder.specs.Coding.{Puts, PutsFront};
ghost use Rattle.range_coder.specs.Symbol.{choice, IsCodable, symbol_choices};
ghost use Rattle.range_coder.specs.Placing.{ArePlaced, placed_symbols};

use crate::carry::push_digit;
use crate::putting::{put_line, put_value};
use crate::window::{Window, part};
use crate::{Placed, Table};
use cook_bits::{Bytes, NoMemory};
use std::alloc::Global;
use std::marker::Model;

/// Codes bits as bytes (RFC 9043, section 3.8.1.1). Contracts see the interval of the bits so far, and
/// how many more there is room for.
#[derive(Drop)]
pub struct Encoder {
    bytes: Vec<u8>,
    window: Window,
}

impl Model for Encoder {
    ghost use Rattle.std.specs.Prelude.{◌-◌};
    ghost use Rattle.range_coder.specs.Encoding.{Encoding, encoding_of, IsWindow};

    ghost Value = { Encoding };

    ghost view = { λ e. encoding_of e.bytes (e.window.top - e.window.range) e.window.range };

    ghost invariant = { λ e. IsWindow e.bytes.items e.window.top e.window.range };
}

impl Encoder {
    /// Nothing is coded yet. It takes no memory; [`Encoder::reserve`], [`Encoder::put`] and [`Encoder::finish`] may.
    pub fn new(alloc: Global) -> Encoder
        ensures { result.interval ≡ whole }
    {
        Encoder {
            bytes: Vec::new(alloc),
            window: Window {
                top: 65280,
                range: 65280,
            },
        }
    }

    /// Makes room for `n` bits: the next `n` bits aren't refused, however they are put.
    pub fn reserve(&mut self, n: usize) -> Result<(), NoMemory>
        ensures room { OnOk result (n ≤ self.new.spare) }
        ensures spare { self.old.spare ≤ self.new.spare }
        ensures interval { self.new.interval ≡ self.old.interval }
    {
        self.bytes.reserve(n)?;
        Ok(())
    }

    /// Codes a bit with the state, and adapts the state. After a refusal the encoder and the state are
    /// unchanged. Where there is room it isn't refused.
    pub fn put(&mut self, table: &Table, state: &mut u8, bit: bool) -> Result<(), NoMemory>
        requires live { IsLive table.now state.old }
        ensures ok { OnOk result (self.new.interval ≡ narrow self.old.interval state.old bit) }
        ensures next { OnOk result (state.new ≡ next_state table.now state.old bit) }
        ensures err { OnErr result (self.new.interval ≡ self.old.interval) }
        ensures same { OnErr result (state.new ≡ state.old) }
        ensures live { IsLive table.now state.new }
        ensures closed { IsClosed table.now }
        ensures room { OnErr result (self.old.spare ≡ 0) }
        ensures spare { self.old.spare ≤ self.new.spare + 1 }
    {
        self.window.put(&mut self.bytes, table, state, bit)
    }

    /// Codes a bit with the state of a slot, of any number of states, and adapts it. After a refusal nothing is
    /// changed. Where there is room it isn't refused.
    pub fn put_slot(
        &mut self,
        table: &Table,
        states: &mut [u8],
        slot: usize,
        bit: bool,
    ) -> Result<(), NoMemory>
        requires slot { slot < length states.old }
        requires live { AreLive table.now states.old }
        ensures ok { OnOk result (Puts table.now self.old states.old self.new states.new (choice slot bit ∷ [])) }
        ensures err { OnErr result (PutsFront table.now self.old states.old self.new states.new (choice slot bit ∷ [])) }
        ensures live { AreLive table.now states.new }
        ensures closed { IsClosed table.now }
    {
        self.window
            .put_slot(&mut self.bytes, table, states, slot, bit)
    }

    // Codes a number with a set of states.
    pub(crate) fn put_value(
        &mut self,
        table: &Table,
        set: &mut [u8],
        value: i32,
        signed: bool,
    ) -> Result<(), NoMemory>
        requires set { length set.old ≡ 32 }
        requires live { AreLive table.now set.old }
        requires codable { IsCodable value signed }
        ensures ok { OnOk result (Puts table.now self.old set.old self.new set.new (symbol_choices value signed)) }
        ensures err { OnErr result (PutsFront table.now self.old set.old self.new set.new (symbol_choices value signed)) }
        ensures live { AreLive table.now set.new }
        ensures closed { IsClosed table.now }
    {
        put_value(&mut self.window, &mut self.bytes, table, set, value, signed)
    }

    /// Codes numbers one after another, each with the 32 states that begin at its slot, of any number of states, and
    /// adapts them. After a refusal a front of their bits stands in the encoder. Where there is room for all their
    /// bits it isn't refused.
    pub fn put_symbols(
        &mut self,
        table: &Table,
        states: &mut [u8],
        symbols: &[Placed],
        signed: bool,
    ) -> Result<(), NoMemory>
        requires live { AreLive table.now states.old }
        requires placed { ArePlaced (length states.old) signed symbols.now }
        ensures ok { OnOk result (Puts table.now self.old states.old self.new states.new (placed_symbols signed symbols.now)) }
        ensures err { OnErr result (PutsFront table.now self.old states.old self.new states.new (placed_symbols signed symbols.now)) }
        ensures live { AreLive table.now states.new }
    {
        let mut window = self.window;
        let put = put_line(&mut window, &mut self.bytes, table, states, symbols, signed);
        self.window = window;
        put
    }

    /// The bytes of all bits that were put since the encoder was made.
    pub fn finish(self) -> Result<Bytes, NoMemory>
        ensures { IfOk result (λ bytes. bytes ≡ ending self.interval) }
    {
        let Encoder { bytes, window } = self;
        let mut bytes = bytes;
        let (top, range) = part(window.top, window.range, 129, false);
        let mut low = top - range;
        if range < 256 {
            push_digit(&mut bytes, low / 256)?;
            low = low % 256 * 256;
        }
        push_digit(&mut bytes, (low + 255) / 256)?;
        Ok(Bytes::from_vec(bytes))
    }
}
