ghost use Rattle.std.specs.Prelude.{◌≡◌, ◌<◌, ◌+◌, length, replicate};

use super::is;
use slice_pool::{Gate, OpenGate, TileTask, run_tiles};
use std::sync::atomic::{AtomicU64, Ordering};

const MOST_TURNS: u32 = 100_000_000;

// Share 0 waits until share 1 has passed, up to so many turns.
#[derive(Drop)]
struct WaitingGate {
    firsts: AtomicU64,
    seconds: AtomicU64,
    given_up: AtomicU64,
}

impl Gate for WaitingGate {
    fn pass(&self, slot: u32) {
        if slot == 1 {
            self.seconds.fetch_add(1, Ordering::SeqCst);
            return;
        }
        self.firsts.fetch_add(1, Ordering::SeqCst);
        for _ in 0..MOST_TURNS {
            if self.seconds.load(Ordering::SeqCst) > 0 {
                return;
            }
        }
        self.given_up.fetch_add(1, Ordering::SeqCst);
    }
}

// Fills each tile with its number and answers it.
#[derive(Drop)]
struct Numbering;

impl TileTask for Numbering {
    type Answer = u16;

    type Scratch = u8;

    ghost Takes = { λ _ number tile. number < 9 };

    ghost Fits = { λ _ scratch. scratch < 9 };

    ghost Does = { λ _ number old new answer. (new ≡ replicate (length old) number) × (answer ≡ number) };

    fn run(&self, number: usize, tile: &mut [u16], scratch: &mut u8) -> u16 {
        *scratch = 7;
        tile.fill(number as u16);
        number as u16
    }
}

#[test]
fn two_shares_run_beside_one_another(rt: HostRuntime) {
    let gate = WaitingGate {
        firsts: AtomicU64::new(0),
        seconds: AtomicU64::new(0),
        given_up: AtomicU64::new(0),
    };
    let mut buffer = [9; 5];
    let mut scratch = [0; 2];
    let mut answers = [9; 2];
    run_tiles(
        &rt,
        &Numbering,
        &mut buffer,
        &[0, 2, 5],
        &mut scratch,
        &mut answers,
        &gate,
    );
    is(&rt, gate.given_up.load(Ordering::SeqCst), 0);
    is(&rt, gate.firsts.load(Ordering::SeqCst), 1);
    is(&rt, gate.seconds.load(Ordering::SeqCst), 1);
    is(&rt, buffer, [0, 0, 1, 1, 1]);
    is(&rt, answers, [0, 1]);
    is(&rt, scratch, [7, 7]);
}

// Of three tiles among five workers, the shares 1, 3 and 4 have one each.
#[test]
fn shares_without_tiles_pass_no_gate(rt: HostRuntime) {
    let mut buffer = [9; 4];
    let mut scratch = [0; 5];
    let mut answers = [9; 3];
    run_tiles(
        &rt,
        &Numbering,
        &mut buffer,
        &[0, 1, 1, 4],
        &mut scratch,
        &mut answers,
        &OpenGate,
    );
    is(&rt, buffer, [0, 2, 2, 2]);
    is(&rt, answers, [0, 1, 2]);
    is(&rt, scratch, [0, 7, 0, 7, 7]);
}
