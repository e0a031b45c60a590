ghost use Rattle.std.specs.Prelude.{◌≡◌, ◌≤◌};

use shelf_core::{Sink, SinkFailed};
use std::io::{self, Write};

/// The standard output.
#[derive(Drop)]
pub struct RealSink {
    system: HostRuntime,
    faults: u64,
}

impl RealSink {
    /// The standard output, before any write failed.
    pub fn new(system: HostRuntime) -> RealSink
        ensures { result.faults ≡ 0 }
    {
        RealSink { system, faults: 0 }
    }
}

fn print(system: &HostRuntime, bytes: &[u8]) -> io::Result<()> {
    let mut out = system.stdout();
    out.write_all(bytes)?;
    out.flush()
}

#[tactic(auto, using(crate::proofs::NothingTold::wrote), unfolding(shelf_core::specs::Report::with_text))]
impl Sink for RealSink {
    ghost use Rattle.std.specs.Prelude.{None};

    ghost written = { λ sink. None };

    ghost faults = { λ sink. sink.faults };

    fn write(&mut self, bytes: &[u8]) -> Result<(), SinkFailed> {
        match print(&self.system, bytes) {
            Ok(()) => Ok(()),
            Err(_) => {
                self.faults = self.faults.saturating_add(1);
                Err(SinkFailed)
            }
        }
    }
}
