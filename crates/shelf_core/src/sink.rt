ghost use Rattle.std.specs.Prelude.{◌≡◌, ◌≤◌, ℕ, List, Option, OnOk, OnErr};
ghost use Rattle.shelf_core.specs.Causes.{Rose};
ghost use Rattle.shelf_core.specs.Report.{with_text, WrittenPartly};

use thiserror::Error;

/// The sink took no more bytes, and its count of faults rose.
#[derive(Clone, Copy, Debug, PartialEq, Eq, Error)]
#[error("report fault")]
pub struct SinkFailed;

/// A place that takes a report: the standard output, or a buffer in memory.
pub trait Sink {
    /// The bytes that it holds, where they are told.
    ghost written: { Self → Option (List ℕ) };

    /// How often a write failed. It never falls.
    ghost faults: { Self → ℕ };

    /// Adds all bytes at the end, or a front of them and a fault. It takes no memory.
    fn write(&mut self, bytes: &[u8]) -> Result<(), SinkFailed>
        ensures ok { OnOk result (written self.new ≡ with_text (written self.old) bytes.now) }
        ensures err { OnErr result (WrittenPartly (written self.old) bytes.now (written self.new)) }
        ensures kept { faults self.old ≤ faults self.new }
        ensures cause { OnErr result (Rose (faults self.old) (faults self.new)) };
}
