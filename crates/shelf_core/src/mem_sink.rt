ghost use Rattle.std.specs.Prelude.{◌≡◌, ◌≤◌, ◌↔◌, [], length, Some, IfOk, OnOk, OnErr};
ghost use Rattle.std.specs.Vec.{vec_capacity};
ghost use Rattle.shelf_core.specs.Report.{with_text, WrittenPartly};

use crate::calls::Calls;
use crate::{Sink, SinkFailed};
use cook_bits::NoMemory;
use std::alloc::Global;

/// A sink in memory that tells its bytes, of a capacity that it takes at the making.
///
/// Each write counts one, from 1 on. It fails exactly where its number is one of those that were named at the making, or
/// the bytes go past the capacity. A write that fails adds nothing.
#[derive(Drop)]
pub struct MemSink {
    bytes: Vec<u8>,
    capacity: usize,
    calls: Calls,
    ghost room: { capacity ≤ vec_capacity bytes },
    ghost within: { length bytes.items ≤ capacity },
}

impl MemSink {
    /// An empty sink of so many bytes.
    pub fn new(alloc: Global, capacity: usize, fail_calls: Vec<u32>) -> Result<MemSink, NoMemory>
        ensures written { IfOk result (λ sink. ⟦<MemSink as Sink>⟧.written sink ≡ Some []) }
        ensures faults { IfOk result (λ sink. ⟦<MemSink as Sink>⟧.faults sink ≡ 0) }
        ensures capacity { IfOk result (λ sink. sink.capacity ≡ capacity) }
        ensures calls { IfOk result (λ sink. (sink.calls.made ≡ 0) × (sink.calls.failing.items ≡ fail_calls.items)) }
    {
        let bytes = Vec::with_capacity(alloc, capacity)?;
        Ok(MemSink {
            bytes,
            capacity,
            calls: Calls::new(fail_calls),
        })
    }

    /// The bytes that were written.
    pub fn bytes(&self) -> &[u8]
        ensures { ⟦<MemSink as Sink>⟧.written self.now ≡ Some result.now }
    {
        self.bytes.as_slice()
    }
}

impl Sink for MemSink {
    ghost use Rattle.std.specs.Prelude.{ℕ, List, Option, IsTrue, is_err, nat_lt, ◌+◌, ◌||◌, if◌then◌else◌};
    ghost use Rattle.shelf_core.specs.Calls.{IsListed, CountedOr, is_listed};
    ghost use Rattle.shelf_core.specs.Causes.{Rose};

    ghost written = { λ sink. Some sink.bytes.items };

    ghost faults = { λ sink. sink.calls.faults };

    #[tactic(auto, using(crate::specs::ReportLaws::report_laws))]
    fn write(&mut self, bytes: &[u8]) -> Result<(), SinkFailed>
        ensures ok { OnOk result (Some self.new.bytes.items ≡ with_text (Some self.old.bytes.items) bytes.now) }
        ensures err { OnErr result (WrittenPartly (Some self.old.bytes.items) bytes.now (Some self.new.bytes.items)) }
        ensures none { OnErr result (self.new.bytes.items ≡ self.old.bytes.items) }
        ensures kept { self.old.calls.faults ≤ self.new.calls.faults }
        ensures cause { OnErr result (Rose self.old.calls.faults self.new.calls.faults) }
        ensures refused { is_err result ≡ (is_listed self.old.calls || nat_lt self.old.capacity (length self.old.bytes.items + length bytes.now)) }
        ensures counted { CountedOr (is_err result) self.old.calls self.new.calls }
        ensures capacity { self.new.capacity ≡ self.old.capacity }
    {
        if self.calls.count() {
            return Err(SinkFailed);
        }
        if bytes.len() > self.capacity - self.bytes.len() {
            self.calls.fail();
            return Err(SinkFailed);
        }
        let _ = self.bytes.extend_from_slice(bytes);
        Ok(())
    }
}
