//! A standard stream as a sink.

ghost use Rattle.std.specs.Prelude.{◌≡◌, ◌^◌, ◌<◌, ◌≤◌, length, take, None, IfOk, OnErr};
ghost use Rattle.std.specs.Io.KnownBytes.{Appends};
ghost use Rattle.pur_io.specs.Faults.{one_more, HasCause};
ghost use Rattle.pur_io.specs.Sinks.{StdSinkState};

use crate::traits::{Failed, Sink};
use std::io::Write;
use std::marker::Model;

/// A standard stream, or any writer, as a sink. It doesn't tell what it has taken, but contracts see the writer: a write has
/// given it exactly the front of the piece that it answers for, in the words that std has for what a writer was given.
#[derive(Drop)]
pub struct StdSink<W: Write> {
    writer: W,
    fault_count: u64,
}

impl<W: Write> Model for StdSink<W> {
    ghost Value = { StdSinkState W };

    ghost view = { λ s. record { faults = s.fault_count; writer = s.writer } };

    ghost invariant = { λ s. s.fault_count < 2 ^ 64 };
}

impl<W: Write> StdSink<W> {
    /// A sink over this writer.
    pub fn new(writer: W) -> StdSink<W>
        ensures faults { result.faults ≡ 0 }
        ensures writer { result.writer ≡ writer }
    {
        StdSink {
            writer,
            fault_count: 0,
        }
    }

    // Counts a fault.
    fn fault(&mut self) -> Failed
        ensures faults { self.new.faults ≡ one_more self.old.faults }
        ensures writer { self.new.writer ≡ self.old.writer }
    {
        self.fault_count = self.fault_count.saturating_add(1);
        Failed
    }
}

impl<W: Write> Sink for StdSink<W> {
    ghost taken = { λ _. None };

    ghost faults = { λ s. s.faults };

    /// Writes and flushes. Fails where the system can't do either, or where it wrote no byte. Where
    /// only the flush failed, bytes of the piece may have gone out.
    fn write(&mut self, piece: &[u8]) -> Result<usize, Failed>
        requires { 0 < length piece.now }
        ensures least { IfOk result (λ n. 1 ≤ n) }
        ensures most { IfOk result (λ n. n ≤ length piece.now) }
        ensures cause { HasCause self.old.faults self.new.faults result }
        ensures counted { OnErr result (self.new.faults ≡ one_more self.old.faults) }
        ensures written { IfOk result (λ n. Appends (W.contents self.old.writer) (W.contents self.new.writer) (take n piece.now)) }
    {
        let count = match self.writer.write(piece) {
            Ok(count) => count,
            Err(_) => return Err(self.fault()),
        };
        if count == 0 {
            return Err(self.fault());
        }
        match self.writer.flush() {
            Ok(()) => Ok(count),
            Err(_) => Err(self.fault()),
        }
    }
}
