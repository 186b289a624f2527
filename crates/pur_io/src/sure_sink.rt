//! A sink that never fails, and keeps nothing.

ghost use Rattle.std.specs.Prelude.{◌≡◌, ◌+◌, ◌-◌, ◌^◌, ◌<◌, min, length, None, IsOk, IfOk};
ghost use Rattle.pur_io.specs.Sinks.{SureSinkState};

use crate::traits::{Failed, Sink};
use std::marker::Model;

/// A sink that never fails: it counts the bytes that it is given and drops them.
#[derive(Drop)]
pub struct SureSink {
    count: u64,
}

impl Model for SureSink {
    ghost Value = { SureSinkState };

    ghost view = { λ s. record { given = s.count } };
}

impl SureSink {
    /// A sink that was given nothing yet.
    pub fn new() -> SureSink
        ensures { result.given ≡ 0 }
    {
        SureSink { count: 0 }
    }

    /// How many bytes the sink was given; the count stays at 2^64 - 1 once it stands there.
    pub fn given(&self) -> u64
        ensures { result ≡ self.now.given }
    {
        self.count
    }
}

impl Sink for SureSink {
    ghost taken = { λ _. None };

    ghost faults = { λ _. 0 };

    /// Takes the whole piece. Never fails.
    fn write(&mut self, piece: &[u8]) -> Result<usize, Failed>
        requires { 0 < length piece.now }
        ensures sure { IsOk result }
        ensures whole { IfOk result (λ n. n ≡ length piece.now) }
        ensures given { self.new.given ≡ min (self.old.given + length piece.now) (2 ^ 64 - 1) }
    {
        self.count = self.count.saturating_add(piece.len() as u64);
        Ok(piece.len())
    }
}
