//! A sink in memory, whose calls fail on order.

ghost use Rattle.std.specs.Prelude.{◌≡◌, ◌<◌, ◌≤◌, [], ◌++◌, length, take, vec_len, vec_capacity, Some, is_err, IfOk, OnErr};
ghost use Rattle.pur_io.specs.Faults.{one_more, HasCause};
ghost use Rattle.pur_io.specs.Sinks.{MemSinkState, write_fails, write_count};

use crate::fault_plan::FaultPlan;
use crate::traits::{Failed, Sink};
use std::alloc::{AllocError, Global};
use std::marker::Model;

/// A sink in memory that keeps what it takes, has a limited room, takes a limited number of bytes in
/// each call, and fails in the calls that its maker names.
#[derive(Drop)]
pub struct MemSink {
    kept: Vec<u8>,
    limit: usize,
    piece_limit: usize,
    plan: FaultPlan,
}

impl Model for MemSink {
    ghost Value = { MemSinkState };

    ghost view = { λ s. record {
      taken = s.kept.items;
      room = s.limit;
      failing = s.plan.failing.items;
      most = s.piece_limit;
      number = s.plan.number;
      faults = s.plan.faults;
    } };

    ghost invariant = { λ s. (1 ≤ s.piece_limit) × (vec_len s.kept ≤ s.limit) × (s.limit ≤ vec_capacity s.kept) };
}

impl MemSink {
    /// An empty sink with room for `room` bytes in all, which is reserved here, so that no write takes
    /// memory. The calls whose numbers are in `failing`, counted from 1, fail. A call takes at most
    /// `most` bytes.
    pub fn new(
        alloc: Global,
        room: usize,
        failing: Vec<u64>,
        most: usize,
    ) -> Result<MemSink, AllocError>
        requires { 1 ≤ most }
        ensures taken { IfOk result (λ sink. sink.taken ≡ []) }
        ensures room { IfOk result (λ sink. sink.room ≡ room) }
        ensures failing { IfOk result (λ sink. sink.failing ≡ failing.items) }
        ensures most { IfOk result (λ sink. sink.most ≡ most) }
        ensures number { IfOk result (λ sink. sink.number ≡ 0) }
        ensures faults { IfOk result (λ sink. sink.faults ≡ 0) }
    {
        Ok(MemSink {
            kept: Vec::with_capacity(alloc, room)?,
            limit: room,
            piece_limit: most,
            plan: FaultPlan::new(failing),
        })
    }

    /// The bytes taken so far.
    pub fn taken(&self) -> &[u8]
        ensures { result.now ≡ self.now.taken }
    {
        self.kept.as_slice()
    }
}

impl Sink for MemSink {
    ghost taken = { λ s. Some s.taken };

    ghost faults = { λ s. s.faults };

    /// Takes what still fits, at most as many bytes as one call takes. A call fails exactly where its
    /// number is among those that are to fail, or the room is full.
    fn write(&mut self, piece: &[u8]) -> Result<usize, Failed>
        requires { 0 < length piece.now }
        ensures least { IfOk result (λ n. 1 ≤ n) }
        ensures most { IfOk result (λ n. n ≤ length piece.now) }
        ensures ok { IfOk result (λ n. self.new.taken ≡ self.old.taken ++ take n piece.now) }
        ensures err { OnErr result (self.new.taken ≡ self.old.taken) }
        ensures cause { HasCause self.old.faults self.new.faults result }

        ensures fails { is_err result ≡ write_fails self.old }
        ensures takes { IfOk result (λ n. n ≡ write_count self.old (length piece.now)) }
        ensures counted { OnErr result (self.new.faults ≡ one_more self.old.faults) }
        ensures number { self.new.number ≡ one_more self.old.number }

        // How the sink was made never changes.
        ensures room { self.new.room ≡ self.old.room }
        ensures failing { self.new.failing ≡ self.old.failing }
        ensures limit { self.new.most ≡ self.old.most }
    {
        if self.plan.begin() {
            return Err(self.plan.fault());
        }
        let free = self.limit - self.kept.len();
        if free == 0 {
            return Err(self.plan.fault());
        }
        let count = free.min(self.piece_limit).min(piece.len());
        self.kept.extend_from_slice(&piece[..count]).unwrap();
        Ok(count)
    }
}
