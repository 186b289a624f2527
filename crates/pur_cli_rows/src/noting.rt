//! A shelf and a sink that note how they are called: what contracts over the real world can't tell.

ghost use Rattle.std.specs.Prelude.{Some, None};

use pur_io::{Failed, MemShelf, Shelf, Sink};

// A shelf in memory that counts what is chosen, and reads that follow one which answered the end.
#[derive(Drop)]
pub(crate) struct NotingShelf {
    pub(crate) inner: MemShelf,
    pub(crate) choices: u64,
    pub(crate) reads: u64,
    pub(crate) reads_behind_the_end: u64,
    has_ended: bool,
}

impl NotingShelf {
    pub(crate) fn new(inner: MemShelf) -> NotingShelf {
        NotingShelf {
            inner,
            choices: 0,
            reads: 0,
            reads_behind_the_end: 0,
            has_ended: false,
        }
    }
}

impl Shelf for NotingShelf {
    ghost texts = { λ s. Some s.inner.texts };

    ghost place = { λ s. s.inner.place };

    ghost faults = { λ s. s.inner.faults };

    ghost chosen = { λ s. s.inner.chosen };

    ghost mark = { λ s. s.inner.mark };

    fn choose(&mut self, name: Option<String>) -> Result<(), Failed> {
        self.choices = self.choices.saturating_add(1);
        self.has_ended = false;
        self.inner.choose(name)
    }

    fn read(&mut self, into: &mut [u8]) -> Result<usize, Failed> {
        self.reads = self.reads.saturating_add(1);
        if self.has_ended {
            self.reads_behind_the_end = self.reads_behind_the_end.saturating_add(1);
        }
        let result = self.inner.read(into);
        self.has_ended = result.is_ok_and(|count: usize| count == 0);
        result
    }
}

// A sink that takes three bytes a call, and counts its calls and all the bytes that it was offered.
#[derive(Drop)]
pub(crate) struct NotingSink {
    pub(crate) calls: u64,
    pub(crate) offered: u64,
}

impl NotingSink {
    pub(crate) fn new() -> NotingSink {
        NotingSink {
            calls: 0,
            offered: 0,
        }
    }
}

impl Sink for NotingSink {
    ghost taken = { λ _. None };

    ghost faults = { λ _. 0 };

    fn write(&mut self, piece: &[u8]) -> Result<usize, Failed> {
        self.calls = self.calls.saturating_add(1);
        self.offered = self.offered.saturating_add(piece.len() as u64);
        Ok(piece.len().min(3))
    }
}
