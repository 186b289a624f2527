//! Reading a text to its end, within its limit.
ghost use Rattle.std.specs.Prelude.{◌≡◌, ◌+◌, ◌<◌, [], ◌++◌, List, ℕ, length, Some, IfOk, IsErrOf, OnOk};
ghost use Rattle.pur_io.specs.Faults.{Rose};
ghost use Rattle.pur_io.specs.Texts.{plain_name, text_named, text_chosen};
ghost use Rattle.pur_commands.specs.Intakes.{HasCleaned};
ghost use Rattle.pur_commands.specs.Private.Reading.{IsRead};

use pur_io::{Failed, Shelf};
use pur_text::Cleaner;
use std::alloc::{AllocError, Global};

// The most bytes that a settings text may have.
pub const SETTINGS_LIMIT: usize = 65_536;

// The most bytes that an input may have.
pub const INPUT_LIMIT: usize = 1_048_576;

// The most bytes that are asked of a shelf at once.
const PIECE: usize = 4_096;

// Why a text could not be read.
#[derive(Clone, Copy, PartialEq, Eq, Debug)]
pub enum ReadFault {
    // The shelf failed.
    Failed,
    // The text is longer than its limit.
    TooLong,
    // Want of memory.
    Memory,
}

/// What takes the bytes of a text while they are read, piece by piece.
pub trait Intake {
    // It took these bytes and no others.
    ghost took: { Self → List ℕ → Type 0 };

    /// Takes the next piece. The error is want of memory.
    fn take_piece(&mut self, piece: &[u8]) -> Result<(), AllocError>
        ensures { OnOk result ((bytes : List ℕ) → took self.old bytes → took self.new (bytes ++ piece.now)) };
}

/// The bytes are kept as they are.
impl Intake for Vec<u8> {
    ghost took = { λ kept bytes. kept.items ≡ bytes };

    fn take_piece(&mut self, piece: &[u8]) -> Result<(), AllocError> {
        self.extend_from_slice(piece)
    }
}

/// Of the bytes their cleaned text is kept, and what may begin a character.
impl Intake for Cleaner {
    ghost took = { HasCleaned };

    fn take_piece(&mut self, piece: &[u8]) -> Result<(), AllocError> {
        self.feed(piece)
    }
}

// Puts all of the text of this name into an intake that took nothing yet, where the text is within the limit. At most one byte more
// than the limit is asked for.
pub fn read_text<H: Shelf, T: Intake + Drop>(
    alloc: Global,
    shelf: &mut H,
    name: Option<String>,
    limit: usize,
    intake: T,
) -> Result<T, ReadFault>
    requires fits { limit < usize.MAX }
    requires empty { T.took intake [] }
    ensures read { IsRead H.Shelf T.took (λ texts. text_named texts (plain_name name)) limit shelf.old shelf.new result }
    ensures late { IsErrOf result ReadFault.Failed → Rose (H.mark shelf.new) (H.faults shelf.new) }
    ensures chosen { H.chosen shelf.new ≡ Some (plain_name name) }
{
    if shelf.choose(name).is_err() {
        return Err(ReadFault::Failed);
    }
    let mut buffer = match piece_buffer(alloc) {
        Ok(buffer) => buffer,
        Err(_) => return Err(ReadFault::Memory),
    };
    read_chosen(shelf, limit, buffer.as_mut_slice(), intake)
}

// A buffer that holds a piece of a text.
fn piece_buffer(alloc: Global) -> Result<Vec<u8>, AllocError>
    ensures { IfOk result (λ buffer. 0 < length buffer.items) }
{
    vec![in alloc; 0u8; PIECE]
}

// Puts all of the text that was chosen last, of which nothing was read yet, into an intake that took nothing, by way of the buffer.
fn read_chosen<H: Shelf, T: Intake + Drop>(
    shelf: &mut H,
    limit: usize,
    buffer: &mut [u8],
    intake: T,
) -> Result<T, ReadFault>
    requires fits { limit < usize.MAX }
    requires room { 0 < length buffer.old }
    requires start { H.place shelf.old ≡ 0 }
    requires empty { T.took intake [] }
    ensures read { IsRead H.Shelf T.took (λ texts. text_chosen texts (H.chosen shelf.old)) limit shelf.old shelf.new result }
    ensures chosen { H.chosen shelf.new ≡ H.chosen shelf.old }
    ensures mark { H.mark shelf.new ≡ H.mark shelf.old }
{
    let mut taking = intake;
    let mut count = 0usize;
    'reading: while count <= limit {
        let want = (limit + 1 - count).min(buffer.len());
        let next = match shelf.read(&mut buffer[..want]) {
            Ok(next) => next,
            Err(Failed) => return Err(ReadFault::Failed),
        };
        if next == 0 {
            return Ok(taking);
        }
        if taking.take_piece(&buffer[..next]).is_err() {
            return Err(ReadFault::Memory);
        }
        count += next;
    }
    Err(ReadFault::TooLong)
}
