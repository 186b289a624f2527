//! Files by their paths, and standard input, as a shelf.

ghost use Rattle.std.specs.Io.KnownBytes.{ReadConsumes};
ghost use Rattle.std.specs.Prelude.{◌≡◌, ◌≢◌, ◌^◌, ◌<◌, ◌≤◌, length, false, not, Some, None, option_map, string_bytes, is_err, is_some, IfOk, IfSome, OnErr, IsErr, IsOk, IsTrue};
ghost use Rattle.pur_io.specs.Faults.{one_more, HasCause};
ghost use Rattle.pur_io.specs.Private.Choices.{name_of, can_read, file_of};
ghost use Rattle.pur_io.specs.Shelves.{FileShelfState};

use crate::traits::{Failed, Shelf};
use std::fs;
use std::io::Read;
use std::marker::Model;
use std::rt::Files;

// What was chosen last: nothing yet, standard input, a file, or a name of which the system opened no
// file.
#[derive(Drop)]
enum Choice<F: Drop> {
    Nothing,
    Input,
    File { name: String, file: F },
    Unopened { name: String },
}

/// The real world as a shelf: a name is the path of a file. It tells no content, but contracts see the input and the
/// file: a read has taken from one of them exactly what it gave, in the words that std has for what a reader has left.
///
/// A fault is counted where a file can't be opened, where the system can't read, and where a read finds
/// nothing to read from, because nothing was chosen yet or the file chosen last could not be opened. A
/// directory may be opened, and then can't be read.
///
/// A file that is chosen again is opened anew, and read from its start. Standard input can be read once:
/// where it is chosen again, it goes on from where it was read to. No file is locked.
#[derive(Drop)]
pub struct FileShelf<'r, R: Files, I: Read> {
    rt: &'r R,
    input: I,
    choice: Choice<R::File>,
    fault_count: u64,
    marked: u64,
}

impl<'r, R: Files, I: Read> Model for FileShelf<'r, R, I> {
    ghost Value = { FileShelfState I R.File };

    ghost view = { λ s. record {
      file = file_of s.choice;
      input = s.input;
      faults = s.fault_count;
      chosen = name_of s.choice;
      is_readable = can_read s.choice;
      mark = s.marked;
    } };

    ghost invariant = { λ s. s.fault_count < 2 ^ 64 };
}

impl<'r, R: Files, I: Read> FileShelf<'r, R, I> {
    /// A shelf over the files of the runtime and this input, where nothing is chosen yet.
    pub fn new(rt: &'r R, input: I) -> FileShelf<'r, R, I>
        ensures faults { result.faults ≡ 0 }
        ensures chosen { result.chosen ≡ None }
        ensures readable { result.is_readable ≡ false }
        ensures mark { result.mark ≡ 0 }
        ensures input { result.input ≡ input }
    {
        FileShelf {
            rt,
            input,
            choice: Choice::Nothing,
            fault_count: 0,
            marked: 0,
        }
    }

    // Counts a fault.
    fn fault(&mut self) -> Failed
        ensures input { self.new.input ≡ self.old.input }
        ensures file { self.new.file ≡ self.old.file }
        ensures faults { self.new.faults ≡ one_more self.old.faults }
        ensures chosen { self.new.chosen ≡ self.old.chosen }
        ensures readable { self.new.is_readable ≡ self.old.is_readable }
        ensures mark { self.new.mark ≡ self.old.mark }
    {
        self.fault_count = self.fault_count.saturating_add(1);
        Failed
    }
}

impl<'r, R: Files, I: Read> Shelf for FileShelf<'r, R, I> {
    ghost texts = { λ _. None };

    ghost place = { λ _. 0 };

    ghost faults = { λ s. s.faults };

    ghost chosen = { λ s. s.chosen };

    ghost mark = { λ s. s.mark };

    /// Fails where a file can't be opened, and never for standard input. Where it failed there is nothing
    /// to read from.
    fn choose(&mut self, name: Option<String>) -> Result<(), Failed>
        ensures chosen { self.new.chosen ≡ Some (option_map string_bytes name) }
        ensures mark { self.new.mark ≡ self.old.faults }
        ensures cause { HasCause self.old.faults self.new.faults result }
        ensures counted { OnErr result (self.new.faults ≡ one_more self.old.faults) }
        ensures readable { is_err result ≡ not self.new.is_readable }
        ensures input { name ≡ None → IsOk result }
        ensures input_kept { self.new.input ≡ self.old.input }
    {
        self.marked = self.fault_count;
        self.choice = open(self.rt, name);
        if matches!(self.choice, Choice::Unopened { .. }) {
            Err(self.fault())
        } else {
            Ok(())
        }
    }

    /// Fails where the system can't read, and where there is nothing to read from.
    fn read(&mut self, into: &mut [u8]) -> Result<usize, Failed>
        requires { 0 < length into.old }
        ensures bound { IfOk result (λ n. n ≤ length into.new) }
        ensures chosen { self.new.chosen ≡ self.old.chosen }
        ensures readable { self.new.is_readable ≡ self.old.is_readable }
        ensures mark { self.new.mark ≡ self.old.mark }
        ensures cause { HasCause self.old.faults self.new.faults result }
        ensures counted { OnErr result (self.new.faults ≡ one_more self.old.faults) }
        ensures unreadable { self.old.is_readable ≡ false → IsErr result }
        ensures input_read { self.old.chosen ≡ Some None → ReadConsumes (I.remaining self.old.input) (I.remaining self.new.input) result into.new }
        ensures file_kept { is_some self.new.file ≡ is_some self.old.file }
        ensures file_read { IfSome self.old.file (λ old. IfSome self.new.file (λ new. ReadConsumes (R.File.remaining old) (R.File.remaining new) result into.new)) }
        ensures input_left { self.old.chosen ≢ Some None → self.new.input ≡ self.old.input }
    {
        let count = match &mut self.choice {
            Choice::Input => self.input.read(into).ok(),
            Choice::File { file, .. } => file.read(into).ok(),
            _ => None,
        };
        match count {
            Some(count) => Ok(count),
            None => Err(self.fault()),
        }
    }
}

// What a name chooses: standard input, or the file of this path.
fn open<R: Files>(rt: &R, name: Option<String>) -> Choice<R::File>
    ensures chosen { name_of result ≡ Some (option_map string_bytes name) }
    ensures input { name ≡ None → IsTrue (can_read result) }
{
    let Some(name) = name else {
        return Choice::Input;
    };
    match fs::open(rt, name.as_str()) {
        Ok(file) => Choice::File { name, file },
        Err(_) => Choice::Unopened { name },
    }
}
