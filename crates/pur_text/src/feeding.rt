//! A text that is cleaned while its bytes come.
ghost use Rattle.std.specs.Prelude.{◌≡◌, ◌≤◌, ◌<◌, ◌⊎◌, ◌==◌, ◌&&◌, drop, if◌then◌else◌, ℕ, List, [], ◌++◌, IfOk, OnOk, OnErr, IsTrue, true, false, length, take, slice_index, string_bytes};
ghost use Rattle.std.specs.Str.{chars};
ghost use Rattle.bstr.specs.Utf8.{continues};
ghost use Rattle.pur_text.specs.Cleaning.{chars_of, cleaned};
ghost use Rattle.pur_text.specs.Feeding.{cleaned_with, ends_in_cr};
ghost use Rattle.pur_text.specs.Private.Feeding.{BeginsWith, IsTail, MayGoOn, written_with};

use crate::cleaning::clean_onto;
use arrayvec::ArrayVec;
use std::alloc::{AllocError, Global};
use std::marker::Model;

/// A text that is cleaned while its bytes come, piece by piece, wherever they are cut.
///
/// It holds the cleaned text, and of the bytes at most three, which may begin a character. A CR is written as an LF when it
/// comes, and an LF behind it is passed over.
#[derive(Drop)]
pub struct Cleaner {
    written: Written,
    held: Held,
}

impl Model for Cleaner {
    ghost use Rattle.std.specs.Prelude.{string_bytes};
    ghost use Rattle.std.specs.Str.{chars};
    ghost use Rattle.pur_text.specs.Feeding.{Fed};
    ghost use Rattle.pur_text.specs.Private.Feeding.{MayGoOn};

    ghost Value = { Fed };

    ghost view = { λ cleaner. record {
      text = chars (string_bytes cleaner.written.text);
      after_cr = cleaner.written.after_cr;
      held = cleaner.held.bytes.items;
    } };

    ghost invariant = { λ cleaner. MayGoOn cleaner.held.bytes.items };
}

// The last bytes that came, where they may begin a character.
#[derive(Drop)]
struct Held {
    bytes: ArrayVec<u8, 6>,
}

// The text so far, and whether the last character that came was a CR.
#[derive(Drop)]
pub(crate) struct Written {
    pub(crate) text: String,
    pub(crate) after_cr: bool,
}

impl Cleaner {
    /// A cleaner to which nothing came yet. It takes no memory.
    pub fn new(alloc: Global) -> Cleaner
        ensures { (bytes : List ℕ) → cleaned_with result bytes ≡ cleaned bytes }
    {
        Cleaner {
            written: Written {
                text: String::new(alloc),
                after_cr: false,
            },
            held: Held {
                bytes: ArrayVec::new(),
            },
        }
    }

    /// Takes the next piece of the bytes.
    ///
    /// Fails only where memory is wanting, and nothing has changed then.
    pub fn feed(&mut self, piece: &[u8]) -> Result<(), AllocError>
        ensures ok { OnOk result ((bytes : List ℕ) → cleaned_with self.new bytes ≡ cleaned_with self.old (piece.now ++ bytes)) }
        ensures err { OnErr result (self.new ≡ self.old) }
    {
        let len = self.written.text.as_str().len();
        let after_cr = self.written.after_cr;
        match put_next(&mut self.written, self.held.bytes.as_slice(), piece) {
            Ok(held) => {
                self.held = held;
                Ok(())
            }
            Err(error) => {
                self.written.text.truncate(len);
                self.written.after_cr = after_cr;
                Err(error)
            }
        }
    }

    /// The text of all bytes that came. What may begin a character is none yet.
    pub fn text(&self) -> &str
        ensures { chars result.now ≡ cleaned_with self.now [] }
    {
        self.written.text.as_str()
    }

    /// The text of all bytes that came, and no more come. Bytes of a character that was never finished are dropped.
    pub fn finish(self) -> String
        ensures { chars (string_bytes result) ≡ cleaned_with self [] }
    {
        let Cleaner { written, .. } = self;
        let Written { text, .. } = written;
        text
    }
}

// Writes the text of what was held and of the next piece, and gives what is held from now on.
fn put_next(written: &mut Written, held: &[u8], piece: &[u8]) -> Result<Held, AllocError>
    requires { MayGoOn held.now }
    ensures held { IfOk result (λ left. MayGoOn left.bytes.items) }
    ensures text { IfOk result (λ left. (bytes : List ℕ) → written_with written.new (chars_of (left.bytes.items ++ bytes))
        ≡ written_with written.old (chars_of (held.now ++ (piece.now ++ bytes)))) }
    ensures begins { BeginsWith (string_bytes written.old.text) (string_bytes written.new.text) }
{
    if held.is_empty() {
        return put_piece(written, piece);
    }
    let (front, rest) = piece.split_at(continuing(piece));
    let joint = joined(held, front);
    if rest.is_empty() && may_go_on(joint.bytes.as_slice()) {
        return Ok(joint);
    }
    put_bytes(written, joint.bytes.as_slice())?;
    let left = put_piece(written, rest)?;
    Ok(left)
}

// Writes the text of a piece but for what may begin a character at its end, and gives that.
fn put_piece(written: &mut Written, piece: &[u8]) -> Result<Held, AllocError>
    ensures held { IfOk result (λ left. MayGoOn left.bytes.items) }
    ensures text { IfOk result (λ left. (bytes : List ℕ) → written_with written.new (chars_of (left.bytes.items ++ bytes))
        ≡ written_with written.old (chars_of (piece.now ++ bytes))) }
    ensures begins { BeginsWith (string_bytes written.old.text) (string_bytes written.new.text) }
{
    let (front, last) = piece.split_at(last_start(piece));
    put_bytes(written, front)?;
    if may_go_on(last) {
        return Ok(joined(last, &[]));
    }
    put_bytes(written, last)?;
    Ok(joined(&[], &[]))
}

// The bytes in front, and those behind them.
fn joined(front: &[u8], behind: &[u8]) -> Held
    requires few { length front.now ≤ 3 }
    requires more { length behind.now ≤ 3 }
    ensures { result.bytes.items ≡ front.now ++ behind.now }
{
    let mut bytes = ArrayVec::new();
    let _ = bytes.try_extend_from_slice(front);
    let _ = bytes.try_extend_from_slice(behind);
    Held { bytes }
}

// How many bytes at the front only continue a character; no more than three are looked at.
fn continuing(bytes: &[u8]) -> usize
    ensures few { result ≤ 3 }
    ensures within { result ≤ length bytes.now }
    ensures all { (i : ℕ) → i < result → continues (slice_index bytes.now i) ≡ true }
    ensures clean { result < 3 → result < length bytes.now → continues (slice_index bytes.now result) ≡ false }
{
    let mut count = 0usize;
    'counting: while count < 3 && count < bytes.len() && continues(bytes[count]) {
        count += 1;
    }
    count
}

// Where the last byte stands that doesn't only continue a character, or 0.
fn last_start(bytes: &[u8]) -> usize
    ensures within { result ≤ length bytes.now }
    ensures tail { (i : ℕ) → result < i → i < length bytes.now → continues (slice_index bytes.now i) ≡ true }
    ensures clean { 0 < result → (result < length bytes.now) × (continues (slice_index bytes.now result) ≡ false) }
{
    let mut at = bytes.len();
    'searching: while at > 0 {
        at -= 1;
        if !continues(bytes[at]) {
            return at;
        }
    }
    0
}

// Whether the byte may continue a character and begins none.
fn continues(byte: u8) -> bool
    ensures { result ≡ continues byte }
{
    0x7F < byte && byte < 0xC0
}

// Whether the bytes, of which only the first may begin a character, are at most three and have none.
fn may_go_on(bytes: &[u8]) -> bool
    requires { IsTail bytes.now }
    ensures yes { result ≡ true → MayGoOn bytes.now }
    ensures no { result ≡ false → (4 ≤ length bytes.now) ⊎ (¬ (chars_of bytes.now ≡ [])) }
{
    bytes.len() <= 3 && !has_character(bytes)
}

fn has_character(bytes: &[u8]) -> bool
    ensures yes { result ≡ true → ¬ (chars_of bytes.now ≡ []) }
    ensures no { result ≡ false → chars_of bytes.now ≡ [] }
{
    for chunk in bytes.utf8_chunks() {
        if !chunk.valid().is_empty() {
            return true;
        }
    }
    false
}

// Writes the text of bytes that end in no cut character.
fn put_bytes(written: &mut Written, bytes: &[u8]) -> Result<(), AllocError>
    ensures text { OnOk result ((cs : List ℕ) → written_with written.new cs ≡ written_with written.old (chars_of bytes.now ++ cs)) }
    ensures begins { BeginsWith (string_bytes written.old.text) (string_bytes written.new.text) }
{
    if let Ok(text) = simdutf8::basic::from_utf8(bytes) {
        put_text(written, text)?;
        return Ok(());
    }
    for chunk in bytes.utf8_chunks() {
        put_text(written, chunk.valid())?;
    }
    Ok(())
}

// Writes the text of characters.
fn put_text(written: &mut Written, text: &str) -> Result<(), AllocError>
    ensures text { OnOk result ((cs : List ℕ) → written_with written.new cs ≡ written_with written.old (chars text.now ++ cs)) }
    ensures begins { BeginsWith (string_bytes written.old.text) (string_bytes written.new.text) }
{
    if text.is_empty() {
        return Ok(());
    }
    let rest = behind_cr(written.after_cr, text);
    clean_onto(&mut written.text, rest)?;
    written.after_cr = ends_in_cr(text);
    Ok(())
}

// The text without its first character, where that is an LF behind a CR.
fn behind_cr(after_cr: bool, text: &str) -> &str
    ensures { chars result.now ≡ (if after_cr && slice_index (chars text.now) 0 == 0xA then drop 1 (chars text.now) else chars text.now) }
{
    if after_cr && text.starts_with('\n') {
        return &text[1..];
    }
    text
}

fn ends_in_cr(text: &str) -> bool
    requires { 0 < length text.now }
    ensures { result ≡ ends_in_cr (chars text.now) }
{
    text.as_bytes()[text.len() - 1] == b'\r'
}
