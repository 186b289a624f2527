// Writing a text whole, and the line that says why a run ended.
ghost use Rattle.std.specs.Prelude.{◌≡◌, ℕ, ◌⊎◌, length, take, OnOk, OnErr};
ghost use Rattle.pur_io.specs.Faults.{Rose};
ghost use Rattle.pur_io.specs.Taken.{taken_more};
ghost use Rattle.pur_commands.specs.Writing.{TookFront};

use pur_io::{Failed, Sink};

/// Writes all of the text, and offers all that is left in each write. An empty text is not written. Where a write fails, the
/// stream took a front of the text and not all of it. No memory is taken.
pub fn write_all<O: Sink>(out: &mut O, text: &[u8]) -> Result<(), Failed>
    ensures ok { OnOk result (O.taken out.new ≡ taken_more (O.taken out.old) text.now) }
    ensures err { OnErr result (TookFront (O.taken out.old) (O.taken out.new) text.now) }
    ensures failed { OnErr result (Rose (O.faults out.old) (O.faults out.new)) }
    ensures kept { OnOk result (O.faults out.new ≡ O.faults out.old) }
{
    let mut at = 0;
    'writing: while at < text.len() {
        at += out.write(&text[at..])?;
    }
    Ok(())
}

/// Writes the line as far as the stream takes it: a fault of the stream ends the writing and is no error. No memory is taken.
pub fn complain<E: Sink>(err: &mut E, line: &[u8])
    ensures line { (k : ℕ) × (E.taken err.new ≡ taken_more (E.taken err.old) (take k line.now)) }
    ensures whole { Rose (E.faults err.old) (E.faults err.new) ⊎ (E.taken err.new ≡ taken_more (E.taken err.old) line.now) }
{
    let _ = write_all(err, line);
}
