// A text to try the program with: it is made here, so it is the same on every machine.
ghost use Rattle.std.specs.Prelude.{◌≡◌, ◌++◌, string_bytes, IfOk, OnOk};
ghost use Rattle.pur_commands.specs.Samples.{piece_of, sample_of};

use std::alloc::{AllocError, Global};

/// The sample of so many pieces: the pieces 0, 1, 2 and on in a row, each with a line feed. Five kinds of pieces take turns, and
/// each has its number in it: a paragraph that isn't closed, a list, a table, a link, and a quotation. No piece is longer than
/// 64 bytes, so a sample of at most 10,000 pieces is within the limit of an input. The error is want of memory.
pub fn sample(alloc: Global, pieces: u32) -> Result<Vec<u8>, AllocError>
    ensures { IfOk result (λ text. text.items ≡ sample_of pieces) }
{
    let mut text = String::new(alloc);
    for number in 0..pieces {
        push_piece(&mut text, number)?;
    }
    Ok(text.into_bytes())
}

// Puts the piece of this number behind a text.
fn push_piece(text: &mut String, number: u32) -> Result<(), AllocError>
    ensures { OnOk result (string_bytes text.new ≡ string_bytes text.old ++ piece_of number) }
{
    match number % 5 {
        0 => writeln!(text, "<p>Item {number} &copy;"),
        1 => writeln!(text, "<ul>a<li><b>{number}<i>b</b>c</i></ul>"),
        2 => writeln!(
            text,
            "<table><tr><td>{number}<td>x<caption>{number}</table>"
        ),
        3 => writeln!(
            text,
            "<a href=\"HTTP://Example.COM/{number}?q=a b\">{number}</a>"
        ),
        _ => writeln!(
            text,
            "<blockquote><font color=red>{number}</font><br></blockquote>"
        ),
    }
}
