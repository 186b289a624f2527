// The self-check: a sample is made and filtered under the defaults, and the numbers of both are told.
ghost use Rattle.std.specs.Prelude.{◌≡◌, ◌+◌, ℕ, length, sum, string_bytes, IfOk};
ghost use Rattle.pur_cli.specs.Answers.{sampled};
ghost use Rattle.pur_cli.specs.Private.Answering.{Gives};
ghost use Rattle.pur_cli.specs.Samples.{line_with};

use crate::answer::Answer;
use crate::purifying::purification;
use pur_commands::{Status, sample};
use pur_settings::Settings;
use pur_text::clean;
use std::alloc::{AllocError, Global};

// Measures a sample of so many pieces: the text is its line. The error is want of memory.
pub fn measure_sample(alloc: Global, pieces: u32) -> Result<Answer, AllocError>
    ensures { IfOk result (λ answer. Gives (sampled pieces) answer.status answer.text.items) }
{
    let text = sample(alloc, pieces)?;
    let settings = Settings::defaults();
    let cleaned = clean(alloc, text.as_slice())?;
    let output = purification(alloc, &settings, cleaned)?;
    let line = line_of(alloc, pieces, text.as_slice(), output.as_slice())?;
    Ok(Answer {
        status: Status::Done,
        text: line.into_bytes(),
    })
}

// The line of a sample of so many pieces, of its text and of what became of it.
fn line_of(alloc: Global, pieces: u32, text: &[u8], output: &[u8]) -> Result<String, AllocError>
    ensures { IfOk result (λ line. string_bytes line ≡ line_with pieces (length text.now) (length output.now) (sum output.now)) }
{
    let total = sum_of(output);
    format!(in alloc;
        "sample {pieces} in {} out {} sum {total}\n",
        text.len(),
        output.len()
    )
}

// The sum of the bytes, in a type that holds it however long the text is.
fn sum_of(text: &[u8]) -> u128
    ensures { result ≡ sum text.now }
{
    let mut total = 0;
    for byte in text {
        total += u128::from(*byte);
    }
    total
}
