//! What the filter reads an input as.
ghost use Rattle.std.specs.Prelude.{◌≡◌, map, IfOk};
ghost use Rattle.pur_lexer.specs.Lexing.{tokens_of};
ghost use Rattle.pur_text.specs.Cleaning.{cleaned};
ghost use Rattle.pur_tokens.specs.Tokens.{plain_token};

use pur_lexer::lex;
use pur_text::clean_if_needed;
use pur_tokens::Token;
use std::alloc::{AllocError, Global};

/// The tokens of an input of any bytes: those of its cleaned text, of which nothing is removed yet.
///
/// The error is want of memory.
pub fn tokens(alloc: Global, bytes: &[u8]) -> Result<Vec<Token>, AllocError>
    ensures { IfOk result (λ tokens. map plain_token tokens.items ≡ tokens_of (cleaned bytes.now)) }
{
    let text = clean_if_needed(alloc, bytes)?;
    let tokens = lex(alloc, text.as_str())?;
    Ok(tokens)
}
