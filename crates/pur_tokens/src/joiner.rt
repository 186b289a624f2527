//! Texts that are neighbours are one.

ghost use Rattle.std.specs.Prelude.{◌≡◌, ◌++◌, [], ◌∷◌, List, None, IfOk, OnErr};
ghost use Rattle.std.specs.Option.{option_map};
ghost use Rattle.pur_tokens.specs.Joining.{join_token, held_before, token_given};
ghost use Rattle.pur_tokens.specs.Tokens.{PlainToken};

use std::alloc::AllocError;
use std::marker::Model;

/// A token of a kind in which texts that are neighbours are to be one.
pub trait Joins: Drop {
    ghost use Rattle.pur_tokens.specs.Tokens.{PlainToken};

    // What the token says.
    ghost says: { Self → PlainToken };

    /// Takes the next token in, where both are texts; otherwise gives it back.
    ///
    /// The error is want of memory, and the token is then as it was.
    fn join(&mut self, next: Self) -> Result<Option<Self>, AllocError>
        ensures ok { IfOk result (λ left. join_token (says self.old) (says next ∷ []) ≡ says self.new ∷ token_given (option_map says left)) }
        ensures err { OnErr result (says self.new ≡ says self.old) };
}

/// Joins texts that are neighbours, in a row of tokens that come one at a time.
///
/// It holds the last token, since a text joins one that comes behind it. Contracts see what that token says.
#[derive(Drop)]
pub struct Joiner<T: Joins> {
    held: Option<T>,
}

impl<T: Joins> Model for Joiner<T> {
    ghost use Rattle.std.specs.Prelude.{Option};
    ghost use Rattle.std.specs.Option.{option_map};
    ghost use Rattle.pur_tokens.specs.Tokens.{PlainToken};

    ghost Value = { Option PlainToken };

    ghost view = { λ joiner. option_map T.says joiner.held };
}

impl<T: Joins> Joiner<T> {
    /// A joiner before all tokens. It takes no memory.
    pub fn new() -> Joiner<T>
        ensures { result ≡ None }
    {
        Joiner { held: None }
    }

    /// Takes the next token, and gives the next of the joined ones, if that is known.
    ///
    /// The error is want of memory, and the joiner is then as it was.
    pub fn put(&mut self, token: T) -> Result<Option<T>, AllocError>
        ensures given { IfOk result (λ given. (more : List PlainToken) →
            held_before self.old (join_token (T.says token) more) ≡ token_given (option_map T.says given) ++ held_before self.new more) }
        ensures err { OnErr result (self.new ≡ self.old) }
    {
        if let Some(held) = &mut self.held {
            return match held.join(token)? {
                Some(other) => Ok(self.held.replace(other)),
                None => Ok(None),
            };
        }
        Ok(self.held.replace(token))
    }

    /// Gives the token that is held, and holds none.
    pub fn take(&mut self) -> Option<T>
        ensures given { option_map T.says result ≡ self.old }
        ensures none { self.new ≡ None }
    {
        self.held.take()
    }
}
