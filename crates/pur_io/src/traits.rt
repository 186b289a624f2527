//! The two traits of the world outside and the failure that both have.

ghost use Rattle.std.specs.Prelude.{◌≡◌, ℕ, ◌<◌, ◌≤◌, List, length, take, Option, Some, option_map, string_bytes, IfOk, IfSome, OnErr};
ghost use Rattle.pur_io.specs.Faults.{HasCause};
ghost use Rattle.pur_io.specs.Taken.{taken_more};
ghost use Rattle.pur_io.specs.Texts.{Name, text_chosen, ReadsAt};

/// A call to the world outside that failed. Its cause is no part of it: the object that failed has
/// counted a fault.
#[derive(Debug, Clone, Copy, PartialEq, Eq)]
pub struct Failed;

/// Named texts, and standard input, that can be chosen and read from their start.
///
/// A shelf counts its faults. A call fails only where the count rose in that call or stands at
/// 2^64 - 1, and a call that answers Ok leaves the count as it was.
pub trait Shelf {
    // The texts by their names, where the shelf tells them: no call changes them.
    ghost texts: { Self → Option (List (Name × List ℕ)) };
    // The place in the chosen text from which the next read takes its bytes.
    ghost place: { Self → ℕ };
    // How many faults there were.
    ghost faults: { Self → ℕ };
    // The name given last to `choose`; nothing before the first choice.
    ghost chosen: { Self → Option Name };
    // The count of faults as the last `choose` began; 0 before the first choice.
    ghost mark: { Self → ℕ };

    /// Takes the text of this name, or standard input for None, from its start.
    ///
    /// The name is kept and the place is set also where the call fails. A shelf may answer Ok for a
    /// name that it lacks: the text is then the empty one.
    fn choose(&mut self, name: Option<String>) -> Result<(), Failed>
        ensures texts { texts self.new ≡ texts self.old }
        ensures chosen { chosen self.new ≡ Some (option_map string_bytes name) }
        ensures mark { mark self.new ≡ faults self.old }
        ensures place { place self.new ≡ 0 }
        ensures cause { HasCause (faults self.old) (faults self.new) result };

    /// Reads the next bytes of the text that was chosen last into the front of `into`, at most as
    /// many as it holds, and says how many they are: 0 exactly at the end of the text. Before any
    /// choice a shelf that answers Ok reads the empty text.
    fn read(&mut self, into: &mut [u8]) -> Result<usize, Failed>
        requires { 0 < length into.old }
        ensures bound { IfOk result (λ n. n ≤ length into.new) }
        ensures bytes { IfOk result (λ n. IfSome (texts self.old) (λ texts.
            ReadsAt (text_chosen texts (chosen self.old)) (place self.old) (place self.new) n into.new)) }
        ensures err { OnErr result (place self.new ≡ place self.old) }
        ensures texts { texts self.new ≡ texts self.old }
        ensures chosen { chosen self.new ≡ chosen self.old }
        ensures mark { mark self.new ≡ mark self.old }
        ensures cause { HasCause (faults self.old) (faults self.new) result };
}

/// A taker of bytes: a standard stream, or memory.
///
/// A sink counts its faults. A call fails only where the count rose in that call or stands at
/// 2^64 - 1, and a call that answers Ok leaves the count as it was.
pub trait Sink {
    // The bytes taken so far, where the sink tells them.
    ghost taken: { Self → Option (List ℕ) };
    // How many faults there were.
    ghost faults: { Self → ℕ };

    /// Takes bytes from the front of `piece`, at least one, and says how many. A call that fails took
    /// none.
    fn write(&mut self, piece: &[u8]) -> Result<usize, Failed>
        requires { 0 < length piece.now }
        ensures least { IfOk result (λ n. 1 ≤ n) }
        ensures most { IfOk result (λ n. n ≤ length piece.now) }
        ensures ok { IfOk result (λ n. taken self.new ≡ taken_more (taken self.old) (take n piece.now)) }
        ensures err { OnErr result (taken self.new ≡ taken self.old) }
        ensures cause { HasCause (faults self.old) (faults self.new) result };
}
