//! Texts cut into runs of characters of a sort.

ghost use Rattle.std.specs.Prelude.{◌≡◌, ◌++◌, ◌<◌, ◌≤◌, [], true, length, IfSome, IfNone, IsTrue};
ghost use Rattle.std.specs.List.{list_all, prefix_len};
ghost use Rattle.std.specs.Str.{chars, IsUtf8};
ghost use Rattle.pur_inject.specs.Private.Cutting.{is_of, is_over, says};

/// The characters of which runs are made.
#[derive(Clone, Copy)]
pub(crate) enum Sort {
    /// Those of an address.
    Address,
    /// Line feeds.
    LineFeed,
}

impl Sort {
    fn has(self, byte: u8) -> bool
        ensures { result ≡ is_of self byte }
    {
        match self {
            Sort::Address => is_address_byte(byte),
            Sort::LineFeed => byte == b'\n',
        }
    }

    fn says(self, is: bool, byte: u8) -> bool
        ensures { result ≡ says (is_of self) is byte }
    {
        if is { self.has(byte) } else { !self.has(byte) }
    }
}

fn is_address_byte(byte: u8) -> bool
    ensures { result ≡ is_of Sort.Address byte }
{
    byte.is_ascii_alphanumeric()
        || matches!(
            byte,
            b'-' | b'.'
                | b'_'
                | b'~'
                | b':'
                | b'/'
                | b'?'
                | b'#'
                | b'@'
                | b'!'
                | b'$'
                | b'&'
                | b'*'
                | b'+'
                | b'='
                | b'%'
        )
}

/// The run at the front of a text, whether its characters are of the sort, and what stands behind it.
pub(crate) fn cut_run(text: &str, sort: Sort) -> Option<(&str, bool, &str)>
    ensures text { IfSome result (λ cut. IsUtf8 cut.0.now × IsUtf8 cut.2.now) }
    ensures whole { IfSome result (λ cut. chars text.now ≡ chars cut.0.now ++ chars cut.2.now) }
    ensures said { IfSome result (λ cut. IsTrue (list_all (says (is_of sort) cut.1) (chars cut.0.now))) }
    ensures over { IfSome result (λ cut. IsTrue (is_over (is_of sort) cut.1 (chars cut.2.now))) }
    ensures ascii { IfSome result (λ cut. cut.1 ≡ true → chars cut.0.now ≡ cut.0.now) }
    ensures shorter { IfSome result (λ cut. length cut.2.now < length text.now) }
    ensures none { IfNone result (chars text.now ≡ []) }
{
    let bytes = text.as_bytes();
    if bytes.is_empty() {
        return None;
    }
    let is = sort.has(bytes[0]);
    let (run, behind) = text.split_at(run_len(bytes, sort, is));
    Some((run, is, behind))
}

// How many characters of a text, from its front, are of the sort, or are not.
fn run_len(text: &[u8], sort: Sort, is: bool) -> usize
    ensures len { result ≡ prefix_len (says (is_of sort) is) text.now }
    ensures bound { result ≤ length text.now }
{
    text.iter().take_while(|&&byte| sort.says(is, byte)).count()
}
