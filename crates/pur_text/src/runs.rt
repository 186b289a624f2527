//! The bytes at which a run of allowed characters may end.
ghost use Rattle.std.specs.Prelude.{◌≡◌};
ghost use Rattle.std.specs.List.{position};
ghost use Rattle.pur_text.specs.Private.Runs.{needs_care};

// `!` stands for each byte that begins a CR or a character that isn't allowed, or may begin one: the controls but TAB and
// LF, U+007F, 0xC2 (it begins U+0080 to U+00BF) and 0xEF (it begins U+F000 to U+FFFF).
static CARE: [u8; 256] = *b"\
    !!!!!!!!!..!!!!!!!!!!!!!!!!!!!!!\
    ................................\
    ................................\
    ...............................!\
    ................................\
    ................................\
    ..!.............................\
    ...............!................";

/// The first byte of the text with which a run of allowed characters may end.
pub(crate) fn run_end(text: &[u8]) -> Option<usize>
    ensures { result ≡ position needs_care text.now }
{
    text.iter().position(needs_care)
}

fn needs_care(byte: &u8) -> bool
    ensures { result ≡ needs_care byte.now }
{
    CARE[*byte as usize] == b'!'
}
