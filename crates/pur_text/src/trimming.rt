//! White space at the ends of a text.
ghost use Rattle.std.specs.Prelude.{◌≡◌};
ghost use Rattle.std.specs.List.{prefix_len, suffix_len};
ghost use Rattle.std.specs.Str.{chars};
ghost use Rattle.pur_text.specs.Characters.{is_space};
ghost use Rattle.pur_text.specs.Trimming.{without_leading_space, without_trailing_space, trimmed};

/// The text without the white space at both of its ends, as `is_space` tells white space: spaces, tabs and line feeds.
/// White space between other characters stays. It takes no memory.
#[tactic(auto, unfolding(crate::specs::Trimming::trimmed))]
pub fn trim(text: &str) -> &str
    ensures { chars result.now ≡ trimmed (chars text.now) }
{
    trim_end(trim_start(text))
}

fn trim_start(text: &str) -> &str
    ensures { chars result.now ≡ without_leading_space (chars text.now) }
{
    let (_, rest) = text.split_at(leading_space(text.as_bytes()));
    rest
}

fn trim_end(text: &str) -> &str
    ensures { chars result.now ≡ without_trailing_space (chars text.now) }
{
    let (kept, _) = text.split_at(text.len() - trailing_space(text.as_bytes()));
    kept
}

/// How many bytes of white space a text begins with.
fn leading_space(text: &[u8]) -> usize
    ensures { result ≡ prefix_len is_space text.now }
{
    text.iter().take_while(|&&byte| is_space_byte(byte)).count()
}

/// How many bytes of white space a text ends with.
fn trailing_space(text: &[u8]) -> usize
    ensures { result ≡ suffix_len is_space text.now }
{
    text.iter()
        .rev()
        .take_while(|&&byte| is_space_byte(byte))
        .count()
}

fn is_space_byte(byte: u8) -> bool
    ensures { result ≡ is_space byte }
{
    matches!(byte, b' ' | b'\t' | b'\n')
}
