//! Paths without dot segments.
ghost use Rattle.std.specs.Prelude.{◌≡◌, ◌++◌, ◌∷◌, [], false, if◌then◌else◌, IfOk, OnOk, drop, string_bytes};
ghost use Rattle.pur_resolve.specs.Dots.{pieces, path_of, is_dotted, settled, without_dots};
ghost use Rattle.pur_resolve.specs.Resolving.{merged, without_last};
ghost use Rattle.pur_resolve.specs.Private.Segments.{texts, put_on};

use std::alloc::{AllocError, Global};

/// The path without dot segments; the path is empty or begins with a slash.
///
/// The error is want of memory.
#[tactic(auto, unfolding(crate::specs::Dots::without_dots))]
pub(crate) fn without_dots(alloc: Global, path: &str) -> Result<String, AllocError>
    ensures { IfOk result (λ out. string_bytes out ≡ without_dots path.now) }
{
    let pieces = pieces(alloc, path)?;
    let kept = settled(alloc, behind_first(pieces.as_slice()))?;
    let out = path_of(alloc, kept.as_slice())?;
    Ok(out)
}

/// The base's path without its last segment, and the path behind it.
///
/// The error is want of memory.
pub(crate) fn merged(alloc: Global, base: &str, path: &str) -> Result<String, AllocError>
    ensures { IfOk result (λ out. string_bytes out ≡ merged base.now path.now) }
{
    let pieces = pieces(alloc, base)?;
    let mut out = path_of(alloc, before_last(behind_first(pieces.as_slice())))?;
    out.push_str("/")?;
    out.push_str(path)?;
    Ok(out)
}

/// What stands between the slashes of a text.
fn pieces(alloc: Global, text: &str) -> Result<Vec<&str>, AllocError>
    ensures { IfOk result (λ all. texts all.items ≡ pieces text.now) }
{
    text.split('/').collect(alloc)
}

fn behind_first<'a, 'b>(pieces: &'b [&'a str]) -> &'b [&'a str]
    ensures { texts result.now ≡ drop 1 (texts pieces.now) }
{
    match pieces {
        [_, rest @ ..] => rest,
        [] => pieces,
    }
}

fn before_last<'a, 'b>(pieces: &'b [&'a str]) -> &'b [&'a str]
    ensures { texts result.now ≡ without_last (texts pieces.now) }
{
    let (front, _) = pieces.split_at(pieces.len().saturating_sub(1));
    front
}

/// The segments without the dot segments among them, in one walk from left to right.
fn settled<'a>(alloc: Global, segments: &[&'a str]) -> Result<Vec<&'a str>, AllocError>
    ensures { IfOk result (λ kept. texts kept.items ≡ (settled false (texts segments.now)).stays) }
{
    let mut kept = Vec::new(alloc);
    let mut dotted = false;
    for segment in segments {
        put(&mut kept, *segment)?;
        dotted = is_dotted(*segment);
    }
    close(&mut kept, dotted)?;
    Ok(kept)
}

/// A dot segment at the end leaves its slash.
fn close<'a>(kept: &mut Vec<&'a str>, dotted: bool) -> Result<(), AllocError>
    ensures { OnOk result (texts kept.new.items ≡ texts kept.old.items ++ (if dotted then [] ∷ [] else [])) }
{
    if dotted {
        kept.push("")?;
    }
    Ok(())
}

/// Reads one more segment: `..` takes away the last one that stays, if there is one.
#[tactic(auto, unfolding(crate::specs::Private::Segments::put_on))]
fn put<'a>(kept: &mut Vec<&'a str>, segment: &'a str) -> Result<(), AllocError>
    ensures { OnOk result (texts kept.new.items ≡ put_on (texts kept.old.items) segment.now) }
{
    if segment == "." {
        return Ok(());
    }
    if segment == ".." {
        kept.pop();
    } else {
        kept.push(segment)?;
    }
    Ok(())
}

fn is_dotted(segment: &str) -> bool
    ensures { result ≡ is_dotted segment.now }
{
    segment == "." || segment == ".."
}

/// The path of segments: each with a slash in front.
#[tactic(auto, unfolding(crate::specs::Dots::path_of))]
fn path_of(alloc: Global, segments: &[&str]) -> Result<String, AllocError>
    ensures { IfOk result (λ path. string_bytes path ≡ path_of (texts segments.now)) }
{
    let mut path = String::new(alloc);
    for segment in segments {
        path.push_str("/")?;
        path.push_str(*segment)?;
    }
    Ok(path)
}
