//! Which nodes bytes spell.
ghost use Rattle.std.specs.Prelude.{ℕ, ◌≡◌, ◌≤◌, ◌<◌, ◌==◌, ◌∷◌, ◌++◌, List, [], length, true, false, not, None, IfOk, IfSome, IfNone, OnOk};
ghost use Rattle.std.specs.List.{list_any};
ghost use Rattle.std.specs.Str.{chars, IsUtf8};
ghost use Rattle.pur_names.specs.Elements.{element_name};
ghost use Rattle.pur_modules.specs.Contents.{is_empty_element};
ghost use Rattle.pur_tree.specs.Building.{opened_of};
ghost use Rattle.pur_tree.specs.Forests.{IsForest};
ghost use Rattle.pur_tree.specs.Image.{nodes_of};
ghost use Rattle.pur_tree.specs.Nodes.{Nodes, plain_elem, level_of};
ghost use Rattle.pur_tree.specs.Places.{level_limit, level_within, LevelFits};
ghost use Rattle.pur_tree.specs.Spelling.{AreSpelled, Spells, are_spellable};
ghost use Rattle.pur_reader.specs.Private.Tags.{tag_text};
ghost use Rattle.pur_reader.specs.Private.Reading.{Left, IsReady, HasRead, is_tag_front};

use crate::cuts::{behind, cut_at};
use crate::escapes::read_escaped;
use crate::tags::{Tag, element_named, read_tag};
use pur_attrlist::AttrList;
use pur_modules::is_declared_empty;
use pur_names::Element;
use pur_tree::{Builder, Forest, is_table, level_fits, level_rise};
use std::alloc::{AllocError, Global};

// An open element and its level.
#[derive(Drop)]
struct Open {
    name: Element,
    level: usize,
}

/// The nodes that the bytes spell; None exactly where they spell no nodes within the level limit.
///
/// Nothing is repaired, and reading ends at the first byte that can't belong to a spelling. Takes one pass over the bytes.
/// The error is want of memory.
///
/// Source: XML 1.0, sections 2.4 and 3.1, in the one spelling that a list of nodes has.
pub fn read_fragment(alloc: Global, bytes: &[u8]) -> Result<Option<Forest>, AllocError>
    ensures spelled { IfOk result (λ found. IfSome found (λ forest. AreSpelled (nodes_of forest) bytes.now)) }
    ensures forest { IfOk result (λ found. IfSome found (λ forest. IsForest (nodes_of forest))) }
    ensures none { IfOk result (λ found. found ≡ None → (nodes : Nodes) → level_of nodes ≤ level_limit → AreSpelled nodes bytes.now → ⊥) }
{
    match simdutf8::basic::from_utf8(bytes) {
        Ok(text) => read_nodes(alloc, text),
        Err(_) => Ok(None),
    }
}

// The nodes that a text spells.
fn read_nodes(alloc: Global, text: &str) -> Result<Option<Forest>, AllocError>
    ensures spelled { IfOk result (λ found. IfSome found (λ forest. Spells (nodes_of forest) (chars text.now))) }
    ensures forest { IfOk result (λ found. IfSome found (λ forest. IsForest (nodes_of forest))) }
    ensures none { IfOk result (λ found. IfNone found (Left [] (chars text.now) → ⊥)) }
{
    let mut builder = Builder::new(alloc);
    let mut opened = Vec::new(alloc);
    let mut rest = text;
    'reading: while let Some((run, markup)) = cut_at(rest, '<') {
        let is_text = put_text(alloc, &mut builder, &opened, run)?;
        if !is_text {
            return Ok(None);
        }
        let put = put_markup(alloc, &mut builder, &mut opened, markup)?;
        match put {
            Some(behind) => rest = behind,
            None => return Ok(None),
        }
    }
    let is_text = put_text(alloc, &mut builder, &opened, rest)?;
    if !is_text {
        return Ok(None);
    }
    if !opened.is_empty() {
        return Ok(None);
    }
    let forest = builder.finish()?;
    Ok(Some(forest))
}

// Puts the text that is spelled so, or none where nothing stands here; whether there is one.
fn put_text(
    alloc: Global,
    builder: &mut Builder,
    _opened: &[Open],
    run: &str,
) -> Result<bool, AllocError>
    requires ready { IsReady _opened.now builder.old }
    requires run { list_any (λ c. c == 0x3C) (chars run.now) ≡ false }
    ensures ready { OnOk result (IsReady _opened.now builder.new) }
    ensures read { IfOk result (λ is. is ≡ true → (behind : List ℕ) → is_tag_front behind ≡ true → HasRead builder.old builder.new (chars run.now ++ behind) behind) }
    ensures none { IfOk result (λ is. is ≡ false → (behind : List ℕ) → is_tag_front behind ≡ true → Left (opened_of builder.old) (chars run.now ++ behind) → ⊥) }
{
    if run.is_empty() {
        return Ok(true);
    }
    let read = read_escaped(alloc, run, false)?;
    match read {
        Some(text) => {
            builder.move_text(text)?;
            Ok(true)
        }
        None => Ok(false),
    }
}

// Puts the tag that a `<` begins before this text, and gives the text behind it.
fn put_markup<'a>(
    alloc: Global,
    builder: &mut Builder,
    opened: &mut Vec<Open>,
    text: &'a str,
) -> Result<Option<&'a str>, AllocError>
    requires { IsReady opened.old.items builder.old }
    ensures text { IfOk result (λ found. IfSome found (λ rest. IsUtf8 rest.now)) }
    ensures shorter { IfOk result (λ found. IfSome found (λ rest. length rest.now < length text.now)) }
    ensures ready { IfOk result (λ found. IfSome found (λ rest. IsReady opened.new.items builder.new)) }
    ensures read { IfOk result (λ found. IfSome found (λ rest. HasRead builder.old builder.new (0x3C ∷ chars text.now) (chars rest.now))) }
    ensures none { IfOk result (λ found. IfNone found (Left (opened_of builder.old) (0x3C ∷ chars text.now) → ⊥)) }
{
    match cut_at(text, '>') {
        Some((inner, rest)) => {
            let is_tag = put_tag(alloc, builder, opened, inner)?;
            if is_tag { Ok(Some(rest)) } else { Ok(None) }
        }
        None => Ok(None),
    }
}

// Puts the tag with this between its `<` and its `>`; whether there is one, and it fits here.
fn put_tag(
    alloc: Global,
    builder: &mut Builder,
    opened: &mut Vec<Open>,
    inner: &str,
) -> Result<bool, AllocError>
    requires ready { IsReady opened.old.items builder.old }
    requires inner { list_any (λ c. c == 0x3E) (chars inner.now) ≡ false }
    ensures ready { IfOk result (λ is. is ≡ true → IsReady opened.new.items builder.new) }
    ensures read { IfOk result (λ is. is ≡ true → (rest : List ℕ) → HasRead builder.old builder.new (0x3C ∷ (chars inner.now ++ 0x3E ∷ rest)) rest) }
    ensures none { IfOk result (λ is. is ≡ false → (rest : List ℕ) → Left (opened_of builder.old) (0x3C ∷ (chars inner.now ++ 0x3E ∷ rest)) → ⊥) }
{
    match behind(inner, "/") {
        Some(name) => end_element(builder, opened, name),
        None => {
            let read = read_tag(alloc, inner)?;
            match read {
                Some(tag) => begin_element(builder, opened, tag),
                None => Ok(false),
            }
        }
    }
}

// Ends the innermost open element, if it has this name; whether it has.
fn end_element(
    builder: &mut Builder,
    opened: &mut Vec<Open>,
    name: &str,
) -> Result<bool, AllocError>
    requires ready { IsReady opened.old.items builder.old }
    requires name { list_any (λ c. c == 0x3E) (chars name.now) ≡ false }
    ensures ready { IfOk result (λ is. is ≡ true → IsReady opened.new.items builder.new) }
    ensures read { IfOk result (λ is. is ≡ true → (rest : List ℕ) → HasRead builder.old builder.new (0x3C ∷ 0x2F ∷ (chars name.now ++ 0x3E ∷ rest)) rest) }
    ensures none { IfOk result (λ is. is ≡ false → (rest : List ℕ) → Left (opened_of builder.old) (0x3C ∷ 0x2F ∷ (chars name.now ++ 0x3E ∷ rest)) → ⊥) }
{
    match element_named(name) {
        Some(element) => match opened.pop() {
            Some(open) => {
                if !open.name.is_same(element) {
                    return Ok(false);
                }
                builder.leave()?;
                Ok(true)
            }
            None => Ok(false),
        },
        None => Ok(false),
    }
}

// Puts the element that a tag begins, if it fits here; whether it does.
fn begin_element(
    builder: &mut Builder,
    opened: &mut Vec<Open>,
    tag: Tag,
) -> Result<bool, AllocError>
    requires ready { IsReady opened.old.items builder.old }
    requires good { are_spellable tag.attrs ≡ true }
    ensures ready { IfOk result (λ is. is ≡ true → IsReady opened.new.items builder.new) }
    ensures read { IfOk result (λ is. is ≡ true → (rest : List ℕ) → HasRead builder.old builder.new (0x3C ∷ (tag_text (plain_elem tag.name tag.attrs) tag.is_empty ++ 0x3E ∷ rest)) rest) }
    ensures none { IfOk result (λ is. is ≡ false → (rest : List ℕ) → Left (opened_of builder.old) (0x3C ∷ (tag_text (plain_elem tag.name tag.attrs) tag.is_empty ++ 0x3E ∷ rest)) → ⊥) }
{
    let Tag {
        name,
        attrs,
        is_empty,
    } = tag;
    let level = level_inside(builder, opened, name);
    if !level_fits(level) {
        return Ok(false);
    }
    if is_empty {
        put_empty(builder, opened, name, attrs)
    } else {
        enter(builder, opened, name, attrs, level)
    }
}

// The level that an element would have inside of the open ones.
fn level_inside(_builder: &Builder, opened: &[Open], name: Element) -> usize
    requires { IsReady opened.now _builder.now }
    ensures { result ≡ level_within (opened_of _builder.now) name }
{
    match opened.split_last() {
        Some((last, _)) => last.level + level_rise(is_table(last.name), name),
        None => level_rise(false, name),
    }
}

// Puts an element without content, if it is declared EMPTY; whether it is.
fn put_empty(
    builder: &mut Builder,
    _opened: &[Open],
    name: Element,
    attrs: AttrList,
) -> Result<bool, AllocError>
    requires ready { IsReady _opened.now builder.old }
    requires good { are_spellable attrs ≡ true }
    requires low { LevelFits (opened_of builder.old) name }
    ensures ready { IfOk result (λ is. is ≡ true → IsReady _opened.now builder.new) }
    ensures read { IfOk result (λ is. is ≡ true → (rest : List ℕ) → HasRead builder.old builder.new (0x3C ∷ (tag_text (plain_elem name attrs) true ++ 0x3E ∷ rest)) rest) }
    ensures none { IfOk result (λ is. is ≡ false → is_empty_element name ≡ false) }
{
    if !is_declared_empty(name) {
        return Ok(false);
    }
    builder.enter(name, attrs)?;
    builder.leave()?;
    Ok(true)
}

// Opens an element that isn't declared EMPTY; whether it isn't.
fn enter(
    builder: &mut Builder,
    opened: &mut Vec<Open>,
    name: Element,
    attrs: AttrList,
    level: usize,
) -> Result<bool, AllocError>
    requires ready { IsReady opened.old.items builder.old }
    requires good { are_spellable attrs ≡ true }
    requires low { LevelFits (opened_of builder.old) name }
    requires level { level ≡ level_within (opened_of builder.old) name }
    ensures ready { IfOk result (λ is. is ≡ true → IsReady opened.new.items builder.new) }
    ensures read { IfOk result (λ is. is ≡ true → (rest : List ℕ) → HasRead builder.old builder.new (0x3C ∷ (tag_text (plain_elem name attrs) false ++ 0x3E ∷ rest)) rest) }
    ensures none { IfOk result (λ is. is ≡ false → is_empty_element name ≡ true) }
{
    if is_declared_empty(name) {
        return Ok(false);
    }
    builder.enter(name, attrs)?;
    opened.push(Open { name, level })?;
    Ok(true)
}
