//! Lists as a reader writes them, and one that grows past what is searched one by one.

use crate::endings::{Failing, assert_holds, assert_none_fails};
use pur_attrlist::{AttrList, Pair, put_style};
use pur_tokens::{Tag, Token};
use std::alloc::{AllocError, Global};
use std::mem::size_of;

// Puts a pair, and tells whether its name is new.
fn put_pair(
    alloc: Global,
    list: &mut AttrList,
    name: &str,
    value: &str,
) -> Result<bool, AllocError> {
    let name = String::from_str(alloc, name)?;
    let value = String::from_str(alloc, value)?;
    list.push_if_new(name, value)
}

// Puts pairs such as `a=1 b=2`, one after another.
fn put_pairs(alloc: Global, list: &mut AttrList, text: &str) -> Result<(), AllocError> {
    for word in text.split(' ') {
        if let Some((name, value)) = word.split_once('=') {
            put_pair(alloc, list, name, value)?;
        }
    }
    Ok(())
}

// The list of such pairs.
fn list_of(alloc: Global, text: &str) -> Result<AttrList, AllocError> {
    let mut list = AttrList::new(alloc);
    put_pairs(alloc, &mut list, text)?;
    Ok(list)
}

// Writes the pairs as such a text.
fn write_pairs(text: &mut String, list: &AttrList) -> Result<(), AllocError> {
    for at in 0..list.len() {
        if at > 0 {
            text.push(' ')?;
        }
        text.push_str(list.name_at(at))?;
        text.push('=')?;
        text.push_str(list.value_at(at))?;
    }
    Ok(())
}

// The pairs as such a text.
fn text_of(alloc: Global, list: &AttrList) -> Result<String, AllocError> {
    let mut text = String::new(alloc);
    write_pairs(&mut text, list)?;
    Ok(text)
}

// Whether this is the list's text.
fn is_written(alloc: Global, list: &AttrList, text: &str) -> Result<bool, AllocError> {
    Ok(text_of(alloc, list)?.as_str() == text)
}

// A name, pairs that are put, those that are kept, and their weight.
static EQUAL_NAMES: [(&str, &str, &str, u64); 6] = [
    ("no attribute", "", "", 0u64),
    ("one", "id=x", "id=x", 3),
    ("equal names", "href=a id=x href=b", "href=a id=x", 8),
    ("names in another case", "ID=x id=y", "ID=x id=y", 6),
    ("an empty value stays", "alt= alt=t", "alt=", 3),
    ("letters of two bytes", "é=ü", "é=ü", 4),
];

// Whether a list has these pairs and this weight.
fn has_pairs(alloc: Global, list: &AttrList, kept: &str, weight: u64) -> Result<bool, AllocError> {
    let is_measured = list.weight() == weight && list.is_empty() == kept.is_empty();
    Ok(is_measured && is_written(alloc, list, kept)?)
}

// Whether these pairs of those that are put are kept, with this weight.
fn keeps(alloc: Global, pushed: &str, kept: &str, weight: u64) -> Result<bool, AllocError> {
    let list = list_of(alloc, pushed)?;
    has_pairs(alloc, &list, kept, weight)
}

fn first_other(alloc: Global) -> Failing {
    for (row, pushed, kept, weight) in &EQUAL_NAMES {
        if !keeps(alloc, pushed, kept, *weight)? {
            return Ok(Some(*row));
        }
    }
    Ok(None)
}

#[test]
fn of_equal_names_the_first_is_kept(rt: HostRuntime) {
    assert_none_fails(&rt, first_other(rt.alloc()));
}

// A name, pairs, a name in them, and the pairs once its value is set to `9` and once it is removed.
static SET_AND_REMOVED: [(&str, &str, &str, &str, &str); 5] = [
    ("in its place", "a=1 b=2 c=3", "b", "a=1 b=9 c=3", "a=1 c=3"),
    ("at the front", "a=1 b=2", "a", "a=9 b=2", "b=2"),
    ("a new name", "a=1", "b", "a=1 b=9", "a=1"),
    ("in an empty list", "", "a", "a=9", ""),
    ("a longer name", "a=1", "aa", "a=1 aa=9", "a=1"),
];

// Whether the name's value, once it is set, is there, in these pairs.
fn is_set(alloc: Global, list: &mut AttrList, name: &str, pairs: &str) -> Result<bool, AllocError> {
    list.set(name, "9")?;
    Ok(list.get(name) == Some("9") && is_written(alloc, list, pairs)?)
}

// Whether the name is removed once, and these pairs are left.
fn is_removed(
    alloc: Global,
    list: &mut AttrList,
    name: &str,
    pairs: &str,
) -> Result<bool, AllocError> {
    let is_once = list.remove(name) && !list.remove(name);
    Ok(is_once && is_written(alloc, list, pairs)?)
}

// Whether the name's value is set and then removed in these pairs, as told.
fn is_changed_by_name(
    alloc: Global,
    before: &str,
    name: &str,
    set: &str,
    removed: &str,
) -> Result<bool, AllocError> {
    let mut list = list_of(alloc, before)?;
    Ok(is_set(alloc, &mut list, name, set)? && is_removed(alloc, &mut list, name, removed)?)
}

fn first_unchanged(alloc: Global) -> Failing {
    for (row, before, name, set, removed) in &SET_AND_REMOVED {
        if !is_changed_by_name(alloc, before, name, set, removed)? {
            return Ok(Some(*row));
        }
    }
    Ok(None)
}

#[test]
fn values_are_set_and_removed_by_name(rt: HostRuntime) {
    assert_none_fails(&rt, first_unchanged(rt.alloc()));
}

// A name, pairs, a style, and the pairs once it is put in.
static STYLED: [(&str, &str, &str, &str); 3] = [
    ("no style yet", "id=x", "a:b;", "id=x style=a:b;"),
    (
        "in front of a style",
        "style=c:d id=x",
        "a:b;",
        "style=a:b;c:d id=x",
    ),
    ("the empty style", "id=x", "", "id=x"),
];

// Whether a list has these pairs once the style is put in.
fn is_styled(
    alloc: Global,
    list: &mut AttrList,
    style: &str,
    after: &str,
) -> Result<bool, AllocError> {
    put_style(list, String::from_str(alloc, style)?)?;
    is_written(alloc, list, after)
}

// The same of the list of these pairs.
fn puts_style(alloc: Global, before: &str, style: &str, after: &str) -> Result<bool, AllocError> {
    let mut list = list_of(alloc, before)?;
    is_styled(alloc, &mut list, style, after)
}

fn first_unstyled(alloc: Global) -> Failing {
    for (row, before, style, after) in &STYLED {
        if !puts_style(alloc, before, style, after)? {
            return Ok(Some(*row));
        }
    }
    Ok(None)
}

#[test]
fn a_style_is_put_in_front(rt: HostRuntime) {
    assert_none_fails(&rt, first_unstyled(rt.alloc()));
}

// Whether the pair is new, and no longer as it is put again.
fn is_put_once(
    alloc: Global,
    list: &mut AttrList,
    name: &str,
    value: &str,
) -> Result<bool, AllocError> {
    Ok(put_pair(alloc, list, name, value)? && !put_pair(alloc, list, name, "")?)
}

// The same of the pair of this number.
fn is_new_once(alloc: Global, list: &mut AttrList, at: u32) -> Result<bool, AllocError> {
    let name = format!(in alloc; "name{at}")?;
    let value = format!(in alloc; "value{at}")?;
    is_put_once(alloc, list, name.as_str(), value.as_str())
}

// Whether a hundred pairs are new and have their weight.
fn are_put(alloc: Global, list: &mut AttrList) -> Result<bool, AllocError> {
    for at in 0..100u32 {
        if !is_new_once(alloc, list, at)? {
            return Ok(false);
        }
    }
    Ok(list.len() == 100 && list.weight() == 10 * 11 + 90 * 13)
}

// Changes a list of a hundred pairs: one value is set, one pair is removed, and one is put behind.
fn change(list: &mut AttrList) -> Result<bool, AllocError> {
    list.set("name16", "sixteen")?;
    list.set("last", "")?;
    Ok(list.remove("name15") && !list.remove("name100"))
}

// Whether a list is the changed one, by its names.
fn is_changed(list: &AttrList) -> bool {
    list.len() == 100
        && list.get("name0") == Some("value0")
        && list.get("name15").is_none()
        && list.get("name16") == Some("sixteen")
        && list.get("name99") == Some("value99")
}

// Whether a list is the changed one, by its places.
fn is_in_order(list: &AttrList) -> bool {
    if list.len() != 100 {
        return false;
    }
    list.name_at(14) == "name14"
        && list.name_at(15) == "name16"
        && list.value_at(15) == "sixteen"
        && list.name_at(99) == "last"
}

// Whether a copy of the list is the changed one.
fn is_copied(list: &AttrList) -> Result<bool, AllocError> {
    let copy = list.copy()?;
    Ok(is_changed(&copy) && is_in_order(&copy))
}

// Whether a list of a hundred pairs is put and changed as told, and its copy is it.
fn keeps_order(alloc: Global, list: &mut AttrList) -> Result<bool, AllocError> {
    let is_put = are_put(alloc, list)?;
    let can_change = change(list)?;
    let is_again = is_copied(list)?;
    Ok(is_put && can_change && is_again && is_changed(list))
}

fn is_long_list_ordered(alloc: Global) -> Result<bool, AllocError> {
    let mut list = AttrList::new(alloc);
    keeps_order(alloc, &mut list)
}

#[test]
fn a_long_list_keeps_its_order(rt: HostRuntime) {
    assert_holds(&rt, is_long_list_ordered(rt.alloc()));
}

// A name, and how many pairs.
static LENGTHS: [(&str, u32); 6] = [
    ("no pair", 0u32),
    ("pairs inside", 2),
    ("pairs outside", 5),
    ("the most without an index", 16),
    ("the fewest with one", 17),
    ("many", 1000),
];

// Puts the pair of this number, with no value.
fn put_numbered(alloc: Global, list: &mut AttrList, at: u32) -> Result<bool, AllocError> {
    let name = format!(in alloc; "name{at}")?;
    list.push_if_new(name, String::new(alloc))
}

fn put_all(alloc: Global, list: &mut AttrList, count: u32) -> Result<(), AllocError> {
    for at in 0..count {
        put_numbered(alloc, list, at)?;
    }
    Ok(())
}

// Whether a list has this text, finds one more name, and has the text again once that is taken out.
fn is_used_on(alloc: Global, list: &mut AttrList, text: &str) -> Result<bool, AllocError> {
    let is_kept = is_written(alloc, list, text)?;
    list.set("last", "1")?;
    let is_again = put_pair(alloc, list, "last", "")?;
    let is_found = list.get("last") == Some("1") && list.remove("last");
    Ok(is_kept && !is_again && is_found && is_written(alloc, list, text)?)
}

// Whether the copy of a list can be used on.
fn is_copy_used_on(alloc: Global, list: &AttrList, text: &str) -> Result<bool, AllocError> {
    let mut copy = list.copy()?;
    is_used_on(alloc, &mut copy, text)
}

// Whether a list of this text can be used on without its index, and so can a copy.
fn is_used_without(alloc: Global, list: &mut AttrList, text: &str) -> Result<bool, AllocError> {
    list.drop_index();
    Ok(is_copy_used_on(alloc, list, text)? && is_used_on(alloc, list, text)?)
}

// The same, once so many pairs are put.
fn can_drop_index(alloc: Global, list: &mut AttrList, count: u32) -> Result<bool, AllocError> {
    put_all(alloc, list, count)?;
    let indexed = text_of(alloc, list)?;
    is_used_without(alloc, list, indexed.as_str())
}

fn needs_no_index(alloc: Global, count: u32) -> Result<bool, AllocError> {
    let mut list = AttrList::new(alloc);
    can_drop_index(alloc, &mut list, count)
}

fn first_with_index(alloc: Global) -> Failing {
    for (row, count) in &LENGTHS {
        if !needs_no_index(alloc, *count)? {
            return Ok(Some(*row));
        }
    }
    Ok(None)
}

#[test]
fn a_finished_list_needs_no_index(rt: HostRuntime) {
    assert_none_fails(&rt, first_with_index(rt.alloc()));
}

fn tag_of(alloc: Global, name: &str, attrs: &str) -> Result<Tag, AllocError> {
    let attrs = list_of(alloc, attrs)?;
    let name = String::from_str(alloc, name)?;
    Ok(Tag { name, attrs })
}

// Whether a token is the empty tag of an image.
fn is_image(token: &Token) -> bool {
    match token {
        Token::Empty(tag) => tag.name.as_str() == "img" && tag.attrs.get("alt") == Some("A"),
        _ => false,
    }
}

fn is_carried(alloc: Global) -> Result<bool, AllocError> {
    let tag = tag_of(alloc, "img", "src=a.png alt=A")?;
    Ok(is_image(&Token::Empty(tag)))
}

#[test]
fn tokens_carry_their_texts(rt: HostRuntime) {
    assert_holds(&rt, is_carried(rt.alloc()));
}

// Whether these are two pairs of the names `a` and `b`.
fn are_two(pairs: &[Pair]) -> bool {
    match pairs {
        [first, second] => first.name.as_str() == "a" && second.name.as_str() == "b",
        _ => false,
    }
}

fn is_given_as_pairs(alloc: Global) -> Result<bool, AllocError> {
    let pairs = list_of(alloc, "a=1 b=2")?.into_pairs()?;
    Ok(are_two(pairs.as_slice()))
}

#[test]
fn a_list_is_two_words_wide_and_gives_its_pairs(rt: HostRuntime) {
    assert_holds(&rt, Ok(size_of::<AttrList>() == 16));
    assert_holds(&rt, is_given_as_pairs(rt.alloc()));
}
