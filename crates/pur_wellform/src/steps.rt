// What each token does.
ghost use Rattle.std.specs.Prelude.{◌≡◌, ◌≤◌, ◌<◌, ◌-◌, ◌∷◌, true, false, length, take, map, string_bytes, Some, OnOk};
ghost use Rattle.std.specs.Str.{chars};
ghost use Rattle.pur_modules.specs.Contents.{is_empty_element, is_excluded_in};
ghost use Rattle.pur_settings.specs.Rules.{permits_element};
ghost use Rattle.pur_attrlist.specs.Texts.{text_of};
ghost use Rattle.pur_tokens.specs.Shown.{plain_shown};
ghost use Rattle.pur_tree.specs.Nodes.{bare, plain_elem};
ghost use Rattle.pur_wellform.specs.Search.{level_in, place_of, wrapped};
ghost use Rattle.pur_text.specs.Characters.{is_blank};
ghost use Rattle.pur_wellform.specs.Closing.{enter, enter_wrapper, put_at, start_step, put_text, text_step, end_step, without_newest, step};
ghost use Rattle.pur_wellform.specs.Standing.{may_be_closed};
ghost use Rattle.pur_wellform.specs.Invariants.{Kept};
ghost use Rattle.pur_wellform.specs.Private.Opens.{names_of, AreOpen, entry_of, found_place};
ghost use Rattle.pur_wellform.specs.Private.Machines.{IsMachine, Did, state_of, pending_tag, CanWrap};

use crate::machine::{Machine, Pending, close_inner, close_to, enter, enter_tag, write_text};
use crate::open_elements::{Open, is_excluded_at, level_inside};
use crate::reopening::{reopen, reopen_before};
use crate::search::{Found, Way, find_open, find_place, way_at};
use pur_attrlist::AttrList;
use pur_modules::Child;
use pur_names::Element;
use pur_settings::Settings;
use pur_tokens::Shown;
use pur_tree::{LEVEL_LIMIT, is_table, level_fits, level_rise};
use std::alloc::AllocError;
use std::collections::VecDeque;

// A piece, whose element is permitted and whose text isn't empty.
pub(crate) fn put_shown(
    machine: &mut Machine,
    settings: &Settings,
    shown: Shown,
) -> Result<(), AllocError>
    requires machine { IsMachine settings.now machine.old }
    requires kept { Kept settings.now (state_of machine.old) }
    requires good { may_be_closed settings.now shown ≡ true }
    ensures { OnOk result (Did settings.now machine.old machine.new (step settings.now (plain_shown shown) (state_of machine.old))) }
{
    match shown {
        Shown::Text(text) => {
            put_text(machine, settings, text)?;
            Ok(())
        }
        Shown::Start(tag) => {
            put_start(machine, settings, tag.element, tag.attrs, false)?;
            Ok(())
        }
        Shown::Empty(tag) => {
            put_start(machine, settings, tag.element, tag.attrs, true)?;
            Ok(())
        }
        Shown::End(element) => {
            put_end(machine, settings, element)?;
            Ok(())
        }
    }
}

// An element that is to be opened: it is dropped where an open one excludes it, and where it has no place.
fn put_start(
    machine: &mut Machine,
    settings: &Settings,
    name: Element,
    attrs: AttrList,
    at_once: bool,
) -> Result<(), AllocError>
    requires machine { IsMachine settings.now machine.old }
    requires kept { Kept settings.now (state_of machine.old) }
    requires permitted { permits_element settings.now name ≡ true }
    ensures { OnOk result (Did settings.now machine.old machine.new (start_step settings.now (plain_elem name attrs) at_once (state_of machine.old))) }
{
    if is_excluded_at(settings, &machine.opened, name) {
        return Ok(());
    }
    match find_place(settings, &machine.opened, name) {
        Some(found) => {
            put_at(machine, settings, found, name, attrs, at_once)?;
            Ok(())
        }
        None => Ok(()),
    }
}

// An element in its place: it is dropped where its level there would pass the limit; else all inside of the place is closed,
// a wrapper is opened where one is implied, and formatting is opened again.
fn put_at(
    machine: &mut Machine,
    settings: &Settings,
    found: Found,
    name: Element,
    attrs: AttrList,
    at_once: bool,
) -> Result<(), AllocError>
    requires machine { IsMachine settings.now machine.old }
    requires kept { Kept settings.now (state_of machine.old) }
    requires permitted { permits_element settings.now name ≡ true }
    requires free { is_excluded_in (names_of machine.old.opened.items) name ≡ false }
    requires within { found.inner ≤ length machine.old.opened.items }
    requires place { found_place (Some found) ≡ place_of settings.now name (names_of machine.old.opened.items) }
    ensures { OnOk result (Did settings.now machine.old machine.new (put_at settings.now (plain_elem name attrs) at_once (found_place (Some found)) (state_of machine.old))) }
{
    let outer = outer_of(&machine.opened, found.inner);
    if !level_fits(level_there(settings, outer, found.way, name)) {
        return Ok(());
    }
    close_inner(machine, settings, found.inner)?;
    enter_wrapper(machine, settings, found.way)?;
    reopen_before(machine, settings, name)?;
    enter_tag(machine, settings, name, attrs, at_once)?;
    Ok(())
}

// The open elements but so many of the innermost.
fn outer_of(opened: &[Open], inner: usize) -> &[Open]
    requires { inner ≤ length opened.now }
    ensures { result.now ≡ take (length opened.now - inner) opened.now }
{
    let (outer, _) = opened.split_at(opened.len() - inner);
    outer
}

// The level that an element would have at a place, with the wrapper there.
fn level_there(settings: &Settings, outer: &[Open], way: Way, name: Element) -> usize
    requires { AreOpen settings.now outer.now }
    ensures { result ≡ level_in (name ∷ wrapped (entry_of way) (names_of outer.now)) }
{
    match way {
        Way::Inside(wrapper) => {
            level_inside(settings, outer, wrapper) + level_rise(is_table(wrapper), name)
        }
        Way::Direct | Way::Barred => level_inside(settings, outer, name),
    }
}

// Opens the wrapper, where there is one.
fn enter_wrapper(machine: &mut Machine, settings: &Settings, way: Way) -> Result<(), AllocError>
    requires machine { IsMachine settings.now machine.old }
    requires wrapper { CanWrap settings.now (names_of machine.old.opened.items) (entry_of way) }
    ensures { OnOk result (Did settings.now machine.old machine.new (enter_wrapper (entry_of way) (state_of machine.old))) }
{
    match way {
        Way::Inside(wrapper) => {
            enter_bare(machine, settings, wrapper)?;
            Ok(())
        }
        Way::Direct | Way::Barred => Ok(()),
    }
}

// Opens an element without attributes.
fn enter_bare(machine: &mut Machine, settings: &Settings, name: Element) -> Result<(), AllocError>
    requires machine { IsMachine settings.now machine.old }
    requires full { is_empty_element name ≡ false }
    requires low { level_in (name ∷ names_of machine.old.opened.items) ≤ 128 }
    ensures { OnOk result (Did settings.now machine.old machine.new (enter (bare name) (state_of machine.old))) }
{
    let none = AttrList::new(machine.alloc);
    let kept = AttrList::new(machine.alloc);
    enter(machine, settings, name, none, kept)?;
    Ok(())
}

// A text: white space goes into the innermost element, other text only where it may stand or into a wrapper; else it is lost.
fn put_text(machine: &mut Machine, settings: &Settings, text: String) -> Result<(), AllocError>
    requires machine { IsMachine settings.now machine.old }
    requires kept { Kept settings.now (state_of machine.old) }
    requires some { 0 < length (string_bytes text) }
    ensures { OnOk result (Did settings.now machine.old machine.new (text_step settings.now (text_of text) (state_of machine.old))) }
{
    if is_blank(text.as_str()) {
        write_text(machine, settings, text)?;
        return Ok(());
    }
    match way_at(settings, &machine.opened, Child::Text) {
        Way::Barred => Ok(()),
        Way::Direct => {
            put_running(machine, settings, text)?;
            Ok(())
        }
        Way::Inside(wrapper) => {
            if !level_fits(level_inside(settings, &machine.opened, wrapper)) {
                return Ok(());
            }
            enter_bare(machine, settings, wrapper)?;
            put_running(machine, settings, text)?;
            Ok(())
        }
    }
}

// A text in the innermost element, after formatting is opened again.
fn put_running(machine: &mut Machine, settings: &Settings, text: String) -> Result<(), AllocError>
    requires machine { IsMachine settings.now machine.old }
    requires kept { Kept settings.now (state_of machine.old) }
    requires some { 0 < length (string_bytes text) }
    ensures { OnOk result (Did settings.now machine.old machine.new (put_text settings.now (text_of text) (state_of machine.old))) }
{
    reopen(machine, settings, LEVEL_LIMIT)?;
    write_text(machine, settings, text)?;
    Ok(())
}

// Whether a text is white space alone.
fn is_blank(text: &str) -> bool
    ensures { result ≡ is_blank (chars text.now) }
{
    text.chars().all(|c| matches!(c, ' ' | '\t' | '\n'))
}

// An end tag of an element: it closes the open one that it means with all inside of it, or forgets the newest that waits.
fn put_end(machine: &mut Machine, settings: &Settings, name: Element) -> Result<(), AllocError>
    requires machine { IsMachine settings.now machine.old }
    ensures { OnOk result (Did settings.now machine.old machine.new (end_step name (state_of machine.old))) }
{
    match find_open(&machine.opened, name) {
        Some(inner) => {
            close_to(machine, settings, inner)?;
            Ok(())
        }
        None => {
            forget(&mut machine.pending, name)?;
            Ok(())
        }
    }
}

// Forgets the newest of those that wait that has this name.
fn forget(pending: &mut VecDeque<Pending>, name: Element) -> Result<(), AllocError>
    ensures { OnOk result (map pending_tag pending.new.items ≡ without_newest name (map pending_tag pending.old.items)) }
{
    match pending.pop_back() {
        Some(last) => {
            if name.is_same(last.name) {
                return Ok(());
            }
            forget(pending, name)?;
            pending.push_back(last)?;
            Ok(())
        }
        None => Ok(()),
    }
}
