// Formatting that was cut off is opened again.
ghost use Rattle.std.specs.Prelude.{◌≡◌, ◌≤◌, ◌<◌, ◌+◌, ◌-◌, true, map, OnOk, IfSome, IfNone};
ghost use Rattle.std.specs.List.{list_any};
ghost use Rattle.pur_modules.specs.Wrappers.{is_running};
ghost use Rattle.pur_modules.specs.declared.kinds.Child.TheVariants.{Elem};
ghost use Rattle.pur_attrlist.specs.Attributes.{weight_of};
ghost use Rattle.pur_tree.specs.Places.{level_limit};
ghost use Rattle.pur_wellform.specs.Closing.{fits_again, turn_of, reopen, reopen_before};
ghost use Rattle.pur_wellform.specs.Invariants.{Kept, is_pendable};
ghost use Rattle.pur_wellform.specs.Private.Opens.{names_of};
ghost use Rattle.pur_wellform.specs.Private.Machines.{IsMachine, Did, state_of, pending_tag, first_turn, so_many_turns};

use crate::machine::{Machine, Pending, enter};
use crate::open_elements::{content_at, is_excluded_at, level_inside};
use pur_attrlist::AttrList;
use pur_modules::{Child, Doctype, allows, is_edit, is_inline};
use pur_names::Element;
use pur_settings::Settings;
use std::alloc::AllocError;

// The greatest level that formatting may have before an inline element, which takes one more.
const LEVEL_BEFORE: usize = 127;

// What it costs to open an element again, beside the bytes of its attributes.
const COST: u64 = 16;

// Before an inline element that is no mark of editing, opens formatting again, with one level left for the element.
pub(crate) fn reopen_before(
    machine: &mut Machine,
    settings: &Settings,
    name: Element,
) -> Result<(), AllocError>
    requires machine { IsMachine settings.now machine.old }
    requires kept { Kept settings.now (state_of machine.old) }
    ensures { OnOk result (Did settings.now machine.old machine.new (reopen_before settings.now name (state_of machine.old))) }
{
    if is_running(settings.doctype(), name) {
        reopen(machine, settings, LEVEL_BEFORE)?;
        return Ok(());
    }
    Ok(())
}

// Whether the element is an inline one and no mark of editing.
fn is_running(doctype: Doctype, name: Element) -> bool
    ensures { result ≡ is_running doctype (Elem name) }
{
    if is_inline(doctype, name) {
        !is_edit(name)
    } else {
        false
    }
}

// Opens what waits again, in its order, within a limit of levels.
pub(crate) fn reopen(
    machine: &mut Machine,
    settings: &Settings,
    limit: usize,
) -> Result<(), AllocError>
    requires machine { IsMachine settings.now machine.old }
    requires kept { Kept settings.now (state_of machine.old) }
    requires limit { limit ≤ level_limit }
    ensures { OnOk result (Did settings.now machine.old machine.new (reopen settings.now limit (state_of machine.old))) }
{
    if !some_fits(machine, settings, limit) {
        return Ok(());
    }
    let count = machine.pending.len();
    take_turns(machine, settings, limit, count)?;
    Ok(())
}

// Whether one of those that wait fits.
fn some_fits(machine: &Machine, settings: &Settings, limit: usize) -> bool
    requires { IsMachine settings.now machine.now }
    ensures { result ≡ list_any (λ tag. fits_again settings.now limit (names_of machine.now.opened.items) tag.name) (map pending_tag machine.now.pending.items) }
{
    for waiting in machine.pending.iter() {
        if fits_again(machine, settings, limit, waiting.name) {
            return true;
        }
    }
    false
}

// Whether an element that waits fits at its turn.
fn fits_again(machine: &Machine, settings: &Settings, limit: usize, name: Element) -> bool
    requires { IsMachine settings.now machine.now }
    ensures { result ≡ fits_again settings.now limit (names_of machine.now.opened.items) name }
{
    if !allows(
        settings.doctype(),
        content_at(settings, &machine.opened),
        Child::Elem(name),
    ) {
        return false;
    }
    if is_excluded_at(settings, &machine.opened, name) {
        return false;
    }
    level_inside(settings, &machine.opened, name) <= limit
}

// So many turns of those that wait, each that of the first; one that goes on waiting comes last.
fn take_turns(
    machine: &mut Machine,
    settings: &Settings,
    limit: usize,
    count: usize,
) -> Result<(), AllocError>
    requires machine { IsMachine settings.now machine.old }
    requires kept { Kept settings.now (state_of machine.old) }
    requires limit { limit ≤ level_limit }
    ensures { OnOk result (Did settings.now machine.old machine.new (so_many_turns settings.now limit count (state_of machine.old))) }
{
    if count == 0 {
        return Ok(());
    }
    take_turn(machine, settings, limit)?;
    take_turns(machine, settings, limit, count - 1)?;
    Ok(())
}

// The turn of the first of those that wait.
fn take_turn(machine: &mut Machine, settings: &Settings, limit: usize) -> Result<(), AllocError>
    requires machine { IsMachine settings.now machine.old }
    requires kept { Kept settings.now (state_of machine.old) }
    requires limit { limit ≤ level_limit }
    ensures { OnOk result (Did settings.now machine.old machine.new (first_turn settings.now limit (state_of machine.old).pending (state_of machine.old))) }
{
    match machine.pending.pop_front() {
        Some(first) => {
            give_turn(machine, settings, limit, first)?;
            Ok(())
        }
        None => Ok(()),
    }
}

// An element at its turn: it is opened again where it fits and can be paid, waits on where it doesn't fit, and is forgotten
// where it can't be paid.
fn give_turn(
    machine: &mut Machine,
    settings: &Settings,
    limit: usize,
    first: Pending,
) -> Result<(), AllocError>
    requires machine { IsMachine settings.now machine.old }
    requires pendable { is_pendable settings.now (pending_tag first) ≡ true }
    requires limit { limit ≤ level_limit }
    ensures { OnOk result (Did settings.now machine.old machine.new (turn_of settings.now limit (pending_tag first) (state_of machine.old))) }
{
    let Pending { name, attrs } = first;
    if !fits_again(machine, settings, limit, name) {
        machine.pending.push_back(Pending { name, attrs })?;
        return Ok(());
    }
    match left_of(machine.rest, &attrs) {
        Some(left) => {
            machine.rest = left;
            let written = attrs.copy()?;
            enter(machine, settings, name, written, attrs)?;
            Ok(())
        }
        None => Ok(()),
    }
}

// What is left of an allowance when an element with these attributes is paid, if it can be.
fn left_of(rest: u64, attrs: &AttrList) -> Option<u64>
    ensures some { IfSome result (λ left. (16 + weight_of attrs.now ≤ rest) × (left ≡ rest - (16 + weight_of attrs.now))) }
    ensures none { IfNone result (rest < 16 + weight_of attrs.now) }
{
    let left = rest.checked_sub(COST)?;
    left.checked_sub(attrs.weight())
}
