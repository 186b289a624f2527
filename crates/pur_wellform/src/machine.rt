// The machine of closing: what is open, what waits to be opened again, and the forest that it builds.
ghost use Rattle.std.specs.Prelude.{◌≡◌, ◌≤◌, ◌<◌, ◌-◌, ◌++◌, ◌∷◌, [], false, suc, length, drop, OnOk, IfOk, string_bytes};
ghost use Rattle.std.specs.List.{list_any};
ghost use Rattle.pur_modules.specs.Contents.{is_empty_element};
ghost use Rattle.pur_attrlist.specs.Texts.{text_of};
ghost use Rattle.pur_tree.specs.Nodes.{plain_elem};
ghost use Rattle.pur_tree.specs.Places.{level_limit};
ghost use Rattle.pur_tree.specs.Tokens.{text_token};
ghost use Rattle.pur_wellform.specs.Search.{level_in, is_shut};
ghost use Rattle.pur_wellform.specs.Closing.{is_formatting, kept, close_inner, enter, enter_and_close, enter_tag, writing};
ghost use Rattle.pur_wellform.specs.Private.Opens.{names_of, tag_of};
ghost use Rattle.pur_wellform.specs.Private.Machines.{IsMachine, Did, state_of, leaving, waiting, carrying_out, settled};

use crate::open_elements::{Open, opening};
use crate::search::is_shut;
use pur_attrlist::AttrList;
use pur_modules::is_declared_empty;
use pur_names::Element;
use pur_settings::Settings;
use pur_tree::Builder;
use std::alloc::{AllocError, Global};
use std::collections::VecDeque;

// Formatting that waits to be opened again, with its attributes.
#[derive(Drop)]
pub(crate) struct Pending {
    pub(crate) name: Element,
    pub(crate) attrs: AttrList,
}

// What closing keeps from token to token. The open elements stand outermost first, those that wait oldest first; `rest` is
// what may still be paid for opening elements again.
#[derive(Drop)]
pub(crate) struct Machine {
    pub(crate) alloc: Global,
    pub(crate) builder: Builder,
    pub(crate) opened: Vec<Open>,
    pub(crate) pending: VecDeque<Pending>,
    pub(crate) rest: u64,
}

// The most elements that wait.
const PENDING_LIMIT: usize = 128;

// Opens an element, whose level fits and which isn't EMPTY. What is kept of its attributes comes beside them.
pub(crate) fn enter(
    machine: &mut Machine,
    settings: &Settings,
    name: Element,
    attrs: AttrList,
    carried: AttrList,
) -> Result<(), AllocError>
    requires machine { IsMachine settings.now machine.old }
    requires full { is_empty_element name ≡ false }
    requires low { level_in (name ∷ names_of machine.old.opened.items) ≤ level_limit }
    requires carried { carried ≡ (kept (plain_elem name attrs)).attrs }
    ensures { OnOk result (Did settings.now machine.old machine.new (enter (plain_elem name attrs) (state_of machine.old))) }
{
    let open = opening(settings, &machine.opened, name, carried);
    machine.builder.enter(name, attrs)?;
    machine.opened.push(open)?;
    Ok(())
}

// What is kept of the attributes of an element that is opened: those of formatting.
pub(crate) fn carried_of(
    alloc: Global,
    name: Element,
    attrs: &AttrList,
) -> Result<AttrList, AllocError>
    ensures { IfOk result (λ carried. carried ≡ (kept (plain_elem name attrs.now)).attrs) }
{
    if is_formatting(name) {
        attrs.copy()
    } else {
        Ok(AttrList::new(alloc))
    }
}

// Ends the innermost open element, and gives what was noted of it.
pub(crate) fn leave(machine: &mut Machine, _settings: &Settings) -> Result<Open, AllocError>
    requires machine { IsMachine _settings.now machine.old }
    requires some { 0 < length machine.old.opened.items }
    ensures did { OnOk result (Did _settings.now machine.old machine.new (leaving 1 (state_of machine.old))) }
    ensures left { IfOk result (λ left. machine.old.opened.items ≡ machine.new.opened.items ++ left ∷ []) }
{
    machine.builder.leave()?;
    match machine.opened.pop() {
        Some(left) => Ok(left),
        None => unreachable!(),
    }
}

// Puts what was noted of a closed element behind those that wait, if it is formatting.
fn wait(machine: &mut Machine, _settings: &Settings, left: Open) -> Result<(), AllocError>
    requires machine { IsMachine _settings.now machine.old }
    ensures { OnOk result (Did _settings.now machine.old machine.new (waiting (tag_of left) (state_of machine.old))) }
{
    let Open { name, attrs, .. } = left;
    if is_formatting(name) {
        machine.pending.push_back(Pending { name, attrs })?;
    }
    Ok(())
}

// Ends so many elements, the innermost first, and puts the formatting among them behind those that wait, outermost first.
pub(crate) fn carry_out(
    machine: &mut Machine,
    settings: &Settings,
    count: usize,
) -> Result<(), AllocError>
    requires machine { IsMachine settings.now machine.old }
    requires some { count ≤ length machine.old.opened.items }
    ensures { OnOk result (Did settings.now machine.old machine.new (carrying_out count (state_of machine.old))) }
{
    if count == 0 {
        return Ok(());
    }
    let left = leave(machine, settings)?;
    carry_out(machine, settings, count - 1)?;
    wait(machine, settings, left)?;
    Ok(())
}

// Forgets what waits where a cell or a caption was closed, and else all but the newest.
fn settle(machine: &mut Machine, _settings: &Settings, shut: bool)
    requires { IsMachine _settings.now machine.old }
    ensures { Did _settings.now machine.old machine.new (settled shut (state_of machine.old)) }
{
    if shut {
        machine.pending.clear();
    } else {
        keep_newest(&mut machine.pending);
    }
}

// Forgets all but the newest.
fn keep_newest(pending: &mut VecDeque<Pending>)
    ensures { pending.new.items ≡ drop (length pending.old.items - 128) pending.old.items }
{
    while pending.len() > PENDING_LIMIT {
        let _ = pending.pop_front();
    }
}

// Closes so many elements, the innermost first; the formatting among them is carried on.
pub(crate) fn close_inner(
    machine: &mut Machine,
    settings: &Settings,
    inner: usize,
) -> Result<(), AllocError>
    requires machine { IsMachine settings.now machine.old }
    requires closed { inner ≤ length machine.old.opened.items }
    ensures { OnOk result (Did settings.now machine.old machine.new (close_inner inner inner (state_of machine.old))) }
{
    let shut = has_shut(innermost(&machine.opened, inner));
    carry_out(machine, settings, inner)?;
    settle(machine, settings, shut);
    Ok(())
}

// Closes the element that has so many open inside of it, and those; it isn't carried on itself.
pub(crate) fn close_to(
    machine: &mut Machine,
    settings: &Settings,
    inner: usize,
) -> Result<(), AllocError>
    requires machine { IsMachine settings.now machine.old }
    requires closed { inner < length machine.old.opened.items }
    ensures { OnOk result (Did settings.now machine.old machine.new (close_inner (suc inner) inner (state_of machine.old))) }
{
    let shut = has_shut(innermost(&machine.opened, inner + 1));
    carry_out(machine, settings, inner)?;
    let _ = leave(machine, settings)?;
    settle(machine, settings, shut);
    Ok(())
}

// So many of the open elements, the innermost ones.
fn innermost(opened: &[Open], count: usize) -> &[Open]
    requires { count ≤ length opened.now }
    ensures { result.now ≡ drop (length opened.now - count) opened.now }
{
    let (_, inner) = opened.split_at(opened.len() - count);
    inner
}

// Whether a cell or a caption is among open elements.
fn has_shut(opened: &[Open]) -> bool
    ensures { result ≡ list_any (λ o. is_shut o.name) opened.now }
{
    for open in opened {
        if is_shut(open.name) {
            return true;
        }
    }
    false
}

// Opens an element, whose level fits, and closes it at once.
fn enter_and_close(
    machine: &mut Machine,
    settings: &Settings,
    name: Element,
    attrs: AttrList,
) -> Result<(), AllocError>
    requires machine { IsMachine settings.now machine.old }
    requires low { level_in (name ∷ names_of machine.old.opened.items) ≤ level_limit }
    ensures { OnOk result (Did settings.now machine.old machine.new (enter_and_close (plain_elem name attrs) (state_of machine.old))) }
{
    machine.builder.enter(name, attrs)?;
    machine.builder.leave()?;
    settle(machine, settings, is_shut(name));
    Ok(())
}

// Opens an element, whose level fits, and closes it at once where that is asked or where it is EMPTY.
pub(crate) fn enter_tag(
    machine: &mut Machine,
    settings: &Settings,
    name: Element,
    attrs: AttrList,
    at_once: bool,
) -> Result<(), AllocError>
    requires machine { IsMachine settings.now machine.old }
    requires low { level_in (name ∷ names_of machine.old.opened.items) ≤ level_limit }
    ensures { OnOk result (Did settings.now machine.old machine.new (enter_tag (plain_elem name attrs) at_once (state_of machine.old))) }
{
    if at_once {
        enter_and_close(machine, settings, name, attrs)?;
        return Ok(());
    }
    if is_declared_empty(name) {
        enter_and_close(machine, settings, name, attrs)?;
        return Ok(());
    }
    let carried = carried_of(machine.alloc, name, &attrs)?;
    enter(machine, settings, name, attrs, carried)?;
    Ok(())
}

// Puts a text into the innermost element.
pub(crate) fn write_text(
    machine: &mut Machine,
    _settings: &Settings,
    text: String,
) -> Result<(), AllocError>
    requires machine { IsMachine _settings.now machine.old }
    requires some { 0 < length (string_bytes text) }
    ensures { OnOk result (Did _settings.now machine.old machine.new (writing (text_token (text_of text) ∷ []) (state_of machine.old))) }
{
    machine.builder.move_text(text)?;
    Ok(())
}

// Whether the element's look goes on where it is cut off.
fn is_formatting(element: Element) -> bool
    ensures { result ≡ is_formatting element }
{
    matches!(
        element,
        Element::B
            | Element::Big
            | Element::Code
            | Element::Em
            | Element::Font
            | Element::I
            | Element::S
            | Element::Small
            | Element::Strike
            | Element::Strong
            | Element::Tt
            | Element::U
    )
}
