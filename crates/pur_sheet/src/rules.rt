//! Statements and rules, read and written.
ghost use Rattle.std.specs.Prelude.{◌≡◌, ◌++◌, OnOk};
ghost use Rattle.std.specs.Str.{chars};
ghost use Rattle.pur_sheet.specs.Selectors.{selectors_text};
ghost use Rattle.pur_sheet.specs.Statements.{begins_with};
ghost use Rattle.pur_text.specs.Texts.{text_of};
ghost use Rattle.pur_sheet.specs.Sheets.{rule_text, rule_written, statement_written};

use crate::selectors::{are_selectors, push_selectors};
use crate::statements::cut_rule;
use crate::texts::{push_text, text_of};
use pur_cssprops::canon_style;
use pur_settings::Settings;
use pur_uripolicy::{UriGate, UriTest};
use std::alloc::{AllocError, Global};

/// Writes what the statement is read as.
#[tactic(auto, unfolding(crate::specs::Sheets::statement_written))]
pub(crate) fn push_statement<F: UriTest>(
    alloc: Global,
    settings: &Settings,
    gate: &UriGate<F>,
    scope: &[char],
    sheet: &mut String,
    statement: &[char],
) -> Result<(), AllocError>
    ensures { OnOk result (text_of sheet.new ≡ text_of sheet.old ++ statement_written settings.now gate.now scope.now statement.now) }
{
    if begins_with_at(statement) {
        return Ok(());
    }
    let Some((prelude, block)) = cut_rule(statement) else {
        return Ok(());
    };
    push_rule(alloc, settings, gate, scope, sheet, prelude, block)
}

fn begins_with_at(statement: &[char]) -> bool
    ensures { result ≡ begins_with 0x40 statement.now }
{
    match statement {
        [first, ..] => *first == '@',
        [] => false,
    }
}

/// Writes what the rule is read as.
#[tactic(auto, unfolding(crate::specs::Sheets::rule_written))]
fn push_rule<F: UriTest>(
    alloc: Global,
    settings: &Settings,
    gate: &UriGate<F>,
    scope: &[char],
    sheet: &mut String,
    prelude: &[char],
    block: &[char],
) -> Result<(), AllocError>
    ensures { OnOk result (text_of sheet.new ≡ text_of sheet.old ++ rule_written settings.now gate.now scope.now (record { prelude = prelude.now; block = block.now })) }
{
    if !are_selectors(alloc, settings, scope, prelude)? {
        return Ok(());
    }
    let declarations = text_of(alloc, block)?;
    match canon_style(alloc, settings, gate, declarations.as_str())? {
        Some(style) => write_rule(sheet, scope, prelude, style.as_str()),
        None => Ok(()),
    }
}

fn write_rule(
    sheet: &mut String,
    scope: &[char],
    prelude: &[char],
    style: &str,
) -> Result<(), AllocError>
    ensures { OnOk result (text_of sheet.new ≡ text_of sheet.old ++ rule_text (selectors_text scope.now prelude.now) (chars style.now)) }
{
    push_selectors(sheet, scope, prelude)?;
    push_text(sheet, " {")?;
    push_text(sheet, style)?;
    push_text(sheet, "}\n")?;
    Ok(())
}
