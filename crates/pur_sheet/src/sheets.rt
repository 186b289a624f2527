//! The sheet.
ghost use Rattle.std.specs.Prelude.{◌≡◌, ◌==◌, IfOk, IsTrue, not, true};
ghost use Rattle.std.specs.List.{list_all};
ghost use Rattle.std.specs.Str.{chars};
ghost use Rattle.pur_text.specs.Texts.{text_of};
ghost use Rattle.pur_sheet.specs.Canonical.{IsCanonicalSheet};
ghost use Rattle.pur_sheet.specs.Selectors.{is_scope};
ghost use Rattle.pur_sheet.specs.Sheets.{sheet_of};

use crate::comments::without_comments;
use crate::compounds::is_identifier;
use crate::laws::{canonical_sheets_stay, sheets_are_canonical};
use crate::rules::push_statement;
use crate::statements::next_statement;
use crate::texts::characters;
use pur_settings::Settings;
use pur_uripolicy::{UriGate, UriTest};
use std::alloc::{AllocError, Global};

/// Whether a text can be a sheet's scope: an ASCII letter, and then ASCII letters, digits, `-` and `_`, at most 64 in all.
///
/// The error is want of memory.
pub fn is_scope(alloc: Global, text: &str) -> Result<bool, AllocError>
    ensures { IfOk result (λ is. is ≡ is_scope (chars text.now)) }
{
    let name = characters(alloc, text)?;
    Ok(is_identifier(&name) && name.len() <= 64)
}

/// What a style sheet is read as: its rules, each with selectors that touch what stands in the element whose `id` is `scope`
/// alone, and with the declarations that [`pur_cssprops::canon_style`] keeps.
///
/// Comments and the marks `<!--` and `-->` go, statements that begin with `@` too, and a rule whose selectors aren't all read,
/// or whose style keeps nothing. A selector has at most 16 compounds, with the scope in front.
///
/// The error is want of memory.
pub fn read_sheet<F: UriTest>(
    alloc: Global,
    settings: &Settings,
    gate: &UriGate<F>,
    scope: &str,
    raw: &str,
) -> Result<String, AllocError>
    requires { is_scope (chars scope.now) ≡ true }
    ensures read { IfOk result (λ sheet. text_of sheet ≡ sheet_of settings.now gate.now (chars scope.now) (chars raw.now)) }
    ensures canonical { IfOk result (λ sheet. IsCanonicalSheet settings.now gate.now (chars scope.now) (text_of sheet)) }
    ensures plain { IfOk result (λ sheet. IsTrue (list_all (λ c. not (c == 0x3C)) (text_of sheet))) }
    ensures itself { IfOk result (λ sheet. sheet_of settings.now gate.now (chars scope.now) (text_of sheet) ≡ text_of sheet) }
    ensures stays { IsCanonicalSheet settings.now gate.now (chars scope.now) (chars raw.now) → IfOk result (λ sheet. text_of sheet ≡ chars raw.now) }
{
    sheets_are_canonical();
    canonical_sheets_stay();
    let sheet = write_sheet(alloc, settings, gate, scope, raw)?;
    Ok(sheet)
}

/// The statements of the sheet, each as it is read.
#[tactic(auto, unfolding(crate::specs::Sheets::sheet_of))]
fn write_sheet<F: UriTest>(
    alloc: Global,
    settings: &Settings,
    gate: &UriGate<F>,
    scope: &str,
    raw: &str,
) -> Result<String, AllocError>
    ensures { IfOk result (λ sheet. text_of sheet ≡ sheet_of settings.now gate.now (chars scope.now) (chars raw.now)) }
{
    let scope = characters(alloc, scope)?;
    let text = without_comments(alloc, raw)?;
    let mut sheet = String::new(alloc);
    let mut rest = text.as_slice();
    'reading: while let Some((statement, behind)) = next_statement(rest) {
        push_statement(alloc, settings, gate, &scope, &mut sheet, statement)?;
        rest = behind;
    }
    Ok(sheet)
}
