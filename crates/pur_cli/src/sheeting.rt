// Style sheets: those of an input, made safe for one block of a page under settings alone.
ghost use Rattle.std.specs.Prelude.{◌≡◌, ◌∷◌, [], ℕ, List, true, string_bytes, IfOk, OnOk};
ghost use Rattle.std.specs.Str.{chars};
ghost use Rattle.pur_lexer.specs.Lexing.{tokens_of};
ghost use Rattle.pur_text.specs.Cleaning.{cleaned};
ghost use Rattle.pur_text.specs.Texts.{text_of};
ghost use Rattle.pur_tokens.specs.Tokens.{PlainToken};
ghost use Rattle.pur_uripolicy.specs.HostRules.{admits, rule_of};
ghost use Rattle.pur_uripolicy.specs.Asking.{AnswersBy};
ghost use Rattle.pur_commands.specs.Intakes.{HasCleaned};
ghost use Rattle.pur_cli.specs.Answers.{sheeted};
ghost use Rattle.pur_cli.specs.Private.Answering.{Gives};
ghost use Rattle.pur_cli.specs.Sheets.{IsSafeSheet, styles_in};
ghost use Rattle.pur_sheet.specs.Selectors.{is_scope};
ghost use Rattle.pur_sheet.specs.Styles.{styles_of, styles_with};

use crate::answer::Answer;
use pur_commands::{Source, Status};
use pur_lexer::Lexer;
use pur_settings::Settings;
use pur_sheet::{StyleSheets, read_sheet};
use pur_text::Cleaner;
use pur_uri::Uri;
use pur_uripolicy::{HostRule, UriGate, UriTest, host_rule};
use std::alloc::{AllocError, Global};

// Makes the style sheets of the input that a cleaner was fed safe: the text is the one sheet that they are read as. The error is
// want of memory.
pub fn clean_sheet(
    alloc: Global,
    source: Source<Cleaner>,
    scope: &str,
) -> Result<Answer, AllocError>
    requires { is_scope (chars scope.now) ≡ true }
    ensures { IfOk result (λ answer. (input : List ℕ) → HasCleaned source.input input →
        Gives (sheeted source.settings scope.now input) answer.status answer.text.items) }
{
    let Source { settings, input } = source;
    let styles = styles_in(alloc, input.finish())?;
    let sheet = safe_sheet(alloc, &settings, scope, styles.as_str())?;
    Ok(Answer {
        status: Status::Done,
        text: sheet.into_bytes(),
    })
}

// The style sheets in a cleaned text. Its tokens come one at a time, so they never stand together.
fn styles_in(alloc: Global, text: String) -> Result<String, AllocError>
    ensures { IfOk result (λ styles. text_of styles ≡ styles_of (tokens_of (text_of text))) }
{
    let mut styles = StyleSheets::new(alloc);
    let mut lexer = Lexer::new(alloc, text.as_str());
    take_styles(&mut lexer, &mut styles)?;
    Ok(styles.finish())
}

// Takes the style sheets out of all tokens that the lexer has left.
fn take_styles(lexer: &mut Lexer<'_>, styles: &mut StyleSheets) -> Result<(), AllocError>
    ensures { OnOk result (styles_with styles.new [] ≡ styles_with styles.old lexer.old) }
{
    'taking: while let Some(token) = lexer.next()? {
        styles.put(&token)?;
    }
    Ok(())
}

// The sheet that style sheets are read as, under settings and the rule of hosts that they give. The rule is made once: the gate and
// the closure look at the same. The error is want of memory.
fn safe_sheet(
    alloc: Global,
    settings: &Settings,
    scope: &str,
    styles: &str,
) -> Result<String, AllocError>
    requires { is_scope (chars scope.now) ≡ true }
    ensures { IfOk result (λ sheet. (input : List ℕ) → styles_in input ≡ chars styles.now → IsSafeSheet settings.now scope.now input (string_bytes sheet)) }
{
    let rule = host_rule(alloc, settings)?;
    safe_sheet_by(
        alloc,
        settings,
        &rule,
        |uri: &Uri| rule.admits(uri),
        scope,
        styles,
    )
}

// The same under a rule of hosts, where a closure answers by the rule.
fn safe_sheet_by<F: UriTest + Drop>(
    alloc: Global,
    settings: &Settings,
    rule: &HostRule,
    filter: F,
    scope: &str,
    styles: &str,
) -> Result<String, AllocError>
    requires rule { rule.now ≡ rule_of settings.now }
    requires answers { AnswersBy F.may_ask F.answers filter (admits rule.now) }
    requires scope { is_scope (chars scope.now) ≡ true }
    ensures { IfOk result (λ sheet. (input : List ℕ) → styles_in input ≡ chars styles.now → IsSafeSheet settings.now scope.now input (string_bytes sheet)) }
{
    let gate = UriGate::new(rule, filter);
    let sheet = read_sheet(alloc, settings, &gate, scope, styles)?;
    Ok(sheet)
}
