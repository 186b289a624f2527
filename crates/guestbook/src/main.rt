//! An example of the filter as a library: a guest book whose entries may lead to its own hosts alone. Its closure looks at a URI by
//! itself; that it answers by a rule of hosts is proved, as the gate asks, so that all clauses of `purify` hold under that rule.
#![tactic(auto)]

mod home;

ghost use Rattle.std.specs.Prelude.{◌≡◌, IfOk};
ghost use Rattle.guestbook.specs.Home.{home};
ghost use Rattle.pur_engine.specs.Ledger.{AddsNoText, KeepsLedger};
ghost use Rattle.pur_engine.specs.Purified.{purified};
ghost use Rattle.pur_engine.specs.Spelled.{IsSpelled};
ghost use Rattle.pur_settings.specs.Rules.{default_rules};
ghost use Rattle.pur_validity.specs.Goodness.{IsGood};
ghost use Rattle.pur_uripolicy.specs.Asking.{AnswersBy};
ghost use Rattle.pur_uripolicy.specs.HostRules.{admits};

use crate::home::{home_rule, leads_home};
use pur_engine::purify;
use pur_settings::Settings;
use pur_uri::Uri;
use pur_uripolicy::{HostRule, UriGate, UriTest};
use std::alloc::{AllocError, Global};
use std::io;

// What visitors wrote.
static ENTRIES: [&str; 3] = [
    "Lovely <b>garden! <a href=\"http://www.guests.example/map\">the way</a>",
    "<a href=\"http://casino.example/\" onclick=\"win()\">Win</a> now",
    "<img src=\"rose.jpg\"><img src=\"//spy.example/dot.gif\">",
];

fn main(rt: HostRuntime) -> io::Result<()> {
    for entry in ENTRIES {
        let clean = clean_entry(rt.alloc(), entry)?;
        rt.stdout().write_all(clean.as_slice())?;
        println!(rt;)?;
    }
    Ok(())
}

// An entry as the guest book shows it.
fn clean_entry(alloc: Global, entry: &str) -> Result<Vec<u8>, AllocError>
    ensures purified { IfOk result (λ text. text.items ≡ purified default_rules home entry.now) }
    ensures spelled { IfOk result (λ text. IsSpelled text.items) }
    ensures good { IfOk result (λ text. IsGood default_rules home text.items) }
    ensures adds_no_text { IfOk result (λ text. AddsNoText default_rules home entry.now text.items) }
    ensures ledger { IfOk result (λ text. KeepsLedger default_rules home entry.now text.items) }
    ensures unchanged { IfOk result (λ text. IsGood default_rules home entry.now → text.items ≡ entry.now) }
    ensures twice { IfOk result (λ text. purified default_rules home text.items ≡ text.items) }
{
    let rule = home_rule(alloc)?;
    clean_by(alloc, &rule, |uri: &Uri| leads_home(uri), entry)
}

// An entry that is filtered where a closure answers by the rule.
fn clean_by<F: UriTest + Drop>(
    alloc: Global,
    rule: &HostRule,
    filter: F,
    entry: &str,
) -> Result<Vec<u8>, AllocError>
    requires { AnswersBy F.may_ask F.answers filter (admits rule.now) }
    ensures purified { IfOk result (λ text. text.items ≡ purified default_rules rule.now entry.now) }
    ensures spelled { IfOk result (λ text. IsSpelled text.items) }
    ensures good { IfOk result (λ text. IsGood default_rules rule.now text.items) }
    ensures adds_no_text { IfOk result (λ text. AddsNoText default_rules rule.now entry.now text.items) }
    ensures ledger { IfOk result (λ text. KeepsLedger default_rules rule.now entry.now text.items) }
    ensures unchanged { IfOk result (λ text. IsGood default_rules rule.now entry.now → text.items ≡ entry.now) }
    ensures twice { IfOk result (λ text. purified default_rules rule.now text.items ≡ text.items) }
{
    let gate = UriGate::new(rule, filter);
    let settings = Settings::defaults();
    purify(alloc, &settings, &gate, entry.as_bytes())
}
