// Filtering: the purification of a text under settings alone, for which the gate is made of the rule of hosts that they give.
ghost use Rattle.std.specs.Prelude.{◌≡◌, List, ℕ, string_bytes, IfOk};
ghost use Rattle.std.specs.Str.{chars};
ghost use Rattle.pur_text.specs.Cleaning.{cleaned};
ghost use Rattle.pur_uripolicy.specs.HostRules.{admits, rule_of};
ghost use Rattle.pur_uripolicy.specs.Asking.{AnswersBy};
ghost use Rattle.pur_engine.specs.Purifications.{IsPurification};
ghost use Rattle.pur_commands.specs.Intakes.{HasCleaned};
ghost use Rattle.pur_cli.specs.Answers.{filtered};
ghost use Rattle.pur_cli.specs.Private.Answering.{Gives};

use crate::answer::Answer;
use pur_commands::{Source, Status};
use pur_engine::purify_text;
use pur_settings::Settings;
use pur_text::Cleaner;
use pur_uri::Uri;
use pur_uripolicy::{HostRule, UriGate, UriTest, host_rule};
use std::alloc::{AllocError, Global};

// Filters the input that a cleaner was fed: the text is its purification. The error is want of memory.
pub fn filter(alloc: Global, source: Source<Cleaner>) -> Result<Answer, AllocError>
    ensures { IfOk result (λ answer. (input : List ℕ) → HasCleaned source.input input → Gives (filtered source.settings input) answer.status answer.text.items) }
{
    let Source { settings, input } = source;
    let text = purification(alloc, &settings, input.finish())?;
    Ok(Answer {
        status: Status::Done,
        text,
    })
}

// The purification of a cleaned text under settings and the rule of hosts that they give. The rule is made once: the gate and the
// closure look at the same. The error is want of memory.
pub fn purification(alloc: Global, settings: &Settings, text: String) -> Result<Vec<u8>, AllocError>
    ensures { IfOk result (λ output. (input : List ℕ) → cleaned input ≡ chars (string_bytes text) →
        IsPurification settings.now (rule_of settings.now) input output.items) }
{
    let rule = host_rule(alloc, settings)?;
    purification_by(alloc, settings, &rule, |uri: &Uri| rule.admits(uri), text)
}

// The purification of a cleaned text under settings and a rule of hosts, where a closure answers by the rule.
fn purification_by<F: UriTest + Drop>(
    alloc: Global,
    settings: &Settings,
    rule: &HostRule,
    filter: F,
    text: String,
) -> Result<Vec<u8>, AllocError>
    requires { AnswersBy F.may_ask F.answers filter (admits rule.now) }
    ensures { IfOk result (λ output. (input : List ℕ) → cleaned input ≡ chars (string_bytes text) →
        IsPurification settings.now rule.now input output.items) }
{
    let gate = UriGate::new(rule, filter);
    purify_text(alloc, settings, &gate, text)
}
