// Checking an input under settings: whether it is a good fragment. No pass of the filter is called.
ghost use Rattle.std.specs.Prelude.{IfOk};
ghost use Rattle.pur_uripolicy.specs.HostRules.{admits, rule_of};
ghost use Rattle.pur_uripolicy.specs.Asking.{AnswersBy};
ghost use Rattle.pur_cli.specs.Answers.{checked};
ghost use Rattle.pur_cli.specs.Private.Answering.{Gives};
ghost use Rattle.pur_cli.specs.Verdicts.{IsVerdict};

use crate::answer::Answer;
use pur_commands::{Source, Status};
use pur_reader::{read_fragment, spelling_is_unique, valid};
use pur_settings::Settings;
use pur_uri::Uri;
use pur_uripolicy::{HostRule, UriGate, UriTest, host_rule};
use std::alloc::{AllocError, Global};

// Checks an input: the text is the word for what was found. The error is want of memory.
pub fn check(alloc: Global, source: &Source<Vec<u8>>) -> Result<Answer, AllocError>
    ensures { IfOk result (λ answer. Gives (checked source.now.settings source.now.input.items) answer.status answer.text.items) }
{
    let status = verdict_on(alloc, &source.settings, source.input.as_slice())?;
    let text = Vec::from_slice(alloc, status.report().as_bytes())?;
    Ok(Answer { status, text })
}

// The status that is true of an input under settings and the rule of hosts that they give. The rule is made once: the gate and
// the closure look at the same. The error is want of memory.
fn verdict_on(alloc: Global, settings: &Settings, input: &[u8]) -> Result<Status, AllocError>
    ensures { IfOk result (IsVerdict settings.now (rule_of settings.now) input.now) }
{
    let rule = host_rule(alloc, settings)?;
    verdict_by(alloc, settings, &rule, |uri: &Uri| rule.admits(uri), input)
}

// The status that is true of an input under settings and a rule of hosts, where a closure answers by the rule.
fn verdict_by<F: UriTest + Drop>(
    alloc: Global,
    settings: &Settings,
    rule: &HostRule,
    filter: F,
    input: &[u8],
) -> Result<Status, AllocError>
    requires { AnswersBy F.may_ask F.answers filter (admits rule.now) }
    ensures { IfOk result (IsVerdict settings.now rule.now input.now) }
{
    spelling_is_unique();
    let gate = UriGate::new(rule, filter);
    let Some(forest) = read_fragment(alloc, input)? else {
        return Ok(Status::SpellingFault);
    };
    let is_valid = valid(alloc, settings, &gate, &forest)?;
    if is_valid {
        Ok(Status::Done)
    } else {
        Ok(Status::ValidityFault)
    }
}
