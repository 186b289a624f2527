//! What is said of checks, as contracts of functions that do nothing.
ghost use Rattle.pur_cli.specs.Laws.{VerdictsExclude};

/// At most one status is true of an input under settings and a rule of hosts: what is good isn't misspelled, and what is
/// misspelled isn't spelled and invalid.
pub fn verdicts_exclude()
    ensures { VerdictsExclude }
{}
