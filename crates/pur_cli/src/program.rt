// The program as one call over the world outside.
ghost use Rattle.std.specs.Prelude.{◌≡◌, ◌≢◌, ◌⊎◌, ◌+◌, ◌≤◌, ◌==◌, not, true, map, Some, None, string_bytes, IfSome, IsTrue};
ghost use Rattle.std.specs.List.{list_all};
ghost use Rattle.std.specs.Str.{chars};
ghost use Rattle.pur_io.specs.Faults.{Rose};
ghost use Rattle.pur_io.specs.Taken.{taken_more};
ghost use Rattle.pur_io.specs.Texts.{text_named};
ghost use Rattle.pur_uripolicy.specs.HostRules.{rule_of};
ghost use Rattle.pur_validity.specs.Goodness.{IsGood};
ghost use Rattle.pur_inject.specs.Injected.{injects_nothing};
ghost use Rattle.pur_engine.specs.Ledger.{AddsNoText, KeepsLedger};
ghost use Rattle.pur_engine.specs.Purified.{purified};
ghost use Rattle.pur_engine.specs.Spelled.{IsSpelled};
ghost use Rattle.pur_commands.specs.Accepted.{settings_named};
ghost use Rattle.pur_commands.specs.Choices.{ChoseSettings, ChoseInput};
ghost use Rattle.pur_commands.specs.Commands.{plain_command, IfFilter, IfSample, IfSheet};
ghost use Rattle.pur_commands.specs.Limits.{settings_limit, input_limit};
ghost use Rattle.pur_commands.specs.Statuses.{code_of, TookLine, TookWholeLine};
ghost use Rattle.pur_commands.specs.Words.{command_of, names_read};
ghost use Rattle.pur_cli.specs.Answers.{refused, IsStatus, HasStatus, text_of, TookFrontOf, answer_of};
ghost use Rattle.pur_cli.specs.Private.Ends.{Ends};
ghost use Rattle.pur_cli.specs.Samples.{sample_line};
ghost use Rattle.pur_cli.specs.Sheets.{styles_in};
ghost use Rattle.pur_sheet.specs.Canonical.{IsCanonicalSheet};
ghost use Rattle.pur_sheet.specs.Selectors.{is_scope};
ghost use Rattle.pur_sheet.specs.Sheets.{sheet_of};

use crate::answer::answer_to;
use pur_commands::{Command, Status, complain, read_words, write_all};
use pur_io::{Failed, Shelf, Sink};
use std::alloc::Global;

/// Runs the program: `purify` with these words of its command line, which don't include its own name.
///
/// The words are read first (`read_words`). Then the settings text is read from the shelf, where the words name one, and
/// refused where it has more than 65,536 bytes or an offence; without one the settings are the defaults. Then the input is
/// read, and refused where it has more than 1,048,576 bytes. Of each text one byte past its limit is asked for, to tell that
/// it has one. A command that filters writes the input's purification under the settings and the rule of hosts that they give to
/// `out`; one that checks writes whether the input is a good fragment under them, and calls no pass of the filter; one for a scope
/// writes the input's style sheets, made safe, as one; a sample reads nothing, and its line is written: the bytes of the sample and of its purification under the defaults, and the sum of these. The answer
/// is the status that the program ends with (`Status`), and its line is written to `err`; a fault of `err` changes no status. The
/// whole text is computed before the first write to `out`, and from there on no memory is taken.
///
/// Clauses on texts hold where the shelf tells its texts and the streams tell what they take, as those in
/// memory do. Want of memory is the one answer without a cause.
pub fn run<H: Shelf, O: Sink, E: Sink>(
    alloc: Global,
    words: &[String],
    shelf: &mut H,
    out: &mut O,
    err: &mut E,
) -> u8
    // Which status comes.
    ensures status { (s : Status) × (result ≡ code_of s) }
    ensures words { result ≡ code_of Status.BadCommandLine → command_of (map string_bytes words.now) ≡ None }
    ensures no_command { command_of (map string_bytes words.now) ≡ None →
        (result ≡ code_of Status.OutOfMemory) ⊎ (result ≡ code_of Status.BadCommandLine) }
    ensures answered { ¬ Rose (H.faults shelf.old) (H.faults shelf.new) → ¬ Rose (O.faults out.old) (O.faults out.new) →
        IfSome (H.texts shelf.old) (λ texts. (result ≡ code_of Status.OutOfMemory)
        ⊎ HasStatus (answer_of (map string_bytes words.now) texts) result) }
    ensures refused { ¬ Rose (H.faults shelf.old) (H.faults shelf.new) → IfSome (H.texts shelf.old) (λ texts.
        (s : Status) → answer_of (map string_bytes words.now) texts ≡ refused s →
        (result ≡ code_of Status.OutOfMemory) ⊎ (result ≡ code_of s)) }

    // What each status says of the words and the texts.
    ensures done { result ≡ code_of Status.Done → IfSome (H.texts shelf.old) (λ texts.
        IsStatus (answer_of (map string_bytes words.now) texts) Status.Done) }
    ensures spelling_fault { result ≡ code_of Status.SpellingFault → IfSome (H.texts shelf.old) (λ texts.
        IsStatus (answer_of (map string_bytes words.now) texts) Status.SpellingFault) }
    ensures validity_fault { result ≡ code_of Status.ValidityFault → IfSome (H.texts shelf.old) (λ texts.
        IsStatus (answer_of (map string_bytes words.now) texts) Status.ValidityFault) }
    ensures settings_refused { result ≡ code_of Status.SettingsRefused → IfSome (H.texts shelf.old) (λ texts.
        answer_of (map string_bytes words.now) texts ≡ refused Status.SettingsRefused) }
    ensures too_long { result ≡ code_of Status.InputTooLong → IfSome (H.texts shelf.old) (λ texts.
        answer_of (map string_bytes words.now) texts ≡ refused Status.InputTooLong) }

    // What was written.
    ensures written { result ≡ code_of Status.Done → IfSome (H.texts shelf.old) (λ texts.
        O.taken out.new ≡ taken_more (O.taken out.old) (text_of (answer_of (map string_bytes words.now) texts) Status.Done)) }
    ensures written_spelling { result ≡ code_of Status.SpellingFault → IfSome (H.texts shelf.old) (λ texts.
        O.taken out.new ≡ taken_more (O.taken out.old) (text_of (answer_of (map string_bytes words.now) texts) Status.SpellingFault)) }
    ensures written_validity { result ≡ code_of Status.ValidityFault → IfSome (H.texts shelf.old) (λ texts.
        O.taken out.new ≡ taken_more (O.taken out.old) (text_of (answer_of (map string_bytes words.now) texts) Status.ValidityFault)) }
    ensures nothing { result ≢ code_of Status.Done → result ≢ code_of Status.SpellingFault →
        result ≢ code_of Status.ValidityFault → result ≢ code_of Status.CannotWrite → O.taken out.new ≡ O.taken out.old }
    ensures front { result ≡ code_of Status.CannotWrite → IfSome (H.texts shelf.old) (λ texts.
        TookFrontOf (answer_of (map string_bytes words.now) texts) (O.taken out.old) (O.taken out.new)) }

    // What a purification is.
    ensures spelled { result ≡ code_of Status.Done → IfSome (H.texts shelf.old) (λ texts.
        IfFilter (command_of (map string_bytes words.now)) (λ _.
        IsSpelled (text_of (answer_of (map string_bytes words.now) texts) Status.Done))) }
    ensures good { result ≡ code_of Status.Done → IfSome (H.texts shelf.old) (λ texts.
        IfFilter (command_of (map string_bytes words.now)) (λ names. IfSome (settings_named texts names.settings) (λ rules.
        IsGood rules (rule_of rules) (text_of (answer_of (map string_bytes words.now) texts) Status.Done)))) }
    ensures adds_no_text { result ≡ code_of Status.Done → IfSome (H.texts shelf.old) (λ texts.
        IfFilter (command_of (map string_bytes words.now)) (λ names. IfSome (settings_named texts names.settings) (λ rules.
        AddsNoText rules (rule_of rules) (text_named texts names.input)
        (text_of (answer_of (map string_bytes words.now) texts) Status.Done)))) }
    ensures ledger { result ≡ code_of Status.Done → IfSome (H.texts shelf.old) (λ texts.
        IfFilter (command_of (map string_bytes words.now)) (λ names. IfSome (settings_named texts names.settings) (λ rules.
        KeepsLedger rules (rule_of rules) (text_named texts names.input)
        (text_of (answer_of (map string_bytes words.now) texts) Status.Done)))) }
    ensures unchanged { result ≡ code_of Status.Done → IfSome (H.texts shelf.old) (λ texts.
        IfFilter (command_of (map string_bytes words.now)) (λ names. IfSome (settings_named texts names.settings) (λ rules.
        IsTrue (injects_nothing rules) → IsGood rules (rule_of rules) (text_named texts names.input) →
        text_of (answer_of (map string_bytes words.now) texts) Status.Done ≡ text_named texts names.input))) }
    ensures twice { result ≡ code_of Status.Done → IfSome (H.texts shelf.old) (λ texts.
        IfFilter (command_of (map string_bytes words.now)) (λ names. IfSome (settings_named texts names.settings) (λ rules.
        purified rules (rule_of rules) (text_of (answer_of (map string_bytes words.now) texts) Status.Done)
        ≡ text_of (answer_of (map string_bytes words.now) texts) Status.Done))) }

    // What a sheet is.
    ensures sheet_canonical { result ≡ code_of Status.Done → IfSome (H.texts shelf.old) (λ texts.
        IfSheet (command_of (map string_bytes words.now)) (λ scope names. IfSome (settings_named texts names.settings) (λ rules.
        IsCanonicalSheet rules (rule_of rules) (chars scope) (chars (text_of (answer_of (map string_bytes words.now) texts) Status.Done))))) }
    ensures sheet_plain { result ≡ code_of Status.Done → IfSome (H.texts shelf.old) (λ texts.
        IfSheet (command_of (map string_bytes words.now)) (λ _ _.
        IsTrue (list_all (λ c. not (c == 0x3C)) (chars (text_of (answer_of (map string_bytes words.now) texts) Status.Done))))) }
    ensures sheet_itself { result ≡ code_of Status.Done → IfSome (H.texts shelf.old) (λ texts.
        IfSheet (command_of (map string_bytes words.now)) (λ scope names. IfSome (settings_named texts names.settings) (λ rules.
        sheet_of rules (rule_of rules) (chars scope) (chars (text_of (answer_of (map string_bytes words.now) texts) Status.Done))
        ≡ chars (text_of (answer_of (map string_bytes words.now) texts) Status.Done)))) }
    ensures sheet_stays { result ≡ code_of Status.Done → IfSome (H.texts shelf.old) (λ texts.
        IfSheet (command_of (map string_bytes words.now)) (λ scope names. IfSome (settings_named texts names.settings) (λ rules.
        IsCanonicalSheet rules (rule_of rules) (chars scope) (styles_in (text_named texts names.input)) →
        chars (text_of (answer_of (map string_bytes words.now) texts) Status.Done) ≡ styles_in (text_named texts names.input)))) }

    // What a sample tells, whatever the shelf tells.
    ensures sampled { result ≡ code_of Status.Done → IfSample (command_of (map string_bytes words.now)) (λ pieces.
        O.taken out.new ≡ taken_more (O.taken out.old) (sample_line pieces)) }

    // The causes of the faults outside.
    ensures unwritten { result ≡ code_of Status.CannotWrite → Rose (O.faults out.old) (O.faults out.new) }
    ensures unread { result ≡ code_of Status.CannotRead → Rose (H.faults shelf.old) (H.faults shelf.new) }
    ensures unread_late { result ≡ code_of Status.CannotRead → Rose (H.mark shelf.new) (H.faults shelf.new) }
    ensures unread_named { result ≡ code_of Status.CannotRead →
        ChoseSettings (names_read (map string_bytes words.now)) (H.chosen shelf.new)
        ⊎ ChoseInput (names_read (map string_bytes words.now)) (H.chosen shelf.new) }
    ensures unread_refused { result ≡ code_of Status.CannotRead → IfSome (H.texts shelf.old) (λ texts.
        ChoseSettings (names_read (map string_bytes words.now)) (H.chosen shelf.new)
        ⊎ (answer_of (map string_bytes words.now) texts ≢ refused Status.SettingsRefused)) }
    ensures kept { result ≢ code_of Status.OutOfMemory → result ≢ code_of Status.CannotRead →
        H.faults shelf.new ≡ H.faults shelf.old }

    // How much is asked of the shelf, and what it keeps.
    ensures place { result ≢ code_of Status.OutOfMemory → IfSome (names_read (map string_bytes words.now)) (λ _.
        IfSome (H.texts shelf.old) (λ _. H.place shelf.new ≤ input_limit + 1)) }
    ensures place_refused { result ≡ code_of Status.SettingsRefused →
        IfSome (H.texts shelf.old) (λ _. H.place shelf.new ≤ settings_limit + 1) }
    ensures texts { H.texts shelf.new ≡ H.texts shelf.old }
    ensures unasked { IfSample (command_of (map string_bytes words.now)) (λ _. shelf.new ≡ shelf.old) }

    // The line on standard error.
    ensures line { TookLine (E.taken err.old) (E.taken err.new) result }
    ensures whole_line { Rose (E.faults err.old) (E.faults err.new) ⊎ TookWholeLine (E.taken err.old) (E.taken err.new) result }
{
    let status = match read_words(alloc, words) {
        Ok(Some(command)) => obey(alloc, command, shelf, out),
        Ok(None) => Status::BadCommandLine,
        Err(_) => Status::OutOfMemory,
    };
    complain(err, status.line().as_bytes());
    status.code()
}

// Obeys a command: its answer is computed whole, and then its text is written.
fn obey<H: Shelf, O: Sink>(alloc: Global, command: Command, shelf: &mut H, out: &mut O) -> Status
    requires { IfSheet (Some (plain_command command)) (λ scope _. is_scope (chars scope) ≡ true) }
    ensures { Ends H.Shelf O.Sink (plain_command command) shelf.old shelf.new out.old out.new result }
{
    match answer_to(alloc, command, shelf) {
        Ok(answer) => match write_all(out, answer.text.as_slice()) {
            Ok(()) => answer.status,
            Err(Failed) => Status::CannotWrite,
        },
        Err(status) => status,
    }
}
