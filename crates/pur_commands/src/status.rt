// The status that a run ends with, its line on standard error, and the word that a check writes.
ghost use Rattle.std.specs.Prelude.{◌≡◌};
ghost use Rattle.pur_commands.specs.Statuses.{code_of, line_of, report_of};
ghost use Rattle.pur_commands.specs.declared.status.Status.TheVariants.{OutOfMemory};

use std::alloc::AllocError;

/// How a run ended.
#[derive(Clone, Copy, PartialEq, Eq, Debug)]
pub enum Status {
    /// The text was written whole; the input of a check is a good fragment.
    Done,
    /// Want of memory; nothing was written.
    OutOfMemory,
    /// The words of the command line name no command.
    BadCommandLine,
    /// A check: no nodes within the level limit are spelled as the input.
    SpellingFault,
    /// A check: nodes are spelled as the input, but they aren't valid under the settings.
    ValidityFault,
    /// The settings text has more than 65,536 bytes, or an offence.
    SettingsRefused,
    /// The input has more than 1,048,576 bytes.
    InputTooLong,
    /// The settings text or the input could not be read.
    CannotRead,
    /// The text could not be written, or not all of it.
    CannotWrite,
}

impl Status {
    /// The number that the program ends with.
    pub fn code(self) -> u8
        ensures { result ≡ code_of self }
    {
        match self {
            Status::Done => 0,
            Status::OutOfMemory => 1,
            Status::BadCommandLine => 2,
            Status::SpellingFault => 3,
            Status::ValidityFault => 4,
            Status::SettingsRefused => 5,
            Status::InputTooLong => 6,
            Status::CannotRead => 7,
            Status::CannotWrite => 8,
        }
    }

    /// The line on standard error, with its line feed; empty where the text was written whole.
    pub fn line(self) -> &'static str
        ensures { result.now ≡ line_of self }
    {
        match self {
            Status::Done => "",
            Status::OutOfMemory => "purify: out of memory\n",
            Status::BadCommandLine => "purify: bad command line\n",
            Status::SpellingFault => "",
            Status::ValidityFault => "",
            Status::SettingsRefused => "purify: settings refused\n",
            Status::InputTooLong => "purify: input too long\n",
            Status::CannotRead => "purify: cannot read\n",
            Status::CannotWrite => "purify: cannot write\n",
        }
    }

    /// What a check writes that finds so, with its line feed; empty for the other statuses.
    pub fn report(self) -> &'static str
        ensures { result.now ≡ report_of self }
    {
        match self {
            Status::Done => "good\n",
            Status::SpellingFault => "spelling\n",
            Status::ValidityFault => "validity\n",
            Status::OutOfMemory
            | Status::BadCommandLine
            | Status::SettingsRefused
            | Status::InputTooLong
            | Status::CannotRead
            | Status::CannotWrite => "",
        }
    }
}

impl From<AllocError> for Status {
    ghost from_gives = { λ _ status. status ≡ OutOfMemory };

    fn from(_error: AllocError) -> Status {
        Status::OutOfMemory
    }
}
