//! The values that a shell's commands have.
ghost use Rattle.std.specs.Prelude.{◌≡◌};
ghost use Rattle.rv_words.specs.shell.Words.{value_word};

/// A value of a shell's command.
#[derive(Clone, Copy)]
pub enum ShellValue {
    /// The queue, 0 to 63.
    Place,
    /// The exchanger, 0 to 63.
    Exchanger,
    /// The item, at most 512 bytes.
    Item,
    /// How long the call waits, at most a day.
    Wait,
    /// How many items a drain takes at most, 1 to 16.
    Max,
}

impl ShellValue {
    /// Its name among the words.
    pub(crate) fn word(self) -> &'static str
        ensures { result.now ≡ value_word self }
    {
        match self {
            ShellValue::Place => "QUEUE",
            ShellValue::Exchanger => "EXCHANGER",
            ShellValue::Item => "ITEM",
            ShellValue::Wait => "wait",
            ShellValue::Max => "max",
        }
    }

    /// The same with its dashes, as it is written.
    pub(crate) fn shown(self) -> &'static str {
        match self {
            ShellValue::Place => "QUEUE",
            ShellValue::Exchanger => "EXCHANGER",
            ShellValue::Item => "ITEM",
            ShellValue::Wait => "--wait",
            ShellValue::Max => "--max",
        }
    }

    /// What it may be, for whoever wrote another value.
    pub(crate) fn limits(self) -> &'static str {
        match self {
            ShellValue::Place | ShellValue::Exchanger => "0 to 63",
            ShellValue::Item => "at most 512 bytes",
            ShellValue::Wait => "a number and ms, s, m or h, at most a day",
            ShellValue::Max => "1 to 16",
        }
    }
}
