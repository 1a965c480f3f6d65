//! The commands of a shell, as `clap` reads them.
ghost use Rattle.std.specs.Prelude.{◌≡◌, IfSome, None};
ghost use Rattle.rv_words.specs.Listed.{listed_app};
ghost use Rattle.clap.specs.Words.{Text};
ghost use Rattle.rv_words.specs.shell.Faults.{IsNoPlace, IsNoValue};
ghost use Rattle.rv_words.specs.shell.Words.{NeedsValue, place_value, shell_app, shell_word};

use crate::listed::{FLAG, ListedCommand, ListedOption, NEEDED, OPTIONAL};
use crate::shell::value::ShellValue;

/// A command of a shell.
#[derive(Clone, Copy)]
pub enum ShellWord {
    /// `rv put QUEUE ITEM`.
    Put,
    /// `rv take QUEUE`.
    Take,
    /// `rv transfer QUEUE ITEM`.
    Transfer,
    /// `rv drain QUEUE --max N`.
    Drain,
    /// `rv count QUEUE`.
    Count,
    /// `rv peek QUEUE`.
    Peek,
    /// `rv swap EXCHANGER ITEM`.
    Swap,
    /// `rv bench QUEUE`.
    Bench,
}

impl ShellWord {
    /// The command of this word.
    pub(crate) fn of_text(text: &str) -> Option<ShellWord>
        ensures some { IfSome result (λ word. text.now ≡ shell_word word) }
        ensures none { result ≡ None → (word : ShellWord) → ¬ (text.now ≡ shell_word word) }
    {
        match text {
            "put" => Some(ShellWord::Put),
            "take" => Some(ShellWord::Take),
            "transfer" => Some(ShellWord::Transfer),
            "drain" => Some(ShellWord::Drain),
            "count" => Some(ShellWord::Count),
            "peek" => Some(ShellWord::Peek),
            "swap" => Some(ShellWord::Swap),
            "bench" => Some(ShellWord::Bench),
            _ => None,
        }
    }

    /// What help calls it.
    pub(crate) fn called(self) -> &'static str {
        match self {
            ShellWord::Put => "rv put",
            ShellWord::Take => "rv take",
            ShellWord::Transfer => "rv transfer",
            ShellWord::Drain => "rv drain",
            ShellWord::Count => "rv count",
            ShellWord::Peek => "rv peek",
            ShellWord::Swap => "rv swap",
            ShellWord::Bench => "rv bench",
        }
    }

    /// How it is listed.
    pub(crate) fn listed(self) -> &'static ListedCommand
        ensures { listed_app result.now ≡ shell_app self }
    {
        match self {
            ShellWord::Put => &PUT,
            ShellWord::Take => &TAKE,
            ShellWord::Transfer => &TRANSFER,
            ShellWord::Drain => &DRAIN,
            ShellWord::Count => &COUNT,
            ShellWord::Peek => &PEEK,
            ShellWord::Swap => &SWAP,
            ShellWord::Bench => &BENCH,
        }
    }

    /// The value that tells where it does what it does.
    pub(crate) fn place(self) -> ShellValue
        ensures value { result ≡ place_value self }
        ensures needed { NeedsValue self result }
        ensures outside { (text : Text) → IsNoPlace text → IsNoValue result text }
    {
        match self {
            ShellWord::Swap => ShellValue::Exchanger,
            _ => ShellValue::Place,
        }
    }
}

// The options and values of the commands.
const QUEUE: ListedOption = ListedOption {
    name: "QUEUE",
    positional: true,
    help: "Its number, 0 to 63",
    ..NEEDED
};

const EXCHANGER: ListedOption = ListedOption {
    name: "EXCHANGER",
    positional: true,
    help: "Its number, 0 to 63",
    ..NEEDED
};

const ITEM: ListedOption = ListedOption {
    name: "ITEM",
    positional: true,
    help: "The text that is handed over, at most 512 bytes",
    ..NEEDED
};

const ITEM_OR_LINES: ListedOption = ListedOption {
    name: "ITEM",
    positional: true,
    help: "The text that is handed over, at most 512 bytes, or - for each line of standard input",
    ..NEEDED
};

const WAIT: ListedOption = ListedOption {
    name: "wait",
    values: &["TIME"],
    help: "How long, as 500ms, 10s or 2m, 0s not at all [default: until it is met]",
    ..OPTIONAL
};

const MAX: ListedOption = ListedOption {
    name: "max",
    values: &["N"],
    help: "How many at most, 1 to 16",
    ..NEEDED
};

const CONNECT: ListedOption = ListedOption {
    name: "connect",
    values: &["ADDR"],
    help: "The server [default: RV_SERVER, or else 127.0.0.1:7411]",
    ..OPTIONAL
};

const NULL: ListedOption = ListedOption {
    name: "null",
    help: "End what is printed with a zero byte in place of LF",
    ..FLAG
};

const JSON: ListedOption = ListedOption {
    name: "json",
    help: "Print the body of the reply",
    ..FLAG
};

const PUT: ListedCommand = ListedCommand {
    name: "put",
    about: "Put an item into a queue, as in: rv put 3 'job 1'",
    options: &[QUEUE, ITEM_OR_LINES, CONNECT, NULL, JSON],
};

const TAKE: ListedCommand = ListedCommand {
    name: "take",
    about: "Take the oldest item of a queue, and print it, as in: rv take 3 --wait 10s",
    options: &[QUEUE, WAIT, CONNECT, NULL, JSON],
};

const TRANSFER: ListedCommand = ListedCommand {
    name: "transfer",
    about: "Hand an item over to a consumer, and print who took it, as in: rv transfer 3 'job 1' --wait 1m",
    options: &[QUEUE, ITEM, WAIT, CONNECT, NULL, JSON],
};

const DRAIN: ListedCommand = ListedCommand {
    name: "drain",
    about: "Take the oldest items of a queue in one step, and print them, as in: rv drain 3 --max 16",
    options: &[QUEUE, MAX, CONNECT, NULL, JSON],
};

const COUNT: ListedCommand = ListedCommand {
    name: "count",
    about: "Count the items and the consumers that wait at a queue, as in: rv count 3",
    options: &[QUEUE, CONNECT, NULL, JSON],
};

const PEEK: ListedCommand = ListedCommand {
    name: "peek",
    about: "Print the oldest item of a queue, which stays, as in: rv peek 3",
    options: &[QUEUE, CONNECT, NULL, JSON],
};

const SWAP: ListedCommand = ListedCommand {
    name: "swap",
    about: "Swap an item at an exchanger, and print the other one, as in: rv swap 0 mine",
    options: &[EXCHANGER, ITEM, WAIT, CONNECT, NULL, JSON],
};

const BENCH: ListedCommand = ListedCommand {
    name: "bench",
    about: "Measure puts, takes and hand-overs a second at a queue where nothing waits, as in: rv bench 63",
    options: &[QUEUE, CONNECT],
};
