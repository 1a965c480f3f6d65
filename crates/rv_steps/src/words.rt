//! Reads what the program is to do from its words.
ghost use Rattle.std.specs.Prelude.{IfSome};
ghost use Rattle.rv_account.specs.rules.StepLimits.{AreStepLimits};

use rv_account::rules::Limits;
use rv_text::{read_identifier, read_number};

/// What is done under limits.
#[derive(Drop)]
pub(crate) struct Work {
    /// Those of each step.
    pub(crate) limits: Limits,
    /// What is done.
    pub(crate) task: Task,
}

/// What is done.
#[derive(Drop)]
pub(crate) enum Task {
    /// The lines of standard input are handed to what begins so.
    Lines(Beginning),
    /// A machine takes so many turns of its own.
    Turns(u64),
}

/// How that begins to which lines are handed.
#[derive(Drop)]
pub(crate) enum Beginning {
    /// As a machine.
    Machine {
        /// Whether it is made anew after each line.
        anew: bool,
    },
    /// As a hub.
    Hub {
        /// For how many milliseconds a request waits before the answer says that it does.
        patience: u32,
        /// Whether it hears what was written.
        has_journal: bool,
    },
}

/// Whether the words after the program's name ask for JSON to be written back.
pub(crate) fn is_json(words: &[String]) -> bool {
    words.len() == 2 && is_word(&words[1], "json")
}

/// Whether the words after the program's name ask what bodies are read as.
pub(crate) fn is_bodies(words: &[String]) -> bool {
    words.len() == 2 && is_word(&words[1], "bodies")
}

/// The file that the words after the program's name name as a journal, if they do.
pub(crate) fn journal_of(words: &[String]) -> Option<&str> {
    (words.len() == 3 && is_word(&words[1], "journal")).then(|| words[2].as_str())
}

/// The folder that the words after the program's name name as a store, and the epoch, if they do.
pub(crate) fn store_of(words: &[String]) -> Option<(&str, u64)> {
    if words.len() != 4 || !is_word(&words[1], "store") {
        return None;
    }
    let epoch = read_identifier(words[3].as_bytes())?;
    Some((words[2].as_str(), epoch))
}

/// What the words after the program's name ask to be done under limits, if they do.
pub(crate) fn work_of(words: &[String]) -> Option<Work>
    ensures { IfSome result (λ work. AreStepLimits work.limits) }
{
    if words.len() < 5 {
        return None;
    }
    let task = task_of(&words[1], &words[5..])?;
    let limits = limits_of(&words[2], &words[3], &words[4])?;
    Some(Work { limits, task })
}

// What the first word names, with the words after its limits.
fn task_of(word: &str, more: &[String]) -> Option<Task> {
    if is_word(word, "machine") {
        return task_of_machine(more);
    }
    if is_word(word, "hub") {
        return task_of_hub(more);
    }
    None
}

// What a machine does.
fn task_of_machine(more: &[String]) -> Option<Task> {
    match more.len() {
        0 => Some(Task::Lines(Beginning::Machine { anew: false })),
        1 => is_word(&more[0], "anew").then_some(Task::Lines(Beginning::Machine { anew: true })),
        2 if is_word(&more[0], "turns") => Some(Task::Turns(read_number(more[1].as_bytes())?)),
        _ => None,
    }
}

// What a hub does.
fn task_of_hub(more: &[String]) -> Option<Task> {
    if more.len() != 2 {
        return None;
    }
    Some(Task::Lines(Beginning::Hub {
        patience: u32::try_from(read_number(more[0].as_bytes())?).ok()?,
        has_journal: read_journal(&more[1])?,
    }))
}

// Whether a word names a journal.
fn read_journal(word: &str) -> Option<bool> {
    if is_word(word, "journal") {
        return Some(true);
    }
    is_word(word, "none").then_some(false)
}

// The limits that words name, if a step may have them.
fn limits_of(entries: &str, clients: &str, bound: &str) -> Option<Limits>
    ensures { IfSome result AreStepLimits }
{
    let entries = read_size(entries.as_bytes())?;
    let clients = read_size(clients.as_bytes())?;
    Limits::new(entries, clients, read_bound(bound)?)
}

// The bound on open places that a word names, or that there is none.
fn read_bound(word: &str) -> Option<Option<usize>> {
    if is_word(word, "none") {
        return Some(None);
    }
    Some(Some(read_size(word.as_bytes())?))
}

// Whether a word is this one.
fn is_word(word: &str, other: &str) -> bool {
    word == other
}

/// The number that a word writes.
pub(crate) fn read_size(word: &[u8]) -> Option<usize> {
    Some(read_number(word)? as usize)
}
