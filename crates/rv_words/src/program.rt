//! The program's commands and their options, as `clap` reads them.
ghost use Rattle.std.specs.Prelude.{◌≡◌, [], IfOk, IsErrOf};
ghost use Rattle.clap.specs.Words.{app_of, fault_of, subcommand_of, subcommand_rows_of};
ghost use Rattle.clap.specs.Walk.{texts};
ghost use Rattle.rv_words.specs.Program.{rv_app};

use crate::fault::CommandFault;
use crate::listed::{ListedCommand, ListedOption, NEEDED, named, with_commands};
use crate::reading::taken;
use clap::{ArgMatches, Command};
use std::alloc::{AllocError, Global};

/// The words as `clap` reads them for the program, the program's name first.
pub fn matches_of<'a>(alloc: Global, words: &'a [&'a str]) -> Result<ArgMatches<'a>, CommandFault>
    ensures taken { IfOk result (λ _. fault_of rv_app (texts words.entry.now) ≡ []) }
    ensures found { IfOk result (λ m.
        subcommand_rows_of m ≡ subcommand_of rv_app (texts words.entry.now)) }
    ensures bad { IsErrOf result CommandFault.Bad
        → ¬ (fault_of rv_app (texts words.entry.now) ≡ []) }
{
    taken(program(alloc)?, words)
}

/// The program, as clap reads it.
pub(crate) fn program<'a>(alloc: Global) -> Result<Command<'a>, AllocError>
    ensures { IfOk result (λ c. app_of c ≡ rv_app) }
{
    with_commands(alloc, named(alloc, "rv", ABOUT), COMMANDS)
}

// What help says of it, and at greater length of some others.
const ABOUT: &str =
    "A rendezvous server: hands items from program to program, and tells each what came of it";

const END_ABOUT: &str =
    "End the requests that have waited for so long with no connection, by hellos of greater incarnations";

const OLDER_HELP: &str =
    "For how long, as 60s or 10m: longer than clients take to connect anew, else these lose theirs";

// Its commands, each with the options that have to be given.
const COMMANDS: &[ListedCommand] = &[
    ListedCommand {
        name: "book",
        about: "Run the messages of standard input through a book, and print the answers",
        options: &[ListedOption {
            name: "epoch",
            help: "The epoch, 1 to 9,007,199,254,740,991: greater at each start",
            ..NEEDED
        }],
    },
    ListedCommand {
        name: "play",
        about: "Act out the events of standard input, over links that lose and delay",
        options: &[],
    },
    ListedCommand {
        name: "audit",
        about: "Audit the account on standard input",
        options: &[],
    },
    ListedCommand {
        name: "serve",
        about: "Serve a number of connections, and print the account at the end",
        options: &[
            ListedOption {
                name: "listen",
                help: "Where it listens, as 127.0.0.1:7411",
                ..NEEDED
            },
            ListedOption {
                name: "epoch",
                help: "The epoch, 1 to 9,007,199,254,740,991: greater at each start",
                ..NEEDED
            },
            ListedOption {
                name: "workers",
                help: "How many connections are served at once, 1 to 64",
                ..NEEDED
            },
            ListedOption {
                name: "connections",
                help: "How many connections come before it ends",
                ..NEEDED
            },
        ],
    },
    ListedCommand {
        name: "call",
        about: "Make the calls of standard input, one a line, and print the replies",
        options: &[
            ListedOption {
                name: "connect",
                help: "Where the server listens",
                ..NEEDED
            },
            ListedOption {
                name: "client",
                help: "The client's number, 1 to 9,007,199,254,740,991",
                ..NEEDED
            },
            ListedOption {
                name: "incarnation",
                help: "The client's incarnation: greater at each start",
                ..NEEDED
            },
            ListedOption {
                name: "tries",
                help: "How often each message is sent, at most",
                ..NEEDED
            },
            ListedOption {
                name: "speak",
                help: "The version of the messages, 1 or 2",
                ..NEEDED
            },
        ],
    },
    ListedCommand {
        name: "end",
        about: END_ABOUT,
        options: &[
            ListedOption {
                name: "status",
                help: "Where the server tells how it is",
                ..NEEDED
            },
            ListedOption {
                name: "connect",
                help: "Where the server listens",
                ..NEEDED
            },
            ListedOption {
                name: "older",
                help: OLDER_HELP,
                ..NEEDED
            },
        ],
    },
];
