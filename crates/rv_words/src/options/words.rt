//! The command `host`, as `clap` reads it.
ghost use Rattle.std.specs.Prelude.{◌≡◌, false, IfOk};
ghost use Rattle.clap.specs.Words.{app_of};
ghost use Rattle.clap.specs.declared.Command.TheViews.{out-Command};
ghost use Rattle.rv_words.specs.options.Words.{host_app};

use crate::listed::{FLAG, ListedCommand, ListedOption, NEEDED, OPTIONAL, listed_command};
use clap::Command;
use std::alloc::{AllocError, Global};

/// The command `host` with its options, their defaults, and their help.
pub fn host_words<'a>(alloc: Global) -> Result<Command<'a>, AllocError>
    ensures app { IfOk result (λ c. app_of c ≡ host_app) }
    ensures local { IfOk result (λ c. (out-Command c).has_globals ≡ false) }
{
    listed_command(alloc, &HOST)?.bin_name("rv host")
}

const HOST: ListedCommand = ListedCommand {
    name: "host",
    about: "Serve a book until the server is killed; with a store the next start goes on",
    options: OPTIONS,
};

const OPTIONS: &[ListedOption] = &[
    ListedOption {
        name: "listen",
        values: &["ADDR"],
        help: "Where it listens",
        ..NEEDED
    },
    ListedOption {
        name: "account",
        values: &["FILE"],
        help: "A new file, to which each entry is written before it is answered",
        ..OPTIONAL
    },
    ListedOption {
        name: "store",
        values: &["FOLDER"],
        help: "A folder in which the account is kept: a later start goes on from it",
        ..OPTIONAL
    },
    ListedOption {
        name: "status",
        values: &["ADDR"],
        help: "Where it tells over HTTP how it is",
        ..OPTIONAL
    },
    ListedOption {
        name: "status-name",
        values: &["NAME"],
        help: "The name that is asked there, or names with commas between them, beside any address",
        ..OPTIONAL
    },
    ListedOption {
        name: "epoch",
        values: &["N"],
        help: "The epoch [default: the clock's milliseconds]",
        ..OPTIONAL
    },
    ListedOption {
        name: "epoch-above",
        values: &["N"],
        help: "The clock's milliseconds, but above this, for a clock that may go back",
        ..OPTIONAL
    },
    ListedOption {
        name: "new-epoch",
        help: "Begin a new epoch in the store",
        ..FLAG
    },
    ListedOption {
        name: "no-sync",
        help: "Answer before the store is synced: a kill loses nothing, a machine that dies may",
        ..FLAG
    },
    ListedOption {
        name: "boot",
        values: &["ID"],
        help: "The machine's boot [default: what the system says]",
        ..OPTIONAL
    },
    ListedOption {
        name: "clients",
        values: &["N"],
        usual: &["65536"],
        help: "How many clients it takes",
        ..OPTIONAL
    },
    ListedOption {
        name: "open",
        values: &["N"],
        usual: &["100000"],
        help: "How many items and requests may be open",
        ..OPTIONAL
    },
    ListedOption {
        name: "connections",
        values: &["N"],
        usual: &["10000"],
        help: "How many connections are open at once; others wait",
        ..OPTIONAL
    },
    ListedOption {
        name: "connections-from",
        values: &["N"],
        usual: &["1000000"],
        help: "How many of them one address has; one more is closed",
        ..OPTIONAL
    },
    ListedOption {
        name: "memory",
        values: &["N"],
        usual: &["256"],
        help: "MiB for the bytes of all connections; who holds most is closed first",
        ..OPTIONAL
    },
    ListedOption {
        name: "idle",
        values: &["N"],
        usual: &["3600"],
        help: "Seconds until a connection ends that says nothing and waits for nothing",
        ..OPTIONAL
    },
    ListedOption {
        name: "stall",
        values: &["N"],
        usual: &["30"],
        help: "Seconds until one ends in the middle of a frame, or whose peer takes no answer",
        ..OPTIONAL
    },
    ListedOption {
        name: "quiet",
        help: "Print nothing but what ends it",
        ..FLAG
    },
];
