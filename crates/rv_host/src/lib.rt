//! The long-running server, `rv host`: one thread and one poll around an engine.
//!
//! ```
//! // rv host --listen 127.0.0.1:7411 --account account.txt
//! let words = ["host", "--listen", "127.0.0.1:7411", "--account", "account.txt"];
//! let status = run_host(rt, &words); // runs until it is killed or can't go on
//! ```
#![tactic(auto)]

mod door;
mod fault;
mod host;
mod look_over;
mod memory_watch;
mod reception;
mod report;
mod reserve;
mod shell;
mod start;
mod status;
mod tally;
mod turn_clock;

pub use host::run_host;
