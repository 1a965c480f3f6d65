//! Audits an account: whether it is legal, and if not, which rule is broken first, and at which entry.
//!
//! Each entry is checked after those before it have passed.
//!
//! ```rust
//! match audit(alloc, &account)? {
//!     Audit::Legal => println!("legal"),
//!     Audit::Fault { place, rule } => println!("entry {place} breaks {}", rule.name()),
//! }
//! ```
#![tactic(auto)]

mod auditing;
mod brings;
mod front;
pub mod laws;
mod lines;
mod marks;
mod opens;
mod outcome;
mod rule;
mod rules;
mod sessions;

pub use auditing::audit;
pub use front::Front;
pub use outcome::Audit;
pub use rule::Rule;
pub use rules::first_broken;
