//! The rules of accounts: which ones are legal, which reply a request has, and what a step of the book does.
//!
//! They are definitions, which contracts cite. In memory there are only the [`Limits`] of a step.
//!
//! ```
//! ghost use Rattle.rv_account.specs.rules.Legal.{Legal};
//!
//! pub fn account(&self) -> &Account
//!     ensures same { result.now.account ≡ self.now }
//!     ensures legal { Legal self.now }
//! ```

mod limits;

pub use limits::{Limits, MOST_KNOWN};
