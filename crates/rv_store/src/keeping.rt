//! Keeps the account of a server: in a file of its own, or in a store from which a later server goes on.
//!
//! ```
//! let start = enter(rt, "work", rules, wall)?;
//! let file = begin_file(rt, "account.txt", 1, u64::MAX)?;
//! ```

mod account_file;
mod boot;
mod checkpoint;
mod fault;
mod file_start;
mod keeper;
mod place;
mod rules;
mod store_account;
mod store_start;

pub use account_file::AccountFile;
pub use checkpoint::{
    CheckpointName, StateFault, checkpoints_in, is_checkpoint_of, make_checkpoint, write_state,
};
pub use fault::KeepFault;
pub use file_start::begin_file;
pub use keeper::Keeper;
pub use rules::StoreRules;
pub use store_account::StoreAccount;
pub use store_start::{StoreStart, enter};
