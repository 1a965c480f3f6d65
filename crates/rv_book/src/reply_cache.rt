//! What is kept of each client's reply: the places of the account where its texts stand.

mod naming;
mod table;
mod texts;

pub use naming::{kept_again, source};
pub use table::KeptReplies;
pub use texts::{partners_items, reply};
