//! Reads and writes the JSON of a body: an object's members by name, and the value that has exactly these
//! members.
//!
//! ```
//! let message = decode::<Message>(alloc, bytes)?;
//!
//! let mut text = ObjectText::new(alloc)?;
//! text.put_whole("code", 1)?;
//! text.put_text("kind", "refused")?;
//! let body: String = text.finish()?;
//! ```
#![tactic(auto)]

mod body;
mod fault;
mod flat;
mod item;
mod items;
mod list;
mod members;
mod pair;
mod scan;
mod value;
mod writer;

pub use body::{Body, decode};
pub use fault::{NoMemory, TextFault};
pub use flat::{FlatMember, Plain};
pub use item::{Item, MAX_ITEM_BYTES};
pub use items::{Items, MAX_DRAIN};
pub use members::{Members, find_text, find_whole, read_text, read_whole, take_item, take_texts};
pub use pair::two_objects;
pub use value::{MAX_BODY_BYTES, read_value};
pub use writer::ObjectText;
