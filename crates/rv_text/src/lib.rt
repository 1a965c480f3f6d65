//! The messages, answers and calls of the rendezvous server, and the JSON bodies that carry them.
//!
//! ```
//! match decode_message(alloc, bytes) {
//!     Ok(Message::Request { key, call }) => ask(key, call),
//!     Ok(message) => hear(message),
//!     Err(_) => write(bad_text_body()),
//! }
//!
//! let body: String = encode_answer(alloc, &Answer::Replied { key, reply: Reply::Done })?;
//! ```
#![tactic(auto)]

mod answer;
mod call;
mod decode;
mod encode;
pub mod laws;
mod members;
mod message;
mod number;
mod version;

pub use answer::{Answer, MAX_COUNTED, Refusal, Reply};
pub use call::{Call, MAX_EXCHANGER, MAX_QUEUE, MAX_WAIT, Side, Wait};
pub use decode::{decode_answer, decode_call, decode_message};
pub use encode::{
    BAD_TEXT_BODY, NO_MEMORY_BODY, bad_text_body, encode_answer, encode_answer_in, encode_call,
    encode_message, encode_reply_in, encode_request, no_memory_body,
};
pub use message::{Key, MAX_IDENTIFIER, Message, fits_identifier};
pub use number::{read_between, read_identifier, read_number, read_plain};
pub use rv_json::{Item, Items, MAX_BODY_BYTES, MAX_DRAIN, NoMemory, TextFault};
pub use version::Version;
