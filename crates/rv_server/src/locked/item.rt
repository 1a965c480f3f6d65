//! The kinds of body that answer a frame.

/// The kind of body that answered a frame.
#[derive(Clone, Copy)]
pub enum Item {
    /// That of refusal 1: the frame's own body isn't a message.
    BadText,
    /// That of refusal 11: memory was refused for reading the frame's body or for the answer's text.
    NoMemory,
    /// That of the answer for which the frame's last stamp stands.
    Said,
}
