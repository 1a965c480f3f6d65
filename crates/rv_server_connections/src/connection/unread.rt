//! The unread bytes of a connection: one frame at most.
ghost use Rattle.std.specs.Prelude.{◌≡◌, ◌+◌, ◌*◌, ◌≤◌, ◌++◌, [], length};
ghost use Rattle.rv_server_connections.specs.connection.Traffic.{IsComing};
ghost use Rattle.rv_server_connections.specs.connection.Fields.{IsBegun, LeavesOne, told_size};

use std::alloc::Global;

/// What the unread bytes say of a frame.
#[derive(Clone, Copy)]
pub enum Coming<'a> {
    /// Less than a frame, or nothing.
    Part,
    /// A whole frame, of this body.
    Frame(&'a [u8]),
    /// The length 0, which no frame has.
    BadLength,
}

// A buffer that is let go keeps at most so many bytes of room.
pub(crate) const KEPT_BYTES: usize = 192;

// The size of a frame of this length: with its two length bytes.
fn size_of(high: u8, low: u8) -> usize
    ensures { result ≡ 256 * high + low + 2 }
{
    256 * high as usize + low as usize + 2
}

// The size of the frame that begins the bytes, if they have its length.
fn size_in(bytes: &[u8]) -> Option<usize>
    ensures { result ≡ told_size bytes.now }
{
    match bytes {
        [high, low, ..] => Some(size_of(*high, *low)),
        _ => None,
    }
}

// The size of the frame that the unread bytes and a piece after them begin, if they have its length.
fn size_over(unread: &[u8], piece: &[u8]) -> Option<usize>
    ensures { result ≡ told_size (unread.now ++ piece.now) }
{
    match unread {
        [] => size_in(piece),
        [high] => match piece {
            [] => None,
            [low, ..] => Some(size_of(*high, *low)),
        },
        [high, low, ..] => Some(size_of(*high, *low)),
    }
}

/// How many bytes of a piece are put after the unread ones, so that they are one frame at most.
pub(crate) fn wanted(unread: &[u8], piece: &[u8]) -> usize
    requires { IsBegun unread.now }
    ensures { LeavesOne unread.now piece.now result }
{
    match size_over(unread, piece) {
        None => piece.len(),
        Some(size) => piece.len().min(size - unread.len()),
    }
}

/// What the unread bytes are.
pub(crate) fn told(unread: &[u8]) -> Coming<'_>
    requires { IsBegun unread.now }
    ensures { IsComing unread.now result }
{
    let [high, low, body @ ..] = unread else {
        return Coming::Part;
    };
    let length = 256 * *high as usize + *low as usize;
    if length == 0 {
        Coming::BadLength
    } else if body.len() < length {
        Coming::Part
    } else {
        Coming::Frame(body)
    }
}

/// Lets go of all bytes, and of the buffer too if it is large.
pub(crate) fn clear(bytes: &mut Vec<u8>)
    ensures { bytes.new.items ≡ [] }
{
    if bytes.capacity() > KEPT_BYTES {
        *bytes = Vec::new(*bytes.allocator());
    } else {
        bytes.clear();
    }
}
