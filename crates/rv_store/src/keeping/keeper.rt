//! What keeps the account of a server.
use rv_frame::Lasting;
use std::io;

/// What keeps the account of a server: the lines of each turn go there, by [`Lasting::store`].
pub trait Keeper: Lasting {
    /// Whether this many more bytes may be written to it. One that has a bound of its own says yes.
    fn takes(&self, count: u64) -> bool;

    /// How many bytes of text it has.
    fn bytes(&self) -> u64;

    /// Whether its file is still in its place, and as it was left, as the system says.
    fn is_kept(&self, rt: &HostRuntime) -> bool;

    /// The name of its file.
    fn name(&self) -> &str;

    /// The start failed: an account that was begun in a file of its own is undone. One in a store stays, and
    /// a later start goes on with it.
    fn leave(&self, rt: &HostRuntime);

    /// Why it took nothing at the last call, as the system says, if no other call was made since.
    fn cause(&self) -> io::Error;
}
