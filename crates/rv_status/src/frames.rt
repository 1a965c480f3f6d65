//! How many whole frames come over a connection: the two bytes of each one's length are read, and its body
//! is skipped.
ghost use Rattle.std.specs.Prelude.{◌≡◌, ◌≤◌, ◌<◌, ◌+◌, drop, length};
ghost use Rattle.std.specs.Prelude.{cond};
ghost use Rattle.rv_status.specs.Frames.{after, ends, is_between, of_length};

/// What came last over a connection.
#[derive(Clone, Copy)]
pub enum FrameMeter {
    /// A whole frame, or nothing yet.
    Between,
    /// The first byte of a frame's length.
    Length(u8),
    /// A part of a frame, whose body lacks this many bytes and one more.
    Body(usize),
}

impl FrameMeter {
    // After the length of a frame.
    fn of_length(length: usize) -> FrameMeter
        ensures { result ≡ of_length length }
    {
        if length == 0 {
            return FrameMeter::Between;
        }
        FrameMeter::Body(length - 1)
    }

    // Whether no part of a frame came last.
    fn is_between(self) -> bool
        ensures { result ≡ is_between self }
    {
        match self {
            FrameMeter::Between => true,
            FrameMeter::Length(_) => false,
            FrameMeter::Body(_) => false,
        }
    }

    // The next byte of a length came, or bytes up to the end of a body. Returns how many.
    fn step(&mut self, rest: &[u8]) -> usize
        requires { 0 < length rest.now }
        ensures some { 1 ≤ result }
        ensures within { result ≤ length rest.now }
        ensures after { after self.old rest.now ≡ after self.new (drop result rest.now) }
        ensures ends { ends self.old rest.now
            ≡ cond (is_between self.new) 1 0 + ends self.new (drop result rest.now) }
    {
        match *self {
            FrameMeter::Between => {
                *self = FrameMeter::Length(rest[0]);
                1
            }
            FrameMeter::Length(high) => {
                *self = FrameMeter::of_length(high as usize * 256 + rest[0] as usize);
                1
            }
            FrameMeter::Body(more) if more < rest.len() => {
                *self = FrameMeter::Between;
                more + 1
            }
            FrameMeter::Body(more) => {
                *self = FrameMeter::Body(more - rest.len());
                rest.len()
            }
        }
    }

    /// A piece came. Returns how many frames end in it; a length of 0 is that of a frame with no body.
    pub fn pass(&mut self, piece: &[u8]) -> usize
        ensures after { self.new ≡ after self.old piece.now }
        ensures ends { result ≡ ends self.old piece.now }
    {
        let mut rest = piece;
        let mut ended = 0;
        while !rest.is_empty() {
            let count = self.step(rest);
            rest = &rest[count..];
            if self.is_between() {
                ended += 1;
            }
        }
        ended
    }
}
