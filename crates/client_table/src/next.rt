//! `Next`: what a client asks.

/// The call on a client that comes next.
#[derive(Clone, Copy)]
pub enum Next<'t> {
    /// To write these bytes to it: one at least, and 67,108,869 at most.
    Write(&'t [u8]),
    /// To read so many bytes of it at most: one, or more, up to 65,536.
    Read(u32),
    /// None: a frame of it was refused, and that was written. It is over.
    Nothing,
}
