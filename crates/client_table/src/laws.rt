//! The law of a client's life, as the contract of a function that does nothing.
ghost use Rattle.client_table.specs.Lives.{LifeLaw};

/// Over the life of a client, however its bytes and those of the replies are cut: what it took is a beginning of the replies, in order;
/// the requests that were handed out are those of all bytes that came of it, and no bytes come to others; and where it is read, the
/// replies to all requests before are written whole.
pub fn life_law()
    ensures { LifeLaw }
{}
