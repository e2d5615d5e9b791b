//! What an accepted acquire answers.

/// What becomes of an accepted acquire.
#[derive(Clone, Copy, PartialEq, Eq, Debug)]
pub enum Grant {
    /// The lock was free and is now the core's, with the last releaser, whose signature the core takes in, if there is one.
    Granted(Option<u8>),
    /// The lock is held, and the core waits for it as the last in the queue.
    Queued,
}
