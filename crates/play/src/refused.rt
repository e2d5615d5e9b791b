//! A job that is refused. The type stands apart from the player, since the definitions that the player's contracts cite name it.
use call::JobFault;

/// A job that is refused before its first call: page and signature as they were handed in, and the fault.
#[derive(Drop)]
pub struct RefusedJob<P, S> {
    pub page: P,
    pub signature: S,
    pub fault: JobFault,
}
