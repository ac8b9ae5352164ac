//! What became of a request.

/// The owner accepted it, rejected it with a SIP code from 300 to 699, or timer F expired.
#[derive(Clone, Copy, Debug, PartialEq, Eq)]
pub enum Event {
    Accepted,
    Rejected(u16),
    TimerExpired,
}
