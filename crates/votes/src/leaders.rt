// The least ballot that was sent, the senders that have it, and the senders that have another.
#[derive(Clone, Copy)]
pub struct Leaders<B> {
    pub least: B,
    pub leaders: u64,
    pub others: u64,
}
