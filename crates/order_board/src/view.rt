//! What the seats of a board know. No value of these types is made.
use plan_model::SlotId;
use std::collections::LinkedList;
use worker_state::Order;

/// An order, and the slot that it was posted to.
pub struct Post {
    pub slot: SlotId,
    pub order: Order,
}

/// What one seat knows.
pub enum View {
    /// The publisher: all posts, the oldest first.
    Publisher(LinkedList<Post>),
    /// The source of reader seats: nothing.
    Source,
    /// A reader: its slot, and what it has seen of the slot's posts, the oldest first.
    Reader(SlotId, LinkedList<Order>),
    /// A seat that was given back: nothing.
    Spent,
}
