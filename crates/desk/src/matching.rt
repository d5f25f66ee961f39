//! How an order that enters meets the queue.
// The orders and their queue stay two parameters: a struct of both `&mut` was tried and is no plainer, since each method then promises that both references and the number of orders stay.
use orders::{Settings, Terms};
pub(crate) use rows::Rows;

mod divide;
mod front;
mod hold;
mod offers;
mod one_order;
mod requeue;
mod rounds;
mod rows;
mod settle;
mod shares;

/// An order that enters, under the settings of its day.
#[derive(Clone, Copy)]
pub(crate) struct Entering {
    pub(crate) settings: Settings,
    pub(crate) terms: Terms,
    pub(crate) number: u32,
}
