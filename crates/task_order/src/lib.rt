//! The order of tasks that messages give: which tasks come after which.
//!
//! A message makes its receivers, and what comes after them, come after its sender and after each task that the sender
//! comes after. So the order is kept as a table of all pairs and a message updates it, which takes a number of steps
//! of about the square of the number of tasks, however many messages there are. A message closes a cycle exactly where
//! its sender is one of its receivers or comes after one.
#![tactic(auto)]

mod order;
mod task_set;

pub use order::TaskOrder;
pub use task_set::TaskSet;
