//! What the gateway keeps of its users: the entries of each radio's row, and each user's account.
#![tactic(auto)]

mod account;
mod accounts;
mod entries;
mod entry;
mod group_list;
mod groups;
mod request;
mod row;
mod rows;
mod time;
mod times;

pub use account::{Account, Enrolment};
pub use entry::{Entry, Status};
pub use group_list::Groups;
pub use groups::is_among;
pub use request::Request;
pub use row::Row;
pub use time::Time;
