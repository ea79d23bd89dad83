//! A level: statements under way that offer to one finish, and what one turn of them does.
#![tactic(auto)]

mod blocks;
mod calls;
mod columns;
mod frame;
mod level;
mod statements;
mod step;
mod text;
mod value;

pub use blocks::copy_of;
pub use frame::{Flow, Frame};
pub use level::Level;
pub use statements::kind_of;
pub use step::{CallAt, FinishAt, Step};
pub use text::text_of;
pub use value::{value_of, values_of};
