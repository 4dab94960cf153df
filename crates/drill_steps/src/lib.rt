//! The laws of a store on which several ops work, life after life: whatever they do there and in whatever order, whatever trouble befalls its drives between
//! two steps or two lives, and wherever a life ends.
#![tactic(auto)]

mod laws;

pub use laws::{file_law, line_law, lives_law, once_law, put_law, world_law};
