//! Modules taken apart into entries, instruction rows and an image, and put together from them.

#![tactic(auto)]

pub mod pack;
pub mod parts;
pub mod repack;
mod test;
pub mod unpack;
mod write;
