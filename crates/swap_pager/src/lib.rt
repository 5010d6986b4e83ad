//! The pager: brings pages of guest memory that are away into frames, over the swap of a host.
#![tactic(auto)]

mod pager;
#[cfg(test)]
mod tests;

pub use guest_pages::Pages;
pub use host_edge::{Host, HostCall};
pub use pager::Pager;
