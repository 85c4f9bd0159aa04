// The interface for other languages: numbers, slices and arrays of numbers only. A result is the
// number of a refusal, 0 for none; include/hirunvel.h documents each function in C's terms.
#![tactic(auto)]

mod rebuilding;
mod scanning;
mod stores;

pub use rebuilding::hirunvel_rebuild;
pub use scanning::{hirunvel_scanner_feed, hirunvel_scanner_finish, hirunvel_scanner_open};
pub use stores::{
    hirunvel_store_look, hirunvel_store_open, hirunvel_store_quote, hirunvel_store_take,
};
