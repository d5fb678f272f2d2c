// Looking into a sound pool: its totals, the entries of some keys, and a scan.
#![tactic(auto)]

mod calls; // the three calls
mod lookup; // a multi-get, key by key

pub use calls::{get, scan, totals};
