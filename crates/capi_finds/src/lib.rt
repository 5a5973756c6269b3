// The finds of the last and of the largest range for a host in C. They stand in a module of their own in the archive, so that
// find first has the find's code to itself there.
//
// Every function here is proved to equal the call that it makes, and the crate assumes nothing of its own.
#![tactic(auto)]

pub mod block;
pub mod list;
