//! What happened at the console's ports so far: the definitions that the devices share.
//!
//! A history is a list of port operations and of frames' beginnings and mixes, the latest first. The devices keep
//! numbers and no history; what each of them promises is said against one. This crate has definitions alone.
#![tactic(auto)]
