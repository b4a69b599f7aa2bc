//! The calls on buckets, and the call on the account that some of them make, over a server that answers from a script.

mod bodies;
mod buckets;
mod objects;
mod script;
mod server;
