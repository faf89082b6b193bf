//! A node's run and its recording, as definitions that compute.
//!
//! The model: a node is a plain world of `homa_plain` of which only the local hosts act. Its clock is read outside, its
//! packets go to a net, and datagrams come from it. `node_run` takes the bytes of a script, what the services answer,
//! the ticks that the clock gave, and the datagram or nothing that each receive gave. It gives what is told (entries,
//! and where each turn begins), the datagrams for the net, and the end. A recorder prints a schedule of that.
//! No code stands here, and nothing is promised of runs beside that worked ones are theorems by computing. That a
//! replay of a recording repeats the run is stated in `specs/Replayed.antt`, and proved in `node_laws`.
#![tactic(auto)]
