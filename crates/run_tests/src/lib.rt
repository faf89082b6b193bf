//! Tests of whole runs: generated ones, the network that their packets cross, and a node over sockets and the system's clock, and its printer.
#![tactic(auto)]

#[cfg(test)]
mod carried;
#[cfg(test)]
mod network;
#[cfg(test)]
mod printer;
#[cfg(test)]
mod schedules;
#[cfg(test)]
mod summary;
#[cfg(test)]
mod two_hosts;
#[cfg(test)]
mod usual;
