#![tactic(auto)]
// The sheet reader: the bytes of a formula sheet to its tables and figures, with all tests of a sheet and its kinds line in their order.
pub mod read;
