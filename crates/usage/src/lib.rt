// The standard pile, and its usage page: what a host prints of its tenants, in numbers of fixed widths.
#![tactic(auto)]

mod cell;
pub mod fault;
pub mod header;
pub mod page;
pub mod pile;
pub mod row;
