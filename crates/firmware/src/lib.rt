// The library as firmware in C calls it: numbers, and octets as a pointer and a length.
#![tactic(auto)]

mod reading;
mod sending;

pub use reading::{mrp_field, mrp_read};
pub use sending::{
    mrp_write_link_down, mrp_write_link_up, mrp_write_test, mrp_write_topology_change,
};
