//! Tests of the crates up to `tx_core`, and of journals, at concrete types: one file a crate, named after it. They
//! stand apart from what they test, since a crate with tests of its own is proved twice, alone and with them.
#![tactic(auto)]

#[cfg(test)]
mod check_point_tests;
#[cfg(test)]
mod dup_guard_tests;
#[cfg(test)]
mod ids_core_tests;
#[cfg(test)]
mod io_edge_tests;
#[cfg(test)]
mod join_bundle_tests;
#[cfg(test)]
mod journal_file_tests;
#[cfg(test)]
mod k_stable_tests;
#[cfg(test)]
mod list_core_tests;
#[cfg(test)]
mod obj_counter_tests;
#[cfg(test)]
mod obj_map_tests;
#[cfg(test)]
mod obj_register_tests;
#[cfg(test)]
mod obj_set_tests;
#[cfg(test)]
mod op_log_tests;
#[cfg(test)]
mod tally_core_tests;
#[cfg(test)]
mod tx_core_tests;
#[cfg(test)]
mod vv_core_tests;
#[cfg(test)]
mod wire_codec_tests;
