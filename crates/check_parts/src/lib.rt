//! Tests of the crates below the world, by their public calls: values worked by hand, and each call that takes memory
//! where there is enough of it. They stand in a crate of their own because a crate with tests is proved twice.
#![tactic(auto)]

#[cfg(test)]
mod assertions;
#[cfg(test)]
mod body_handles_slots;
#[cfg(test)]
mod box_tree_boxes;
#[cfg(test)]
mod colour_solver_base_points;
#[cfg(test)]
mod colour_solver_ticks;
#[cfg(test)]
mod constraint;
#[cfg(test)]
mod contacts_base_split;
#[cfg(test)]
mod contacts_forbidden;
#[cfg(test)]
mod contacts_near_pairs;
#[cfg(test)]
mod contacts_numbers;
#[cfg(test)]
mod contacts_scenes;
#[cfg(test)]
mod contacts_table;
#[cfg(test)]
mod crew_gates;
#[cfg(test)]
mod crew_maps;
#[cfg(test)]
mod crew_staying;
#[cfg(test)]
mod definitions;
#[cfg(test)]
mod event_feed_lists;
#[cfg(test)]
mod fixed_geom_numbers;
#[cfg(test)]
mod given_lists;
#[cfg(test)]
mod graph_colours_hub;
#[cfg(test)]
mod impulse_ledger_sums;
#[cfg(test)]
mod islands_split;
#[cfg(test)]
mod joint_rows_passes;
#[cfg(test)]
mod momenta_one_body;
#[cfg(test)]
mod packed_sets_lists;
#[cfg(test)]
mod packed_sets_marks;
#[cfg(test)]
mod seat_book_seats;
#[cfg(test)]
mod shape_rays_hits;
#[cfg(test)]
mod shape_rays_model;
#[cfg(test)]
mod shapes_manifolds;
#[cfg(test)]
mod shapes_meeting_cores;
#[cfg(test)]
mod shapes_outlines;
#[cfg(test)]
mod shapes_placements;
#[cfg(test)]
mod shapes_rays;
#[cfg(test)]
mod shapes_separate_cores;
#[cfg(test)]
mod sleep_wake_sleep;
#[cfg(test)]
mod solver_sets_census;
#[cfg(test)]
mod world_core_base_joints;
#[cfg(test)]
mod world_core_base_sleepers;
