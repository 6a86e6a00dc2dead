//! The world of a script: a digraph, labels, maps and all else that follows it, and the commands
//! that it answers.
#![tactic(auto)]

mod additions;
mod alterations;
mod altering;
mod asked_bounds;
mod asked_flows;
mod asked_pairs;
mod asked_paths;
mod asked_values;
mod asked_views;
mod attributes;
mod cheapest_flows;
mod describing;
mod documents;
mod edits;
mod flow_lines;
mod flows;
mod guards;
mod indexes;
mod items;
mod keeping;
mod kept_listings;
mod kept_seats;
mod labels;
mod layers;
mod leaving;
mod listings;
mod loading;
mod map_changes;
mod map_commands;
mod map_tables;
mod map_values;
mod maps;
mod names;
mod new_degrees;
mod new_indexes;
mod node_words;
mod opening;
mod orders;
mod placing;
mod pool;
mod readers;
mod refusals;
mod relabelling;
mod restoring;
mod retyping;
mod saving;
mod seat_writes;
mod shown;
mod snapshots;
mod splits;
mod steps;
mod tables;
mod ties;
mod totals;
mod towers;
mod values;
mod vetoes;
mod view_demands;
mod view_listings;
mod view_lists;
mod views;
mod world;

pub use steps::built;
pub use tables::{
    AttributeRow, GuardRow, ItemTables, KeptKeys, KeptMaps, MapKind, MapRow, ViewRow,
};
pub use world::World;
