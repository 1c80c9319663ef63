//! Route tables: networks with their routes, the longest match, and the addresses whose hop an update changes.
#![tactic(auto)]

pub use between::{Between, Operation};
pub use flat::Flat;
pub use governed::Governed;
pub use hop_run::HopRun;
pub use hop_table::HopTable;
pub use least::LeastRoutes;
pub use prefix_trie::Refused;
pub use refused::AddRefused;
pub use route_choices::{All, DEFAULT_PREFERENCE, Hop};
pub use routes::Routes;
pub use table::{RouteTable, Table};

mod address_family;
mod address_number;
mod between;
mod covered;
mod family;
mod family_routes;
mod family_table;
mod flat;
mod governed;
mod hop_run;
mod hop_table;
pub mod laws;
mod least;
mod one_change;
mod overwrite;
mod own_blocks;
mod paint;
mod refused;
mod routes;
mod runs;
mod searched;
mod table;
mod updates;
mod walks;
