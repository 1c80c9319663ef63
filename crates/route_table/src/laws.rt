//! Theorems about tables, hops and refusals: public functions without a body, whose contracts are the theorems.
ghost use Rattle.std.specs.Prelude.{◌≡◌, ◌↔◌, IsTrue};
ghost use Rattle.route_table.specs.declared.between.Operation.{Operation as AnyOperation};
ghost use Rattle.route_table.specs.declared.hop_run.HopRun.{HopRun as AnyRun};
ghost use Rattle.route_table.specs.declared.refused.AddRefused.{AddRefused as AnyRefused};

use crate::between::Operation;
use crate::hop_run::HopRun;
use crate::refused::AddRefused;
pub use prefix_trie::laws::refusals;
pub use route_choices::laws::hops;
pub use route_laws::laws::{
    best_routes, between, changed, changed_networks, changes, choices, fewest, flat, held, kept,
    matches, nearest, networks, one_route, overwrites, pages, paints, runs, updates,
};

/// `==` holds exactly for equal refusals. A clone of a refusal equals it, and cloning never fails.
pub fn add_refusals()
    ensures equality { (a b : AnyRefused) → IsTrue (⟦<AddRefused as PartialEq>⟧.eq a b) ↔ (a ≡ b) }
    ensures clones { (a b : AnyRefused) → ⟦<AddRefused as Clone>⟧.is_clone a b → b ≡ a }
    ensures made { (a : AnyRefused) → ⟦<AddRefused as Clone>⟧.is_infallible a }
{}

/// `==` holds exactly for equal operations. A clone of an operation equals it, and cloning never fails.
pub fn operations()
    ensures equality { (a b : AnyOperation) → IsTrue (⟦<Operation as PartialEq>⟧.eq a b) ↔ (a ≡ b) }
    ensures clones { (a b : AnyOperation) → ⟦<Operation as Clone>⟧.is_clone a b → b ≡ a }
    ensures made { (a : AnyOperation) → ⟦<Operation as Clone>⟧.is_infallible a }
{}

/// `==` holds exactly for equal runs of a flat list. A clone of a run equals it, and cloning never fails.
pub fn hop_runs()
    ensures equality { (a b : AnyRun) → IsTrue (⟦<HopRun as PartialEq>⟧.eq a b) ↔ (a ≡ b) }
    ensures clones { (a b : AnyRun) → ⟦<HopRun as Clone>⟧.is_clone a b → b ≡ a }
    ensures made { (a : AnyRun) → ⟦<HopRun as Clone>⟧.is_infallible a }
{}
