//! Theorems about counts and errors: public functions without a body, whose contracts are the theorems.
ghost use Rattle.std.specs.Prelude.{◌≡◌, ◌↔◌, IsTrue};
ghost use Rattle.route_program.specs.declared.at_end.AtEnd.{AtEnd as AnyAtEnd};
ghost use Rattle.route_program.specs.declared.error.RunError.{RunError as AnyRunError};
ghost use Rattle.route_program.specs.Counted.{MoreByIsMin};

use crate::at_end::AtEnd;
use crate::error::RunError;

/// A count and some more are their sum, up to the greatest u64.
pub fn counts()
    ensures { MoreByIsMin }
{}

/// `==` holds exactly for equal errors. A clone of an error equals it, and cloning never fails.
pub fn errors()
    ensures same { (a b : AnyRunError) → IsTrue (⟦<RunError as PartialEq>⟧.eq a b) ↔ (a ≡ b) }
    ensures clone { (a b : AnyRunError) → ⟦<RunError as Clone>⟧.is_clone a b → b ≡ a }
    ensures made { (a : AnyRunError) → ⟦<RunError as Clone>⟧.is_infallible a }
{}

/// A clone of a release equals it, and cloning never fails.
pub fn releases()
    ensures clone { (a b : AnyAtEnd) → ⟦<AtEnd as Clone>⟧.is_clone a b → b ≡ a }
    ensures made { (a : AnyAtEnd) → ⟦<AtEnd as Clone>⟧.is_infallible a }
{}
