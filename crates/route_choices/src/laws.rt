//! Theorems about choices: public functions without a body, whose contracts are the theorems.
ghost use Rattle.std.specs.Prelude.{◌≡◌, ◌↔◌, IsTrue};
ghost use Rattle.route_choices.specs.Laws.{BestIsUnbeaten, ChoicesWith, ChoicesWithout, OneBeats, SameChoices, StayChoices};
ghost use Rattle.route_choices.specs.declared.hop.Hop.{Hop as AnyHop};
ghost use Rattle.route_choices.specs.declared.hop.Hop.TheVariants.{Drop as DropHop};
ghost use Rattle.route_choices.specs.declared.too_many.TooMany.{TooMany as AnyRefusal};

use crate::hop::Hop;
use crate::too_many::TooMany;

/// The choices of one network. The best is the one that no other beats, and of two choices with different hops exactly one beats the
/// other. `with_one`: adding a choice replaces the one with the same hop. `without_one`: removing a hop leaves the others. Both keep the
/// order, at most eight choices, and each hop once. Two lists with the same choices are equal.
pub fn choices()
    ensures best { BestIsUnbeaten }
    ensures one { OneBeats }
    ensures with_one { ChoicesWith }
    ensures without_one { ChoicesWithout }
    ensures stay { StayChoices }
    ensures same { SameChoices }
{}

/// `==` holds exactly for equal hops. A clone of a hop equals it, and cloning never fails. The default hop is `Drop`.
pub fn hops()
    ensures equality { (a b : AnyHop) → IsTrue (⟦<Hop as PartialEq>⟧.eq a b) ↔ (a ≡ b) }
    ensures clones { (a b : AnyHop) → ⟦<Hop as Clone>⟧.is_clone a b → b ≡ a }
    ensures made { (a : AnyHop) → ⟦<Hop as Clone>⟧.is_infallible a }
    ensures default { (a : AnyHop) → ⟦<Hop as Default>⟧.is_default a → a ≡ DropHop }
{}

/// `==` holds exactly for equal errors. A clone of such an error equals it, and cloning never fails.
pub fn too_many()
    ensures equality { (a b : AnyRefusal) → IsTrue (⟦<TooMany as PartialEq>⟧.eq a b) ↔ (a ≡ b) }
    ensures clones { (a b : AnyRefusal) → ⟦<TooMany as Clone>⟧.is_clone a b → b ≡ a }
    ensures made { (a : AnyRefusal) → ⟦<TooMany as Clone>⟧.is_infallible a }
{}
