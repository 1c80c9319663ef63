//! Theorems about nearest tables: public functions without a body, whose contracts are the theorems.
ghost use Rattle.nearest_table.specs.Asked.{AskedLaw};
ghost use Rattle.nearest_table.specs.Laws.{EditsLaw, LocalLaw, PlansLaw};

/// If each address outside a block keeps its hop, a nearest table inside the block makes a nearest table of all.
pub fn local()
    ensures { LocalLaw }
{}

/// The table of a plan is a nearest one, and the edits of a plan are those between the installed routes and its table.
pub fn plans()
    ensures nearest { PlansLaw }
    ensures edits { EditsLaw }
{}

/// The route of a block, whether routes are strictly inside it, the longest route strictly around it, and the addresses that no route
/// strictly inside contains, by the list of routes.
pub fn asked()
    ensures { AskedLaw }
{}
