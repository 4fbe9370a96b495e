//! Laws of the definitions. The functions do nothing: each has a law as its contract.

ghost use Rattle.std.specs.Prelude.{List, ℕ};
ghost use Rattle.doc.specs.Mapping.{MappingData};
ghost use Rattle.front.specs.Bulk.{AreFull, write_commands};
ghost use Rattle.front.specs.Item.{Item};

/// The last command for a bulk's writes has 1 to 1,024 writes. Each other command has 1,024.
pub fn commands_of_a_bulk_are_full()
    ensures { (served : List ℕ) (mapping : MappingData) (items : List Item) → AreFull (write_commands served mapping items) }
{}
