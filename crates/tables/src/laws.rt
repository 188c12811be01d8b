// That a table is a map: its laws, as the contract of a call.
ghost use Rattle.tables.specs.Laws.{Laws};

// Returns nothing: what it says is its contract, for every type of values.
pub fn laws_stand<V: Copy>()
    ensures { Laws V }
{}
