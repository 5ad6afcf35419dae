// What holds of the routines. Each law is the contract of a function that does nothing: a caller has it after the call.
ghost use Rattle.std.specs.Prelude.{◌≡◌, ℕ};
ghost use Rattle.cat_builtin.specs.Warehouses as table;
ghost use Rattle.range_rules.specs.Walks.{follow};
ghost use Rattle.range_suits.specs.Suits.{Suits};
ghost use Rattle.tpcc_routines.specs.Routines.{is_more, walk_of};

/// Whatever is answered, what the routines ask for fits the tables of the catalogue `tpcc`.
pub fn more_suits()
    ensures { Suits table.tables is_more (λ q call. follow (walk_of call)) }
{}
