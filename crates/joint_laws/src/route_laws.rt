//! What the audit says of tables that our own bring-up writes. The functions do nothing; their clauses are the theorems.

ghost use Rattle.joint_laws.specs.RouteLaws.{ADumpShowsWhatIsHeld, ItIsSound, ItNamesEachPort, OwnRoutesAreSafe, OwnRoutesPass};
ghost use Rattle.joint_laws.specs.RouteLaws.{RoutesAreSafeWithCablesDown, SomeSwitchCarriesAHost};

/// Each fabric that is brought up has a dump that shows what its switches hold.
pub fn a_dump_shows_what_is_held()
    ensures { ADumpShowsWhatIsHeld }
{}

/// It agrees with itself, as every dump does that was read.
pub fn it_is_sound()
    ensures { ItIsSound }
{}

/// By it each adapter port that has a cable has a LID.
pub fn it_names_each_port()
    ensures { ItNamesEachPort }
{}

/// The tables of each fabric that is brought up pass the audit, whatever dump shows them.
pub fn own_routes_pass()
    ensures { OwnRoutesPass }
{}

/// Some switch of each sound topology carries an adapter.
pub fn some_switch_carries_a_host()
    ensures { SomeSwitchCarriesAHost }
{}

/// The audit of the tables of each fabric that is brought up calls its routes safe.
pub fn own_routes_are_safe()
    ensures { OwnRoutesAreSafe }
{}

/// So does that of a fabric some of whose cables between switches are down, over the topology with those that are up.
pub fn routes_are_safe_with_cables_down()
    ensures { RoutesAreSafeWithCablesDown }
{}
