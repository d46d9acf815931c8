//! What the definitions give for one small subnet. Each function does nothing: its contract is the
//! example.

ghost use Rattle.sa_model.specs.ServiceExampleLaws.{HowManyServices, WhoDeletes, WhoSeesServices};

/// A limited member's service is shown to it and to the full member, and to no other limited member.
pub fn who_sees_services()
    ensures { WhoSeesServices }
{}

/// A port offers at most 16 services in a partition.
pub fn how_many_services()
    ensures { HowManyServices }
{}

/// A port deletes only what is its own.
pub fn who_deletes()
    ensures { WhoDeletes }
{}
