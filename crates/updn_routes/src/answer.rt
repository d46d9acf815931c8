//! What routes between switches answer.

ghost use Rattle.std.specs.Prelude.{ℕ, ◌≡◌, ◌≢◌, Some, ◌+◌, ◌-◌, ◌<◌, ◌≤◌, ◌==◌, nat_lt, if◌then◌else◌, None, length, get_or, position, IfSome};
ghost use Rattle.std.specs.List.{list_any};
ghost use Rattle.updn_routes.specs.Cabling.{is_next_to};
ghost use Rattle.updn_routes.specs.Order.{place_of};
ghost use Rattle.updn_routes.specs.Routes.{AllReached, AllRouted, AreRoutes, IsFirstUnreached, carries, has_gap, home_of, hop_towards, is_gap, is_tie, next_hop, nth_tie, number_of, order_of, port_towards, tie_at, tie_towards, ties_by};
ghost use Rattle.updn_routes.specs.Sides.{parent};
ghost use Rattle.updn_routes.specs.Tree.{tree_port};
ghost use Rattle.fabric_parts.specs.declared.limits.TheConstants.{SWITCHES};

use crate::link::Link;
use crate::place::place_at;
use crate::row::{Row, links_of};
use crate::table::{NextHop, Table, entry_at, table_at};
use crate::tie_rule::TieRule;
use fabric_parts::PortRef;
use std::marker::Model;

/// The routes between switches, and where LIDs are attached to these.
///
/// Switches are named by their numbers in the rows that the routes were made of.
#[derive(Debug, Drop)]
pub struct SwitchRoutes {
    pub(crate) rows: Vec<Row>,
    pub(crate) guids: Vec<u64>,
    pub(crate) ranks: Vec<usize>,
    pub(crate) depths: Vec<usize>,
    pub(crate) places: Vec<usize>,
    pub(crate) tables: Vec<Table>,
    pub(crate) homes: Vec<PortRef>,
    pub(crate) rule: TieRule,
    pub(crate) numbers: Vec<usize>,
}

impl Model for SwitchRoutes {
    ghost use Rattle.updn_routes.specs.Routes.{AreRoutes, SwitchRoutesState, routes_with};

    ghost Value = { SwitchRoutesState };

    ghost view = { λ r. routes_with r.rows.items r.guids.items r.ranks.items r.depths.items r.places.items r.tables.items r.homes.items r.rule r.numbers.items };

    ghost invariant = { λ r. AreRoutes
        (routes_with r.rows.items r.guids.items r.ranks.items r.depths.items r.places.items r.tables.items r.homes.items r.rule r.numbers.items) };
}

impl SwitchRoutes {
    /// The rule by which ties are taken.
    pub fn rule(&self) -> TieRule
        ensures { result ≡ self.now.rule }
    {
        self.rule
    }

    /// The port by which a switch sends what is for a LID: 0 if the LID is its own, the port of the adapter
    /// if one with that LID is attached to it, and else the port chosen towards the switch at which the LID is attached,
    /// by the rule of ties. None if no port is chosen, and if nobody has the LID.
    pub fn next_hop(&self, switch: usize, lid: u16) -> Option<u8>
        ensures exact { result ≡ next_hop self.now switch lid }
        // following next hops leads there, by an up/down path; without one there is none
        ensures routed { AllRouted self.now switch lid }
    {
        let home = home_of(&self.homes, lid)?;
        if home.node == switch {
            return Some(home.port);
        }
        self.port_for(lid, home, switch)
    }

    /// The port that the rule names for a LID that is attached to another switch.
    fn port_for(&self, lid: u16, home: PortRef, switch: usize) -> Option<u8>
        requires at { home_of self.now.homes lid ≡ Some home }
        requires away { home.node ≢ switch }
        ensures { result ≡ tie_towards self.now lid home.node switch }
    {
        // A number that no switch has is without links. Nothing is known of tables there, so ties are looked for.
        let has_links = !links_of(&self.rows, switch).is_empty();
        match self.rule {
            TieRule::LeastPort if has_links => self.port_towards(home.node, switch),
            _ => self.tie_towards(lid, home.node, switch),
        }
    }

    /// The number of the channel from a switch to another, if they are side by side: along every route these
    /// numbers rise.
    pub fn channel_number(&self, switch: usize, next: usize) -> Option<usize>
        ensures { result ≡ number_of self.now switch next }
    {
        let count = self.rows.len();
        if !is_next_to(&self.rows, switch, next) {
            return None;
        }
        let place = place_at(&self.places, switch);
        let other = place_at(&self.places, next);
        Some(number(count, place, other))
    }

    /// The port that joins a switch to the spanning tree, over which multicast packets go; none for the first
    /// root.
    pub fn tree_port(&self, switch: usize) -> Option<u8>
        ensures { result ≡ tree_port self.now.rows self.now.depths switch }
    {
        let depth = self.depth_of(switch);
        links_of(&self.rows, switch)
            .iter()
            .find(|link| self.is_nearer(link.to, depth))
            .map(|link| link.port)
    }

    /// The switch that the tree port leads to; none for the first root.
    pub fn parent(&self, switch: usize) -> Option<usize>
        ensures { result ≡ parent self.now.rows self.now.depths switch }
    {
        let depth = self.depth_of(switch);
        links_of(&self.rows, switch)
            .iter()
            .find(|link| self.is_nearer(link.to, depth))
            .map(|link| link.to)
    }

    /// Whether the switch is one cable nearer to the first root than so many.
    fn is_nearer(&self, switch: usize, depth: usize) -> bool
        ensures { result ≡ (get_or self.now.depths switch 0 + 1 == depth) }
    {
        depth != 0 && self.depth_of(switch) == depth - 1
    }

    /// What holds of all routes: towards each switch they are what the definition chooses.
    pub fn known_routes(&self)
        ensures { AreRoutes self.now }
    {
        let _ = &self.rows;
    }

    /// How far a switch is from the nearest root; 0 if there is no such switch.
    pub fn rank_of(&self, switch: usize) -> usize
        ensures { result ≡ get_or self.now.ranks switch 0 }
    {
        match self.ranks.get(switch) {
            Some(rank) => *rank,
            None => 0,
        }
    }

    /// How far a switch is from the first root; 0 if there is no such switch.
    pub fn depth_of(&self, switch: usize) -> usize
        ensures { result ≡ get_or self.now.depths switch 0 }
    {
        match self.depths.get(switch) {
            Some(depth) => *depth,
            None => 0,
        }
    }

    /// Where a LID is attached: at a port of a switch, and at its port 0 if it is the switch's own.
    pub fn home_of(&self, lid: u16) -> Option<PortRef>
        ensures { result ≡ home_of self.now.homes lid }
    {
        home_of(&self.homes, lid)
    }

    /// The hop of a shortest path from a switch to another, by the least port that begins one.
    fn hop_towards(&self, target: usize, switch: usize) -> Option<NextHop>
        ensures { result ≡ hop_towards self.now target switch }
    {
        let table = table_at(&self.tables, place_at(&self.places, target));
        entry_at(table, place_at(&self.places, switch))
    }

    /// The least port that may be chosen at a switch towards another.
    fn port_towards(&self, target: usize, switch: usize) -> Option<u8>
        ensures { result ≡ port_towards self.now target switch }
    {
        match self.hop_towards(target, switch) {
            Some(hop) => Some(hop.port),
            None => None,
        }
    }

    /// The port that the rule names for a LID, among those that may be chosen at a switch towards another.
    fn tie_towards(&self, lid: u16, target: usize, switch: usize) -> Option<u8>
        ensures { result ≡ tie_towards self.now lid target switch }
    {
        let own = self.hop_towards(target, switch)?;
        let ties = self.tie_count(target, switch, own);
        if ties == 0 {
            return None;
        }
        let tie = self.tie_at(lid, switch, ties);
        self.nth_tie(target, switch, own, tie)
    }

    /// How many ports of a switch begin a path that is as short as this one, and of its kind.
    fn tie_count(&self, target: usize, switch: usize, own: NextHop) -> usize
        ensures { result ≡ length (ties_by self.now target switch own) }
    {
        links_of(&self.rows, switch)
            .iter()
            .filter(|link| self.is_tie(target, switch, own, link))
            .count()
    }

    /// One of these ports, from 0.
    fn nth_tie(&self, target: usize, switch: usize, own: NextHop, tie: usize) -> Option<u8>
        ensures { result ≡ nth_tie self.now target switch own tie }
    {
        let link = links_of(&self.rows, switch)
            .iter()
            .filter(|link| self.is_tie(target, switch, own, link))
            .nth(tie)?;
        Some(link.port)
    }

    /// Whether a link of a switch begins a path towards the target that is as short as this one, and of its kind.
    fn is_tie(&self, target: usize, switch: usize, own: NextHop, link: &Link) -> bool
        ensures { result ≡ is_tie self.now target switch own link.now }
    {
        match self.hop_towards(target, link.to) {
            Some(beyond) => {
                let from = place_at(&self.places, switch);
                own.is_as_short(from, place_at(&self.places, link.to), beyond)
            }
            None => false,
        }
    }

    /// Which of so many ties a switch takes for a LID.
    fn tie_at(&self, lid: u16, switch: usize, ties: usize) -> usize
        requires { 0 < ties }
        ensures { result ≡ tie_at self.now lid switch ties }
    {
        let number = number_at(&self.numbers, lid);
        let place = place_at(&self.places, switch);
        self.rule.tie_of(number, self.rank_of(switch), place, ties)
    }

    /// Whether no port is chosen at the switch towards that adapter's port.
    fn is_gap(&self, switch: usize, to: &PortRef) -> bool
        ensures { result ≡ is_gap self.now switch to.now }
    {
        to.port != 0 && self.port_towards(to.node, switch).is_none()
    }

    /// Whether adapters' ports are attached to the switch.
    fn carries(&self, switch: usize) -> bool
        ensures { result ≡ carries self.now.homes switch }
    {
        self.homes
            .iter()
            .any(|home| home.port != 0 && home.node == switch)
    }

    /// Whether some port of an adapter has no route from there.
    fn some_gap(&self, switch: usize) -> bool
        ensures { result ≡ list_any (is_gap self.now switch) self.now.homes }
    {
        self.homes.iter().any(|to| self.is_gap(switch, to))
    }

    /// Whether that is a switch that carries adapters' ports and has no route to one of these.
    fn has_gap(&self, from: &PortRef) -> bool
        ensures { result ≡ has_gap self.now from.now }
    {
        from.port == 0 && self.carries(from.node) && self.some_gap(from.node)
    }

    /// The first pair, by LIDs, of a switch that carries adapters' ports and an adapter's port to which it has no
    /// up/down path.
    pub(crate) fn first_gap(&self) -> Option<(u16, u16)>
        ensures none { result ≡ None → AllReached self.now.rows (order_of self.now) self.now.homes }
        ensures some { IfSome result (λ pair. IsFirstUnreached self.now.rows (order_of self.now) self.now.homes pair.0 pair.1) }
    {
        let homes: &[PortRef] = &self.homes;
        let from = self.first_from()?;
        let to = self.first_to(homes[from].node)?;
        Some(((from + 1) as u16, (to + 1) as u16))
    }

    /// The place of the first LID of a switch that has no route to some adapter's port.
    fn first_from(&self) -> Option<usize>
        ensures { result ≡ position (has_gap self.now) self.now.homes }
    {
        self.homes.iter().position(|from| self.has_gap(from))
    }

    /// The place of the first LID of an adapter's port to which the switch has no route.
    fn first_to(&self, switch: usize) -> Option<usize>
        ensures { result ≡ position (is_gap self.now switch) self.now.homes }
    {
        self.homes.iter().position(|to| self.is_gap(switch, to))
    }
}

/// Where a LID is attached.
fn home_of(homes: &[PortRef], lid: u16) -> Option<PortRef>
    ensures { result ≡ home_of homes.now lid }
{
    match lid {
        0 => None,
        _ => homes.get(usize::from(lid) - 1).copied(),
    }
}

/// The number that the rule has for a LID; 0 if there is none.
fn number_at(numbers: &[usize], lid: u16) -> usize
    ensures { result ≡ get_or numbers.now (lid - 1) 0 }
{
    match numbers.get(usize::from(lid).saturating_sub(1)) {
        Some(number) => *number,
        None => 0,
    }
}

/// Whether a cable joins the switches.
fn is_next_to(rows: &[Row], switch: usize, other: usize) -> bool
    ensures { result ≡ is_next_to rows.now switch other }
{
    links_of(rows, switch).iter().any(|link| link.to == other)
}

/// The number of the channel from a place to another, among so many: those up first, from the last place to the
/// first, and then those down, from the first to the last.
fn number(count: usize, place: usize, other: usize) -> usize
    requires few { count ≤ SWITCHES }
    requires there { place < count }
    ensures { result ≡ (if nat_lt other place then count - 1 - place else count + place) }
{
    if other < place {
        count - 1 - place
    } else {
        count + place
    }
}
