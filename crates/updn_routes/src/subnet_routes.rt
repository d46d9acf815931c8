//! The routes of a subnet: those between its switches, with the graph and the LIDs that they are of.

ghost use Rattle.std.specs.Prelude.{◌≡◌};
ghost use Rattle.updn_routes.specs.Routes.{AllRouted, next_hop, number_of};
ghost use Rattle.updn_routes.specs.Subnet.{AreOfGraph};
ghost use Rattle.updn_routes.specs.Tree.{tree_port};

use crate::answer::SwitchRoutes;
use lid_assign::Lids;
use std::marker::Model;
use sweep::Graph;

/// The routes of a graph, by its LIDs. A switch is named by its place in the graph.
#[derive(Debug)]
pub struct Routes {
    pub(crate) graph: Graph,
    pub(crate) lids: Lids,
    pub(crate) between: SwitchRoutes,
}

// As derived, but by one call: else what owns one is proved to let go of each of its parts, on each way out.
impl Drop for Routes {
    fn drop(self) {
        let Routes {
            graph: _,
            lids: _,
            between: _,
        } = self;
    }
}

impl Model for Routes {
    ghost use Rattle.updn_routes.specs.Subnet.{AreOfGraph, RoutesState};

    ghost Value = { RoutesState };

    ghost view = { λ r. record { graph = r.graph; lids = r.lids; between = r.between } };

    ghost invariant = { λ r. AreOfGraph (record { graph = r.graph; lids = r.lids; between = r.between }) };
}

impl Routes {
    /// What they are the routes of.
    pub fn graph(&self) -> &Graph
        ensures { result.now ≡ self.now.graph }
    {
        &self.graph
    }

    /// The LIDs by which they go.
    pub fn lids(&self) -> &Lids
        ensures { result.now ≡ self.now.lids }
    {
        &self.lids
    }

    /// The routes between the switches.
    pub fn between(&self) -> &SwitchRoutes
        ensures { result.now ≡ self.now.between }
    {
        &self.between
    }

    /// What holds of all routes: they are of their graph and its LIDs.
    pub fn known_of_graph(&self)
        ensures { AreOfGraph self.now }
    {
        let _ = &self.graph;
    }

    /// The port by which a switch sends what is for a LID: [`SwitchRoutes::next_hop`].
    pub fn next_hop(&self, switch: usize, lid: u16) -> Option<u8>
        ensures exact { result ≡ next_hop self.now.between switch lid }
        ensures routed { AllRouted self.now.between switch lid }
    {
        self.between.next_hop(switch, lid)
    }

    /// The number of the channel from a switch to another: [`SwitchRoutes::channel_number`].
    pub fn channel_number(&self, switch: usize, next: usize) -> Option<usize>
        ensures { result ≡ number_of self.now.between switch next }
    {
        self.between.channel_number(switch, next)
    }

    /// The port that joins a switch to the spanning tree: [`SwitchRoutes::tree_port`].
    pub fn tree_port(&self, switch: usize) -> Option<u8>
        ensures { result ≡ tree_port self.now.between.rows self.now.between.depths switch }
    {
        self.between.tree_port(switch)
    }
}
