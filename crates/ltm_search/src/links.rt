//! What is searched: links between nodes, and when who comes to one leaves it.
ghost use Rattle.std.specs.Prelude.{◌≡◌, ◌<◌, ◌≤◌, ℕ, option_map};
ghost use Rattle.ltm_search.specs.Ways.{Ways, AreWays};
ghost use Rattle.ltm_search.specs.Links.{AreLeaving};

use ltm_units::{LinkId, Millis, NodeId};

/// Links between nodes, as a search goes over them: along their direction or against it.
pub trait Links {
    ghost ways: { Self → Ways };

    ghost bound: { Self → ℕ → ℕ };

    ghost stands: { Self → Type 0 };

    /// Who passes a link comes later, who comes to it later leaves it no sooner, and who has passed so many links has come
    /// by the bound. The call does nothing.
    fn keep_ways(&self)
        requires { stands self.now }
        ensures { AreWays (ways self.now) (bound self.now) };

    /// The links that leave a node.
    fn leaving(&self, node: NodeId) -> &[LinkId]
        requires stands { stands self.now }
        requires node { node.0 < (ways self.now).nodes }
        ensures { AreLeaving (ways self.now) node.0 result.now };

    /// The node to which a link leads.
    fn head(&self, link: LinkId) -> NodeId
        requires stands { stands self.now }
        requires link { link.0 < (ways self.now).links }
        ensures { result.0 ≡ (ways self.now).head link.0 };

    /// When one leaves a link who comes to it at a moment, none where that is never.
    fn pass(&self, link: LinkId, moment: Millis) -> Option<Millis>
        requires stands { stands self.now }
        requires link { link.0 < (ways self.now).links }
        requires moment { moment.0 ≤ bound self.now (ways self.now).nodes }
        ensures { option_map (λ m. m.0) result ≡ (ways self.now).leaves link.0 moment.0 };
}
