ghost use Rattle.std.specs.Prelude.{◌≡◌};

use world_card::BenchCard;
use world_network::Network;

/// The world of one card: the card on its bench, and the network around it. The modems are lent.
#[derive(Debug, Drop)]
pub struct World {
    pub(crate) network: Network,
    pub(crate) card: BenchCard,
}

impl World {
    /// A world of these parts.
    pub(crate) fn of(network: Network, card: BenchCard) -> World
        ensures network { result.network ≡ network }
        ensures card { result.card ≡ card }
    {
        World { network, card }
    }
}
