ghost use Rattle.std.specs.Prelude.{◌≡◌};
ghost use Rattle.small_card.specs.Packages.{is_done};

use crate::codes::{DONE, LAST_DELETED};
use crate::types::Item;

impl Item {
    /// Whether the operation of this item was done, so that its package goes on.
    #[tactic(auto, unfolding(crate::specs::Packages::is_done))]
    pub fn is_done(&self) -> bool
        ensures done { result ≡ is_done self.now }
    {
        match self {
            Item::Enable(code) | Item::Disable(code) | Item::Delete(code) | Item::Update(code) => {
                *code == DONE
            }
            Item::Add {
                code,
                association: _,
            } => *code == DONE,
            Item::Dropped(code) => *code == DONE || *code == LAST_DELETED,
            Item::Profiles(_) | Item::Eims(_) => true,
        }
    }
}
