ghost use Rattle.std.specs.Prelude.{◌≡◌, IfOk};

use crate::types::{Body, Item, PackageResult, Profile};
use iot_bytes::{NoMemory, Reserve, Row};
use std::alloc::Global;

impl Body {
    /// A body with the same operations, in memory of its own.
    pub fn copy(&self, alloc: Global) -> Result<Body, NoMemory>
        ensures equal { IfOk result (λ body. body ≡ self.now) }
    {
        match self {
            Body::Psmos(ops) => Ok(Body::Psmos(ops.copy(alloc)?)),
            Body::Ecos(ops) => Ok(Body::Ecos(ops.copy(alloc)?)),
        }
    }
}

impl Item {
    /// The same item, with a list of its own where it has one.
    pub fn copy(&self, alloc: Global) -> Result<Item, NoMemory>
        ensures equal { IfOk result (λ item. item ≡ self.now) }
    {
        match self {
            Item::Enable(code) => Ok(Item::Enable(*code)),
            Item::Disable(code) => Ok(Item::Disable(*code)),
            Item::Delete(code) => Ok(Item::Delete(*code)),
            Item::Profiles(rows) => Ok(Item::Profiles(rows.copy(alloc)?)),
            Item::Add { code, association } => Ok(Item::Add {
                code: *code,
                association: *association,
            }),
            Item::Update(code) => Ok(Item::Update(*code)),
            Item::Dropped(code) => Ok(Item::Dropped(*code)),
            Item::Eims(rows) => Ok(Item::Eims(rows.copy(alloc)?)),
        }
    }
}

/// The same items, with lists of their own.
pub fn copy_items(alloc: Global, items: &[Item]) -> Result<Row<Item>, NoMemory>
    ensures equal { IfOk result (λ row. row ≡ items.now) }
{
    let mut out = Reserve::with_room(alloc, items.len())?.into_row();
    for item in items {
        out.push(item.copy(alloc)?).map_err(|_| NoMemory)?;
    }
    Ok(out)
}

impl PackageResult {
    /// The same result, its mark included, with items of its own.
    pub fn copy(&self, alloc: Global) -> Result<PackageResult, NoMemory>
        ensures equal { IfOk result (λ kept. kept ≡ self.now) }
    {
        Ok(PackageResult {
            seq: self.seq,
            eim: self.eim,
            association: self.association,
            counter: self.counter,
            items: copy_items(alloc, self.items.as_slice())?,
            rolled: self.rolled,
        })
    }
}
