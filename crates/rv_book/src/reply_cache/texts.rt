//! A reply from what is kept of it, with its texts copied from the account.
ghost use Rattle.std.specs.Prelude.{◌≡◌, Some, IsSome, IfOk, IfSome, OnErr};
ghost use Rattle.rv_account.specs.Account.{item_at, items_at, partners_items};
ghost use Rattle.rv_book.specs.reply_cache.Recalling.{ReplyHasText, reply_of};

use rv_account::Account;
use rv_session::{Kept, Place};
use rv_text::{Item, Items, NoMemory, Reply};
use std::alloc::Global;

// A copy of the item that the arrival at a place hands over. Fails only if memory was refused.
fn item(alloc: Global, account: &Account, place: Place) -> Result<Item, NoMemory>
    requires { IsSome (item_at account.now.account.entries place) }
    ensures { IfOk result (λ item. item_at account.now.account.entries place ≡ Some item) }
{
    account.item(place).copy(alloc)
}

/// The reply that is kept, with its text copied from the account. Fails only if that copy does.
pub fn reply(alloc: Global, account: &Account, kept: Kept) -> Result<Reply, NoMemory>
    requires { IsSome (reply_of account.now.account.entries kept) }
    ensures ok { IfOk result (λ reply. reply_of account.now.account.entries kept ≡ Some reply) }
    ensures err { OnErr result (IfSome (reply_of account.now.account.entries kept) ReplyHasText) }
{
    match kept {
        Kept::Done => Ok(Reply::Done),
        Kept::Item(place) => item(alloc, account, place).map(Reply::Item),
        Kept::Empty => Ok(Reply::Empty),
        Kept::Swapped(place) => item(alloc, account, place).map(Reply::Swapped),
        Kept::Received => Ok(Reply::Received),
        Kept::ReceivedBy(place) => Ok(Reply::ReceivedBy(account.key(place))),
        Kept::Nobody => Ok(Reply::Nobody),
        Kept::Cancelled => Ok(Reply::Cancelled),
        Kept::Counted { items, consumers } => Ok(Reply::Counted {
            items: items as u64,
            consumers: consumers as u64,
        }),
        Kept::Peeked(place) => item(alloc, account, place).map(Reply::Peeked),
        Kept::TimedOut => Ok(Reply::TimedOut),
        Kept::Drained(place) => partners_items(account, place).map(Reply::Drained),
    }
}

/// Copies of the items that the partners of the entry at a place hand over, in the order in which it names
/// them. Each partner must hand an item over. Fails only if memory was refused.
pub fn partners_items(account: &Account, place: Place) -> Result<Items, NoMemory>
    requires { IsSome (partners_items account.now.account.entries place) }
    ensures { IfOk result (λ items. partners_items account.now.account.entries place ≡ Some items) }
{
    let partners = account.entry(place).unwrap().partners.as_slice();
    items(account, partners)
}

// Copies of the items that the arrivals at these places hand over, in their order.
fn items(account: &Account, places: &[Place]) -> Result<Items, NoMemory>
    requires { IsSome (items_at account.now.account.entries places.now) }
    ensures { IfOk result (λ items. items_at account.now.account.entries places.now ≡ Some items) }
{
    let alloc = account.allocator();
    let mut items = Vec::with_capacity(alloc, places.len())?;
    for place in places {
        items.push(account.item(*place).copy(alloc)?)?;
    }
    Ok(Items::from_vec(items))
}
