//! Messages to managers.
ghost use Rattle.std.specs.Prelude.{◌≡◌, [], ◌∷◌, ◌++◌, map, IfOk, OnOk};
ghost use Rattle.esipa_codec.specs.Assistant.{post_of, refusal_to, results_to};

use esipa_codec::{Act, Post, ToEim};
use iot_bytes::{NoMemory, Row};
use sgp_values::EimId;
use small_card::{PackageResult, Refused};
use std::alloc::Global;

/// One message to one manager.
pub(crate) fn one_post(alloc: Global, to: EimId, message: ToEim) -> Result<Row<Post>, NoMemory>
    ensures { IfOk result (λ posts. posts ≡ record { to = to; message = message } ∷ []) }
{
    let mut posts = Row::new(alloc);
    posts.push(Post { to, message }).map_err(|_| NoMemory)?;
    Ok(posts)
}

/// A refusal goes to the manager that was asked, if any.
pub(crate) fn refusal(
    alloc: Global,
    asked: &Option<EimId>,
    refused: Refused,
) -> Result<Act, NoMemory>
    ensures { IfOk result (λ act. act ≡ refusal_to asked.now refused) }
{
    match asked {
        Some(to) => Ok(Act::Send(one_post(alloc, *to, ToEim::Refused(refused))?)),
        None => Ok(Act::Rest),
    }
}

/// Pending results go to their managers, if there are any.
pub(crate) fn pending(alloc: Global, results: Row<PackageResult>) -> Result<Act, NoMemory>
    ensures { IfOk result (λ act. act ≡ results_to results) }
{
    if results.is_empty() {
        return Ok(Act::Rest);
    }
    Ok(Act::Send(result_posts(alloc, results)?))
}

/// Each result as a message to its manager, in order.
fn result_posts(alloc: Global, results: Row<PackageResult>) -> Result<Row<Post>, NoMemory>
    ensures { IfOk result (λ posts. posts ≡ map post_of results) }
{
    let mut posts = Row::new(alloc);
    for kept in results.into_vec() {
        push_post(&mut posts, kept)?;
    }
    Ok(posts)
}

fn push_post(posts: &mut Row<Post>, kept: PackageResult) -> Result<(), NoMemory>
    ensures { OnOk result (posts.new ≡ posts.old ++ post_of kept ∷ []) }
{
    let to = kept.eim;
    posts
        .push(Post {
            to,
            message: ToEim::Result(kept),
        })
        .map_err(|_| NoMemory)
}
