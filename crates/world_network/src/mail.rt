//! All messages ever sent, as octets, each with the eIM that it goes to or comes from.
ghost use Rattle.std.specs.Prelude.{◌≡◌, ◌≤◌, ◌<◌, ◌+◌, ◌++◌, [], ◌∷◌, ◌↔◌, IsTrue, IsErrOf, OnOk};
ghost use Rattle.std.specs.Prelude.{OnErr, IfOk, Some, None, IfSome, option_copied};
ghost use Rattle.small_card.specs.Lists.{Every};
ghost use Rattle.esipa_codec.specs.Ranges.{IsToEim, IsToIpa};
ghost use Rattle.esipa_codec.specs.Spelling.{to_eim, to_ipa};
ghost use Rattle.esipa_codec.specs.declared.messages.Post.{Post};
ghost use Rattle.iot_schedule.specs.declared.types.Pick.{Pick};
ghost use Rattle.small_world.specs.Acting.{posts_of};
ghost use Rattle.small_world.specs.Network.{picked, reply_of};
ghost use Rattle.small_world.specs.Octets.{most_octets_sent};
ghost use Rattle.world_network.specs.Mails.{IsPost, posts_octets, replies_octets};
ghost use Rattle.world_network.specs.Mails.{post_letter, replies_from, with_posts, with_replies};
ghost use Rattle.eim_queue.specs.Queues.{IsSendable};

use esipa_codec::{
    Act, MessageEnd, Post, ToEim, ToIpa, read_to_eim, read_to_ipa, to_eim_len, to_ipa_len,
    write_to_eim, write_to_ipa,
};
use iot_bytes::{NoMemory, Row};
use iot_schedule::Pick;
use sgp_values::EimId;
use std::alloc::Global;

/// All messages together have at most so many octets.
const MOST_OCTETS: u64 = 268_435_456;

/// Why a message isn't sent.
#[derive(Clone, Copy, Debug, PartialEq, Eq)]
pub enum SendEnd {
    Limit,
    NoMemory,
}

/// A message: the identifier of the eIM that it goes to or comes from, and its octets.
#[derive(Debug, Drop)]
pub struct Letter {
    pub peer: EimId,
    pub octets: Row<u8>,
}

/// All messages to eIMs and to the assistant, in the order of sending, and their octets together.
#[derive(Debug, Drop)]
pub struct Mail {
    pub to_eims: Row<Letter>,
    pub to_ipa: Row<Letter>,
    pub octets: u64,
}

/// The named letter of a list.
#[tactic(auto, unfolding(small_world::specs::Network::picked))]
pub(crate) fn named(letters: &[Letter], pick: Pick) -> Option<&Letter>
    ensures { option_copied result ≡ picked pick letters.now }
{
    match pick {
        Pick::At(at) => letters.get(at as usize),
        Pick::Last => letters.last(),
    }
}

/// A letter goes last.
fn add(letters: &mut Row<Letter>, letter: Letter) -> Result<(), SendEnd>
    ensures ok { OnOk result (letters.new ≡ letters.old ++ letter ∷ []) }
    ensures err { OnErr result (letters.new ≡ letters.old) }
    ensures never { IsErrOf result SendEnd.Limit → ⊥ }
{
    match letters.push(letter) {
        Ok(()) => Ok(()),
        Err(_) => Err(SendEnd::NoMemory),
    }
}

/// A message to an eIM as a letter.
fn posted(alloc: Global, post: &Post) -> Result<Letter, SendEnd>
    requires { IsPost post.now }
    ensures ok { IfOk result (λ l. l ≡ post_letter post.now) }
    ensures never { IsErrOf result SendEnd.Limit → ⊥ }
{
    let mut octets = Row::new(alloc);
    match write_to_eim(&post.message, &mut octets) {
        Ok(()) => Ok(Letter {
            peer: post.to,
            octets,
        }),
        Err(NoMemory) => Err(SendEnd::NoMemory),
    }
}

/// A message to the assistant as a letter.
fn answered(alloc: Global, from: EimId, message: &ToIpa) -> Result<Letter, SendEnd>
    requires { IsToIpa message.now }
    ensures ok { IfOk result (λ l. l ≡ record { peer = from; octets = to_ipa message.now }) }
    ensures never { IsErrOf result SendEnd.Limit → ⊥ }
{
    let mut octets = Row::new(alloc);
    match write_to_ipa(message, &mut octets) {
        Ok(()) => Ok(Letter { peer: from, octets }),
        Err(NoMemory) => Err(SendEnd::NoMemory),
    }
}

impl Mail {
    /// No message was sent. It takes no memory.
    pub(crate) fn new(alloc: Global) -> Mail
        ensures { result ≡ record { to_eims = []; to_ipa = []; octets = 0 } }
    {
        Mail {
            to_eims: Row::new(alloc),
            to_ipa: Row::new(alloc),
            octets: 0,
        }
    }

    /// Whether so many more octets may be sent.
    fn has_room(&self, len: usize) -> bool
        requires few { self.now.octets ≤ most_octets_sent }
        ensures { IsTrue result ↔ (self.now.octets + len ≤ most_octets_sent) }
    {
        len as u64 <= MOST_OCTETS - self.octets
    }

    /// A message to an eIM is sent, unless it would pass the limit.
    fn send_post(&mut self, alloc: Global, post: &Post) -> Result<(), SendEnd>
        requires range { IsPost post.now }
        requires few { self.old.octets ≤ most_octets_sent }
        ensures few { self.new.octets ≤ most_octets_sent }
        ensures ok { OnOk result (self.new ≡ with_posts (post.now ∷ []) self.old) }
        ensures limit { IsErrOf result SendEnd.Limit
            → most_octets_sent < self.old.octets + posts_octets (post.now ∷ []) }
    {
        let len = to_eim_len(&post.message);
        if !self.has_room(len) {
            return Err(SendEnd::Limit);
        }
        let letter = posted(alloc, post)?;
        add(&mut self.to_eims, letter)?;
        self.octets += len as u64;
        Ok(())
    }

    /// Messages to eIMs are sent in their order, unless they would pass the limit.
    fn send_posts(&mut self, alloc: Global, posts: Row<Post>) -> Result<(), SendEnd>
        requires range { Every IsPost posts }
        requires few { self.old.octets ≤ most_octets_sent }
        ensures few { self.new.octets ≤ most_octets_sent }
        ensures ok { OnOk result (self.new ≡ with_posts posts self.old) }
        ensures limit { IsErrOf result SendEnd.Limit
            → most_octets_sent < self.old.octets + posts_octets posts }
    {
        for post in posts.into_vec() {
            self.send_post(alloc, &post)?;
        }
        Ok(())
    }

    /// The messages of an act are sent, if it has any, unless they would pass the limit.
    #[tactic(auto, unfolding(small_world::specs::Acting::posts_of))]
    pub(crate) fn send_act(&mut self, alloc: Global, act: Act) -> Result<(), SendEnd>
        requires range { Every IsPost (posts_of act) }
        requires few { self.old.octets ≤ most_octets_sent }
        ensures few { self.new.octets ≤ most_octets_sent }
        ensures ok { OnOk result (self.new ≡ with_posts (posts_of act) self.old) }
        ensures limit { IsErrOf result SendEnd.Limit
            → most_octets_sent < self.old.octets + posts_octets (posts_of act) }
    {
        match act {
            Act::Send(posts) => self.send_posts(alloc, posts),
            _ => Ok(()),
        }
    }

    /// What an eIM said, if it is there, is sent to the assistant, unless it would pass the limit.
    pub(crate) fn send_said(
        &mut self,
        alloc: Global,
        from: EimId,
        said: &Option<MessageEnd>,
    ) -> Result<(), SendEnd>
        requires range { IfSome said.now IsSendable }
        requires few { self.old.octets ≤ most_octets_sent }
        ensures few { self.new.octets ≤ most_octets_sent }
        ensures ok { OnOk result (self.new ≡ with_replies (replies_from from said.now) self.old) }
        ensures limit { IsErrOf result SendEnd.Limit
            → most_octets_sent < self.old.octets + replies_octets (replies_from from said.now) }
    {
        match said {
            Some(end) => self.send_end(alloc, from, end),
            None => Ok(()),
        }
    }

    /// What an eIM answered is sent to the assistant, unless it would pass the limit.
    fn send_end(&mut self, alloc: Global, from: EimId, end: &MessageEnd) -> Result<(), SendEnd>
        requires range { IsSendable end.now }
        requires few { self.old.octets ≤ most_octets_sent }
        ensures few { self.new.octets ≤ most_octets_sent }
        ensures ok { OnOk result (self.new ≡ with_replies (reply_of from end.now) self.old) }
        ensures limit { IsErrOf result SendEnd.Limit
            → most_octets_sent < self.old.octets + replies_octets (reply_of from end.now) }
    {
        match end {
            MessageEnd::Reply(message) => self.send_reply(alloc, from, message),
            _ => Ok(()),
        }
    }

    fn send_reply(&mut self, alloc: Global, from: EimId, message: &ToIpa) -> Result<(), SendEnd>
        requires range { IsToIpa message.now }
        requires few { self.old.octets ≤ most_octets_sent }
        ensures few { self.new.octets ≤ most_octets_sent }
        ensures ok { OnOk result (self.new ≡ with_replies
            (record { from = from; message = message.now } ∷ []) self.old) }
        ensures limit { IsErrOf result SendEnd.Limit → most_octets_sent < self.old.octets
            + replies_octets (record { from = from; message = message.now } ∷ []) }
    {
        let len = to_ipa_len(message);
        if !self.has_room(len) {
            return Err(SendEnd::Limit);
        }
        let letter = answered(alloc, from, message)?;
        add(&mut self.to_ipa, letter)?;
        self.octets += len as u64;
        Ok(())
    }
}

/// Reads again a message to an eIM that was written: only memory can be wanting.
pub(crate) fn reread_post(alloc: Global, octets: &[u8]) -> Result<ToEim, NoMemory>
    ensures range { IfOk result (λ m. IsToEim m) }
    ensures again { (m : ToEim) → IsToEim m → octets.now ≡ to_eim m
        → IfOk result (λ n. n ≡ m) }
{
    match read_to_eim(alloc, octets) {
        Ok(message) => Ok(message),
        Err(_) => Err(NoMemory),
    }
}

/// Reads again a message to the assistant that was written: only memory can be wanting.
pub(crate) fn reread_reply(alloc: Global, octets: &[u8]) -> Result<ToIpa, NoMemory>
    ensures range { IfOk result (λ m. IsToIpa m) }
    ensures again { (m : ToIpa) → IsToIpa m → octets.now ≡ to_ipa m
        → IfOk result (λ n. n ≡ m) }
{
    match read_to_ipa(alloc, octets) {
        Ok(message) => Ok(message),
        Err(_) => Err(NoMemory),
    }
}
