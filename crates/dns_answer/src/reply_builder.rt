//! A reply to which sets are offered, until one does not fit.
ghost use Rattle.std.specs.Prelude.{◌≡◌, ◌*◌, ◌≤◌, [], ◌∷◌, min};
ghost use Rattle.dns_wire.specs.PartialMessage.{item_of};
ghost use Rattle.dns_answer.specs.ReplyBuilderForm.{Offers};

use dns_name::NameRef;
use dns_rdata::SetView;
use dns_wire::{MessageBuilder, QuickHash, Section};
use std::marker::Model;

/// Makes replies, one after another, in the same memory: up to `N` offsets of name suffixes, and
/// `SIZE` octets, all inline, without allocating.
#[derive(Drop)]
pub struct ReplyBuilder<const N: usize, const SIZE: usize> {
    pub(crate) message: MessageBuilder<N, SIZE>,
    pub(crate) is_full: bool,
}

impl<const N: usize, const SIZE: usize> Model for ReplyBuilder<N, SIZE> {
    ghost use Rattle.std.specs.Prelude.{◌≡◌, ◌≤◌};
    ghost use Rattle.dns_answer.specs.ReplyBuilderForm.{State};

    ghost Value = { State };

    ghost view = { λ d. record { message = d.message; full = d.is_full } };

    ghost invariant = { λ d. (512 ≤ SIZE) × (SIZE ≤ 65535) × (d.message.limit ≡ SIZE) };
}

impl<const N: usize, const SIZE: usize> ReplyBuilder<N, SIZE> {
    /// A builder for replies of at most `SIZE` octets, 512 to 65,535.
    ///
    /// Precondition: `N` is at most 8,192, and at least half of the lesser of `SIZE` and 16,384,
    /// the number of octets that a pointer can reach.
    pub fn new() -> ReplyBuilder<N, SIZE>
        requires from { 512 ≤ SIZE }
        requires upto { SIZE ≤ 65535 }
        requires places { min SIZE 16384 ≤ 2 * N }
        requires most { N ≤ 8192 }
    {
        ReplyBuilder {
            message: MessageBuilder::new(SIZE),
            is_full: false,
        }
    }

    pub(crate) fn is_full(&self) -> bool
        ensures { result ≡ self.now.full }
    {
        self.is_full
    }

    /// Offers a set: it is added if all of it fits and no earlier set was left out.
    pub(crate) fn offer<S: SetView>(
        &mut self,
        section: Section,
        owner: &NameRef<'_>,
        ttl: u32,
        set: &S,
    )
        ensures { Offers self.old self.new (item_of section owner.now ttl (S.set set.now) ∷ []) }
    {
        if self.is_full {
            return;
        }
        if !self
            .message
            .put_set(&mut QuickHash, section, owner, ttl, set)
        {
            self.is_full = true;
        }
    }
}
