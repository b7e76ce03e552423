//! A bump allocator over a capability: it hands out buffers from the start of a region on, each
//! with bounds that are exact, so that no buffer reaches into another one. A small caller of
//! `cap_ops` and `cap_bounds`.
#![tactic(auto, using(crate::proofs::BufferLemmas::buffers), unfolding(crate::proofs::BufferLemmas::buffer_words))]

ghost use Rattle.std.specs.Prelude.{◌≡◌, ◌^◌, ◌<◌, ◌≤◌, false, None, IfSome};
ghost use Rattle.cap_model.specs.results.Addresses.{is_open};
ghost use Rattle.cap_model.specs.results.Readings.{base_of};
ghost use Rattle.bump_allocator.specs.Buffers.{IsAllocator, IsBuffer, buffer, after, exact_length};
ghost use Rattle.bump_allocator.specs.Buffers.{start_of};
ghost use Rattle.cap_model.specs.bounds.Alignment.{length_at_zero};
ghost use Rattle.cap_model.specs.bounds.Lengths.{alignment};

#[cfg(test)]
mod tests;

use cap_bounds::{cram, crrl};
use cap_ops::Cap;
use std::marker::Model;

/// A region of memory, and the address from which on it is free.
#[derive(Debug, Drop)]
pub struct BumpAllocator {
    region: Cap,
    next: u128,
}

impl Model for BumpAllocator {
    ghost use Rattle.bump_allocator.specs.Buffers.{Allocator, IsAllocator, allocator};

    ghost Value = { Allocator };

    ghost view = { λ a. allocator a.region a.next };

    ghost invariant = { λ a. IsAllocator a.region a.next };
}

impl BumpAllocator {
    /// An allocator of the whole region that a capability has, all of it free. `None` where the
    /// capability is untagged or sealed.
    pub fn new(region: Cap) -> Option<BumpAllocator>
        ensures opened { IfSome result (λ made.
            made ≡ record { region = region; next = base_of region }) }
        ensures refused { result ≡ None → is_open region ≡ false }
    {
        if region.is_open() {
            let next = u128::from(region.base());
            Some(BumpAllocator { region, next })
        } else {
            None
        }
    }

    /// A buffer of at least `len` bytes, with the region's permissions: its bounds are exact, and
    /// no later buffer holds an address of it. `None` where the region has no room for it, and then
    /// nothing changes.
    pub fn allocate(&mut self, len: u64) -> Option<Cap>
        requires { 0 < len }
        ensures handed { result ≡ buffer self.old len }
        ensures after { self.new ≡ after self.old len }
        ensures bounds { IfSome result (IsBuffer self.old self.new len) }
    {
        let Some(length) = exact_length(len) else {
            return None;
        };
        let start = self.start(len);
        let end = start + u128::from(length);
        if end > self.region.bounds().1 {
            return None;
        }
        self.next = end;
        Some(self.region.set_addr(start as u64).set_bounds_exact(length))
    }

    /// The next free address, rounded up to where a buffer of this length may begin.
    fn start(&self, len: u64) -> u128
        ensures start { result ≡ start_of self.now len }
        ensures below { result < 2 ^ 66 }
        ensures allocator { IsAllocator self.now.region self.now.next }
    {
        let alignment = alignment(len);
        (self.next + (alignment - 1)) / alignment * alignment
    }
}

/// What a buffer of at least `len` bytes begins at a multiple of.
fn alignment(len: u64) -> u128
    ensures value { result ≡ alignment (length_at_zero len) }
    ensures positive { 0 < result }
    ensures at_most { result ≤ 2 ^ 64 }
{
    (1 << 64) - u128::from(cram(len))
}

/// The least length of exact bounds that has at least `len` bytes. `None` where it is 2^64, which
/// no register holds.
fn exact_length(len: u64) -> Option<u64>
    requires { 0 < len }
    ensures { result ≡ exact_length len }
{
    match crrl(len) {
        0 => None,
        length => Some(length),
    }
}
