//! Iterators over a stored order.
ghost use Rattle.std.specs.Prelude.{◌≡◌, ⊤, IfSome, List, Some, length, reverse};
ghost use Rattle.std.specs.Iterator.{UpTo, YieldsFirst, item_count};
ghost use Rattle.std.specs.Iterator.SizeHint.{IsWithinCount};

use std::alloc::AllocError;
use std::iter::FusedIterator;
use std::marker::Model;

/// The nodes of a stored order, first to last. Takes no memory.
#[derive(Drop)]
pub struct OrderIter<'a, N> {
    left: &'a [N],
}

impl<'a, N> Model for OrderIter<'a, N> {
    ghost Value = { List N };

    ghost view = { λ s. s.left.now };
}

impl<'a, N> OrderIter<'a, N> {
    /// An iterator over all these nodes, from the first on. Cost: constant.
    pub fn new(order: &'a [N]) -> Self
        ensures { result ≡ order.now }
    {
        OrderIter { left: order }
    }
}

impl<'a, N> Clone for OrderIter<'a, N> {
    ghost is_clone = { λ s r. r ≡ s };

    ghost is_infallible = { λ _. ⊤ };

    fn clone(&self) -> Result<Self, AllocError> {
        Ok(OrderIter { left: self.left })
    }
}

impl<'a, N: Copy> Iterator for OrderIter<'a, N> {
    type Item = N;

    ghost next_gives = { YieldsFirst (λ s. s) };

    ghost remaining = { item_count (λ s. s) };

    fn next(&mut self) -> Option<N> {
        let (first, others) = self.left.split_first()?;
        self.left = others;
        Some(*first)
    }

    fn size_hint(&self) -> (usize, Option<usize>)
        ensures lower { IsWithinCount result.0 (item_count (λ s. s) self.now) }
        ensures upper { IfSome result.1 (UpTo (item_count (λ s. s) self.now)) }
        ensures exact { result ≡ (length self.now, Some (length self.now)) }
    {
        (self.left.len(), Some(self.left.len()))
    }
}

impl<'a, N: Copy> ExactSizeIterator for OrderIter<'a, N> {
    fn len(&self) -> usize {
        self.left.len()
    }
}

impl<'a, N: Copy> FusedIterator for OrderIter<'a, N> {}

/// The nodes of a stored order, last to first. Takes no memory.
#[derive(Drop)]
pub struct ReverseOrderIter<'a, N> {
    left: &'a [N],
}

impl<'a, N> Model for ReverseOrderIter<'a, N> {
    ghost Value = { List N };

    ghost view = { λ s. reverse s.left.now };
}

impl<'a, N> ReverseOrderIter<'a, N> {
    /// An iterator over all these nodes, from the last on. Cost: constant.
    pub fn new(order: &'a [N]) -> Self
        ensures { result ≡ reverse order.now }
    {
        ReverseOrderIter { left: order }
    }
}

impl<'a, N: Copy> Iterator for ReverseOrderIter<'a, N> {
    type Item = N;

    ghost next_gives = { YieldsFirst (λ s. s) };

    ghost remaining = { item_count (λ s. s) };

    fn next(&mut self) -> Option<N> {
        let (last, others) = self.left.split_last()?;
        self.left = others;
        Some(*last)
    }

    fn size_hint(&self) -> (usize, Option<usize>)
        ensures lower { IsWithinCount result.0 (item_count (λ s. s) self.now) }
        ensures upper { IfSome result.1 (UpTo (item_count (λ s. s) self.now)) }
        ensures exact { result ≡ (length self.now, Some (length self.now)) }
    {
        (self.left.len(), Some(self.left.len()))
    }
}

impl<'a, N: Copy> ExactSizeIterator for ReverseOrderIter<'a, N> {
    fn len(&self) -> usize {
        self.left.len()
    }
}

impl<'a, N: Copy> FusedIterator for ReverseOrderIter<'a, N> {}
