//! An allocator for tests. It grants as many allocations as a test allows, and refuses later ones.
//!
//! A test passes `&alloc` to the code under test. One allocator then serves all collections of the
//! test, and the test can ask it afterwards how many allocations were made.

use std::alloc::{AllocError, Allocator};
use std::cell::Cell;

/// Passes the first `left` allocations on to `inner`, and refuses all later ones. An allocator of
/// [`once`](Refusing::once) refuses only the next one.
///
/// Each block that a collection takes counts as one allocation: its first block, each larger one
/// that it grows into, and each smaller one that it shrinks into. Giving a block back does not
/// count, and is never refused.
///
/// ```rust
/// let alloc = Refusing::new(rt.alloc(), 1);
/// let mut bytes = Vec::<u8, _>::with_capacity(&alloc, 9)?;
/// assert!(rt; String::with_capacity(&alloc, 9).is_err() && !alloc.is_settled(2));
/// let _ = String::with_capacity(&alloc, 0)?;
/// alloc.set_left(1);
/// bytes.push(7)?;
/// bytes.shrink_to_fit();
/// assert_eq!(rt; (bytes.len(), alloc.asked()), (1, 3));
/// drop(bytes);
/// assert!(rt; alloc.is_settled(3) && !alloc.is_settled(2));
/// let alloc = Refusing::once(rt.alloc(), 1);
/// let _ = String::with_capacity(&alloc, 9)?;
/// assert!(rt; String::with_capacity(&alloc, 9).is_err());
/// let _ = String::with_capacity(&alloc, 9)?;
/// assert_eq!(rt; alloc.asked(), 3);
/// ```
#[derive(Drop)]
pub struct Refusing<B: Allocator> {
    inner: B,
    counts: Counts,
}

// A struct of their own, so that one borrow of `Refusing` reaches all counts.
#[derive(Drop)]
struct Counts {
    left: Cell<u64>,
    asked: Cell<u64>,
    held: Cell<u64>,
    // How many allocations are granted after a refused one.
    behind: u64,
}

impl<B: Allocator> Refusing<B> {
    /// Returns an allocator that grants `left` allocations. Their memory comes from `inner`.
    pub fn new(inner: B, left: u64) -> Refusing<B> {
        Refusing {
            inner,
            counts: Counts {
                left: Cell::new(left),
                asked: Cell::new(0),
                held: Cell::new(0),
                behind: 0,
            },
        }
    }

    /// Returns an allocator that grants `left` allocations, refuses the next one, and grants all later ones.
    pub fn once(inner: B, left: u64) -> Refusing<B> {
        let mut refusing = Refusing::new(inner, left);
        refusing.counts.behind = u64::MAX;
        refusing
    }

    /// From now on grants `left` allocations, and refuses later ones.
    pub fn set_left(&self, left: u64) {
        self.counts.left.set(left);
    }

    /// Returns how many allocations were asked for in all. The refused ones count too.
    pub fn asked(&self) -> u64 {
        self.counts.asked.get()
    }

    /// Returns whether `asked` allocations were asked for, and all blocks were given back.
    pub fn is_settled(&self, asked: u64) -> bool {
        self.asked() == asked && self.counts.held.get() == 0
    }
}

// Counts an allocation, and returns whether it is granted.
fn grants(counts: &Counts) -> bool {
    // No contract says what a cell holds, so a plain `+` could not be proved not to overflow.
    counts.asked.set(counts.asked.get().saturating_add(1));
    let left = counts.left.get();
    let is_granted = left > 0;
    counts
        .left
        .set(left.checked_sub(1).unwrap_or(counts.behind));
    counts
        .held
        .set(counts.held.get().saturating_add(u64::from(is_granted)));
    is_granted
}

// Counts a block that is given back.
fn releases(counts: &Counts) {
    counts.held.set(counts.held.get().saturating_sub(1));
}

// `grow` and `shrink` are the default methods of the trait, which call `allocate`. Those of `inner`
// would grow a block without a count.
unsafe impl<B: Allocator> Allocator for Refusing<B> {
    ghost dealloc_token = { λ heap ty ptr. B.dealloc_token heap.inner ty ptr };

    fn allocate(&self, size: usize, align: usize) -> Result<*mut u8, AllocError> {
        if !grants(&self.counts) {
            return Err(AllocError);
        }
        self.inner.allocate(size, align)
    }

    unsafe fn deallocate(&self, ptr: *mut u8, size: usize, align: usize) {
        releases(&self.counts);
        self.inner.deallocate(ptr, size, align);
    }
}
