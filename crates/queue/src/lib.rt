// Queues in fixed slots: a cursor says where the elements stand, and the slots are arrays beside it. One cursor serves the
// five queues of the UART. Carried over from inkemu's uart.rs (its `VecDeque`s and `Vec`) and changed.
#![tactic(auto)]

pub mod copy;

ghost use Rattle.std.specs.Prelude.{◌≡◌, ◌+◌, ◌<◌, ◌≤◌, min};
ghost use Rattle.queue.specs.Slots.{wrap};
ghost use Rattle.queue.specs.Cursors.{most, Held, nth_of, last_of, back_of, empty};
ghost use Rattle.queue.specs.Cursors.{pushed as Cursor·pushed, popped as Cursor·popped, cut_to_one};
ghost use Rattle.queue.specs.Cursors.{pushed_if, popped_if};

// Where a queue starts in its slots and how many elements it holds. The elements stand in order from the slot `start` on,
// and go on at slot 0 past the last slot.
#[repr(C)]
#[derive(Clone, Copy, PartialEq, Eq, Debug)]
pub struct Cursor {
    pub start: usize,
    pub count: usize,
}

pub fn smaller(a: usize, b: usize) -> usize
    ensures { result ≡ min a b }
{
    a.min(b)
}

// The slot that is `n` places after `start`, of `cap` slots.
fn slot(start: usize, n: usize, cap: usize) -> usize
    requires { start ≤ cap }
    ensures { result ≡ wrap (start + n) cap }
{
    let ahead = cap - start;
    if n < ahead { start + n } else { n - ahead }
}

impl Cursor {
    // A queue that holds nothing.
    pub fn new() -> Self
        ensures { result ≡ empty }
    {
        Cursor { start: 0, count: 0 }
    }

    // The slot of the n-th element, from 0.
    pub fn nth(self, cap: usize, n: usize) -> usize
        requires { (self.start < cap) × (n ≤ cap) }
        ensures { (result ≡ nth_of cap n self) × (result < cap) }
    {
        slot(self.start, n, cap)
    }

    // The slot of the last element; the start where there is none.
    pub fn last(self, cap: usize) -> usize
        requires { Held cap self }
        ensures { (result ≡ last_of cap self) × (result < cap) }
    {
        self.nth(cap, self.count.saturating_sub(1))
    }

    // The slot for the next element.
    pub fn back(self, cap: usize) -> usize
        requires { Held cap self }
        ensures { (result ≡ back_of cap self) × (result < cap) }
    {
        self.nth(cap, self.count)
    }

    // One more element stands at the back.
    pub fn pushed(self) -> Self
        requires { self.count ≤ most }
        ensures { result ≡ Cursor·pushed self }
    {
        Cursor {
            start: self.start,
            count: self.count + 1,
        }
    }

    // The first element has gone; a queue that holds nothing still holds nothing.
    pub fn popped(self, cap: usize) -> Self
        requires { self.start < cap }
        ensures { result ≡ Cursor·popped cap self }
    {
        Cursor {
            start: slot(self.start, 1, cap),
            count: self.count.saturating_sub(1),
        }
    }

    // Pushed where `yes`, and else as it is.
    pub fn pushed_if(self, yes: bool) -> Self
        requires { self.count ≤ most }
        ensures { result ≡ pushed_if yes self }
    {
        let pushed = self.pushed();
        if yes { pushed } else { self }
    }

    // Popped where `yes`, and else as it is.
    pub fn popped_if(self, cap: usize, yes: bool) -> Self
        requires { self.start < cap }
        ensures { result ≡ popped_if cap yes self }
    {
        let popped = self.popped(cap);
        if yes { popped } else { self }
    }

    // At most the first element is kept.
    pub fn cut_to_one(self) -> Self
        ensures { result ≡ cut_to_one self }
    {
        Cursor {
            start: self.start,
            count: self.count.min(1),
        }
    }
}
