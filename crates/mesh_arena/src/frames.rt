//! The frames of an arena.
ghost use Rattle.std.specs.Prelude.{◌≡◌, ◌≢◌, ℕ, ◌+◌, ◌<◌, ◌≤◌, length, replicate, IfOk, false, slice_index_or, slice_set, []};
ghost use Rattle.mesh_arena.specs.Copies.{MayCopy};
ghost use Rattle.mesh_arena.specs.Pages.{IsTaken, is_taken, bytes_of, blank_page, with_run, with_copy};

use crate::frame::Frame;
use mesh_bins::Bin;
use std::alloc::{AllocError, Global};
use std::marker::Model;

/// The frames of an arena, in the order of their page numbers. The memory of a frame is first touched when the frame is
/// first taken.
#[derive(Drop)]
pub(crate) struct Frames {
    /// The frames from the first one to the last one that was ever taken.
    made: Vec<Frame>,
    /// The numbers of the frames in `made` that are free again.
    given: Bin,
    /// The number of all frames, whether they were ever taken or not.
    count: usize,
}

impl Model for Frames {
    ghost use Rattle.std.specs.Prelude.{◌≤◌, length, vec_capacity};
    ghost use Rattle.mesh_arena.specs.Pages.{Pages};
    ghost use Rattle.mesh_arena.specs.Frames.{AreMade, pages_of};

    ghost Value = { Pages };

    ghost view = { λ f. pages_of f.made.items f.given f.count };

    ghost invariant = { λ f. AreMade f.made.items f.given
        × (length f.made.items ≤ f.count) × (f.count ≤ vec_capacity f.made) × (f.count ≤ 4096) };
}

/// Copies `len` bytes from one frame into another.
fn copy_frame(from: &Frame, from_off: usize, to: &mut Frame, to_off: usize, len: usize)
    requires from_fits { from_off + len ≤ 4096 }
    requires to_fits { to_off + len ≤ 4096 }
    ensures copied { to.new ≡ with_copy to.old to_off from.now from_off len }
    ensures from_sized { length from.now ≡ 4096 }
    ensures to_sized { length to.old ≡ 4096 }
{
    let bytes = from.bytes();
    let end = from_off + len;
    to.write(to_off, &bytes[from_off..end]);
}

/// Copies `len` bytes from one of the frames to another.
fn copy_between(
    frames: &mut [Frame],
    from: usize,
    from_off: usize,
    to: usize,
    to_off: usize,
    len: usize,
)
    requires from_below { from < length frames.old }
    requires to_below { to < length frames.old }
    requires apart { from ≢ to }
    requires from_fits { from_off + len ≤ 4096 }
    requires to_fits { to_off + len ≤ 4096 }
    ensures copied { frames.new ≡ slice_set frames.old to
        (with_copy (slice_index_or frames.old to []) to_off (slice_index_or frames.old from []) from_off len) }
    ensures from_sized { length (slice_index_or frames.old from []) ≡ 4096 }
    ensures to_sized { length (slice_index_or frames.old to []) ≡ 4096 }
{
    if from < to {
        let (low, high) = frames.split_at_mut(to);
        copy_frame(&low[from], from_off, &mut high[0], to_off, len);
    } else {
        let (low, high) = frames.split_at_mut(from);
        copy_frame(&high[0], from_off, &mut low[to], to_off, len);
    }
}

#[tactic(auto, using(crate::proofs::Given::given_frames))]
impl Frames {
    /// Creates `count` free frames. Allocates all the memory that the frames will ever use, and touches no frame's
    /// memory. The only error is an allocation failure.
    pub(crate) fn new(alloc: Global, count: usize) -> Result<Frames, AllocError>
        requires { count ≤ 4096 }
        ensures { IfOk result (λ frames. frames ≡ replicate count None) }
    {
        let made = Vec::with_capacity(alloc, count)?;
        let given = Bin::new(alloc)?;
        Ok(Frames { made, given, count })
    }

    /// Returns the number of all frames.
    pub(crate) fn count(&self) -> usize
        ensures { result ≡ length self.now }
    {
        self.count
    }

    /// Whether the frame at a place is taken. `false` for places past the last frame.
    pub(crate) fn is_taken(&self, place: usize) -> bool
        ensures { result ≡ is_taken self.now place }
    {
        place < self.made.len() && !self.given.has(place as u32)
    }

    /// Returns the place of the lowest free frame: the lowest frame that was given back, or else the first frame that
    /// was never taken. Returns the number of frames if all frames are taken.
    pub(crate) fn first_free(&self) -> usize
        ensures within { result ≤ length self.now }
        ensures passed { (k : ℕ) → k < result → IsTaken self.now k }
        ensures found { result < length self.now → is_taken self.now result ≡ false }
    {
        match self.given.least(0) {
            Some(place) => place as usize,
            None => self.made.len(),
        }
    }

    /// Takes the lowest free frame, which is at `place`, and fills it with zeros.
    pub(crate) fn take(&mut self, place: usize)
        requires within { place < length self.old }
        requires free { is_taken self.old place ≡ false }
        requires passed { (k : ℕ) → k < place → IsTaken self.old k }
        ensures { self.new ≡ slice_set self.old place (Some blank_page) }
    {
        if place < self.made.len() {
            self.made[place].clear();
            self.given.remove(place as u32);
        } else {
            self.made.push_reserved(Frame::blank());
        }
    }

    /// Frees a taken frame.
    pub(crate) fn give(&mut self, place: usize)
        requires { IsTaken self.old place }
        ensures { self.new ≡ slice_set self.old place None }
    {
        self.given.insert(place as u32);
    }

    /// Returns the bytes of a taken frame.
    pub(crate) fn bytes(&self, place: usize) -> &[u8]
        requires { IsTaken self.now place }
        ensures bytes { result.now ≡ bytes_of self.now place }
        ensures sized { length result.now ≡ 4096 }
    {
        self.made[place].bytes()
    }

    /// Writes bytes into a taken frame, starting at offset `off`.
    pub(crate) fn write(&mut self, place: usize, off: usize, bytes: &[u8])
        requires taken { IsTaken self.old place }
        requires fits { off + length bytes.now ≤ 4096 }
        ensures written { self.new
            ≡ slice_set self.old place (Some (with_run (bytes_of self.old place) off bytes.now)) }
        ensures sized { length (bytes_of self.old place) ≡ 4096 }
    {
        self.made[place].write(off, bytes);
    }

    /// Copies `len` bytes from one taken frame to another taken frame.
    pub(crate) fn copy(
        &mut self,
        from: usize,
        from_off: usize,
        to: usize,
        to_off: usize,
        len: usize,
    )
        requires { MayCopy self.old from from_off to to_off len }
        ensures copied { self.new ≡ slice_set self.old to (Some
            (with_copy (bytes_of self.old to) to_off (bytes_of self.old from) from_off len)) }
        ensures from_sized { length (bytes_of self.old from) ≡ 4096 }
        ensures to_sized { length (bytes_of self.old to) ≡ 4096 }
    {
        copy_between(self.made.as_mut_slice(), from, from_off, to, to_off, len);
    }
}
