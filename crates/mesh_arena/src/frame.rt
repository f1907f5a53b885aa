//! The memory of one physical page.
ghost use Rattle.std.specs.Prelude.{◌≡◌, ◌+◌, ◌≤◌, length};
ghost use Rattle.mesh_arena.specs.Pages.{blank_page, with_run};

use std::marker::Model;

/// The number of bytes of a page, physical or virtual. This project's own choice.
pub const PAGE_BYTES: usize = 4096;

/// The memory of a page. While the page is free, its content is unspecified.
#[derive(Drop)]
pub(crate) struct Frame {
    bytes: [u8; PAGE_BYTES],
}

impl Model for Frame {
    ghost use Rattle.std.specs.Prelude.{◌≡◌, ℕ, List, length};

    ghost Value = { List ℕ };

    ghost view = { λ frame. frame.bytes };

    ghost invariant = { λ frame. length frame.bytes ≡ 4096 };
}

impl Frame {
    /// Returns a frame of zeros.
    pub(crate) fn blank() -> Frame
        ensures { result ≡ blank_page }
    {
        Frame {
            bytes: [0; PAGE_BYTES],
        }
    }

    /// Fills the frame with zeros.
    pub(crate) fn clear(&mut self)
        ensures { self.new ≡ blank_page }
    {
        self.bytes.fill(0);
    }

    /// The frame's bytes.
    pub(crate) fn bytes(&self) -> &[u8]
        ensures bytes { result.now ≡ self.now }
        ensures sized { length result.now ≡ 4096 }
    {
        &self.bytes
    }

    /// Writes bytes into the frame, starting at offset `off`.
    pub(crate) fn write(&mut self, off: usize, bytes: &[u8])
        requires { off + length bytes.now ≤ 4096 }
        ensures written { self.new ≡ with_run self.old off bytes.now }
        ensures sized { length self.old ≡ 4096 }
    {
        let end = off + bytes.len();
        self.bytes[off..end].copy_from_slice(bytes);
    }
}
