// Where pages are kept.
ghost use Rattle.std.specs.Prelude.{◌≡◌, ℕ, List, length, nat_lt, slice_get, IfOk};
ghost use Rattle.vk_pages.specs.Pages.{with_page, zero_pages};

use std::alloc::Global;
use vk_base::NoMemory;
use vk_event::PAGE_BYTES;

/// Pages of 512 bytes, numbered from 0.
pub trait PageStore: Drop {
    ghost pages: { Self → List (List ℕ) };

    /// The page, `None` exactly where its number is not below their count.
    fn read(&self, page: u32) -> Option<[u8; PAGE_BYTES]>
        ensures { result ≡ slice_get (pages self.now) page };

    /// Makes these bytes the page, and tells whether there is one: `false` exactly where its number is not below their
    /// count, and then nothing changes.
    fn write(&mut self, page: u32, bytes: &[u8; PAGE_BYTES]) -> bool
        ensures told { result ≡ nat_lt page (length (pages self.old)) }
        ensures pages { pages self.new ≡ with_page (pages self.old) page bytes.now };
}

/// Pages in memory.
#[derive(Drop)]
pub struct MemoryPages {
    pages: Vec<[u8; PAGE_BYTES]>,
}

impl MemoryPages {
    /// So many pages of zeros.
    pub fn new(alloc: Global, pages: u32) -> Result<Self, NoMemory>
        ensures { IfOk result (λ p. p.pages.items ≡ zero_pages pages) }
    {
        let mut made = Vec::with_capacity(alloc, pages as usize)?;
        for _page in 0..pages {
            made.push([0; PAGE_BYTES])?;
        }
        Ok(MemoryPages { pages: made })
    }
}

impl PageStore for MemoryPages {
    ghost pages = { λ p. p.pages.items };

    fn read(&self, page: u32) -> Option<[u8; PAGE_BYTES]> {
        self.pages.get(page as usize).copied()
    }

    fn write(&mut self, page: u32, bytes: &[u8; PAGE_BYTES]) -> bool {
        let known = (page as usize) < self.pages.len();
        if known {
            self.pages[page as usize] = *bytes;
        }
        known
    }
}
