//! Marks on chunks.
ghost use Rattle.std.specs.Prelude.{◌≡◌, IsTrue, IfOk, length};
ghost use Rattle.streetmap_cells.specs.Searches.{is_marked, KeepsMarks};

use std::alloc::{AllocError, Global};

/// Which chunks are marked, by their numbers. A chunk whose number is too large for the marks
/// counts as marked.
#[derive(Drop)]
pub struct Marks {
    pub marked: Vec<bool>,
}

impl Marks {
    /// No mark on the chunks with a number below `count`.
    pub fn new(alloc: Global, count: usize) -> Result<Self, AllocError>
        ensures { IfOk result (λ marks. length marks.marked.items ≡ count) }
    {
        Ok(Marks {
            marked: vec![in alloc; false; count]?,
        })
    }

    /// Marks a chunk.
    pub fn mark(&mut self, chunk: u32)
        ensures marked { IsTrue (is_marked self.new chunk) }
        ensures kept { KeepsMarks self.old self.new }
    {
        let place = chunk as usize;
        if place < self.marked.len() {
            self.marked[place] = true;
        }
    }

    /// Whether a chunk is marked.
    pub fn has(&self, chunk: u32) -> bool
        ensures { result ≡ is_marked self.now chunk }
    {
        match self.marked.get(chunk as usize) {
            Some(marked) => *marked,
            None => true,
        }
    }
}
