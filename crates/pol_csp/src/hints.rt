use crate::Place;
use crate::queue::Queue;
use pol_base::NoMemory;
use std::alloc::Global;

/// What a search remembers to be quick. Nothing that it answers rests on it.
#[derive(Drop)]
pub(crate) struct Hints {
    /// The cells at which a branch failed last.
    pub(crate) failed: [usize; 8],
    /// The constraint that failed last.
    pub(crate) last: usize,
    /// Whether the last search failed before it branched.
    pub(crate) at_once: bool,
    /// How many constraints the masks above all branches have been narrowed by.
    pub(crate) seen: usize,
    /// Where the look for broken constraints goes on.
    pub(crate) place: Place,
    pub(crate) queue: Queue,
}

impl Hints {
    pub(crate) fn new(alloc: Global, cells: usize) -> Result<Hints, NoMemory> {
        Ok(Hints {
            failed: [0; 8],
            last: 0,
            at_once: false,
            seen: 0,
            place: Place {
                relation: 0,
                row: 0,
            },
            queue: Queue::new(alloc, cells)?,
        })
    }

    /// A branch at the cell failed. If it did so at once, the cell goes in front of the others.
    pub(crate) fn note(&mut self, cell: usize) {
        if self.at_once {
            to_front(&mut self.failed, cell);
        }
        self.at_once = false;
    }
}

/// Puts a cell in front of the others.
fn to_front(cells: &mut [usize; 8], cell: usize) {
    let mut carried = cell;
    for i in 0..8 {
        let here = cells[i];
        cells[i] = carried;
        if here == cell {
            return;
        }
        carried = here;
    }
}
