use crate::Pool;
use pol_base::NoMemory;
use std::alloc::Global;

/// Which constraints to look at next. Nothing that is answered rests on it, so it has no clause: what
/// it does not know it leaves out.
#[derive(Drop)]
pub(crate) struct Queue {
    /// The constraints that read each cell.
    readers: Vec<Vec<usize>>,
    /// Whether each constraint waits.
    waits: Vec<bool>,
    now: Vec<usize>,
    next: Vec<usize>,
}

/// The constraint waits for the next round.
fn enter(waits: &mut [bool], next: &mut Vec<usize>, c: usize) -> Result<(), NoMemory> {
    if let Some(waits) = waits.get_mut(c) {
        if !*waits {
            *waits = true;
            next.push(c)?;
        }
    }
    Ok(())
}

/// The constraints wait no longer.
fn leave(waits: &mut [bool], waiting: &mut Vec<usize>) {
    for c in &*waiting {
        if let Some(waits) = waits.get_mut(*c) {
            *waits = false;
        }
    }
    waiting.clear();
}

impl Queue {
    pub(crate) fn new(alloc: Global, cells: usize) -> Result<Queue, NoMemory> {
        let mut readers = Vec::new(alloc);
        for _ in 0..cells {
            readers.push(Vec::new(alloc))?;
        }
        Ok(Queue {
            readers,
            waits: Vec::new(alloc),
            now: Vec::new(alloc),
            next: Vec::new(alloc),
        })
    }

    /// Takes in the constraints that are new in the pool, and lets those from the number `seen` on wait.
    pub(crate) fn learn(&mut self, pool: &Pool, seen: usize) -> Result<(), NoMemory> {
        for c in self.waits.len()..pool.len() {
            self.waits.push(false)?;
            for cell in pool.scope(c) {
                if let Some(readers) = self.readers.get_mut(*cell as usize) {
                    readers.push(c)?;
                }
            }
        }
        for c in seen..pool.len() {
            enter(&mut self.waits, &mut self.next, c)?;
        }
        Ok(())
    }

    /// The constraints that read the cell wait for the next round.
    pub(crate) fn touch(&mut self, cell: usize) -> Result<(), NoMemory> {
        if let Some(readers) = self.readers.get(cell) {
            for c in readers {
                enter(&mut self.waits, &mut self.next, *c)?;
            }
        }
        Ok(())
    }

    /// The constraints that read a cell of the scope with another mask than before wait.
    pub(crate) fn touch_changed(
        &mut self,
        scope: &[u32],
        before: &[u8; 6],
        masks: &[u8],
    ) -> Result<(), NoMemory> {
        for place in 0..scope.len() {
            let cell = scope[place] as usize;
            if masks.get(cell) != before.get(place) {
                self.touch(cell)?;
            }
        }
        Ok(())
    }

    /// Begins a round, and answers how many constraints wait.
    pub(crate) fn turn(&mut self) -> usize {
        std::mem::swap(&mut self.now, &mut self.next);
        self.next.clear();
        self.now.len()
    }

    /// The constraint at a place of the round, which waits no longer, and `usize::MAX` where there is none.
    pub(crate) fn take(&mut self, place: usize) -> usize {
        let c = match self.now.get(place) {
            Some(c) => *c,
            None => return usize::MAX,
        };
        if let Some(waits) = self.waits.get_mut(c) {
            *waits = false;
        }
        c
    }

    /// Nothing waits.
    pub(crate) fn clear(&mut self) {
        leave(&mut self.waits, &mut self.now);
        leave(&mut self.waits, &mut self.next);
    }
}

/// The masks of the cells of a scope.
pub(crate) fn masks_at(scope: &[u32], masks: &[u8]) -> [u8; 6] {
    let mut found = [0u8; 6];
    for place in 0..6 {
        if let Some(cell) = scope.get(place) {
            if let Some(mask) = masks.get(*cell as usize) {
                found[place] = *mask;
            }
        }
    }
    found
}
