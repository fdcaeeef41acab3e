use crate::access::{at, number_of, put};
use crate::stop::Stop;
use std::alloc::Global;

/// Lists of numbers, each the last item first. The item that was added last can be taken back.
#[derive(Drop)]
pub struct Lists {
    first: Vec<Option<u32>>,
    cells: Vec<(u32, Option<u32>)>,
}

impl Lists {
    pub fn new(alloc: Global) -> Lists {
        Lists {
            first: Vec::new(alloc),
            cells: Vec::new(alloc),
        }
    }

    /// One more list, which is empty.
    pub fn add_list(&mut self) -> Result<(), Stop> {
        self.first.push(None)?;
        Ok(())
    }

    /// Adds an item to a list.
    pub fn add(&mut self, list: u32, item: u32) -> Result<(), Stop> {
        let next = at(&self.first, list)?;
        let place = number_of(self.cells.len())?;
        self.cells.push((item, next))?;
        put(&mut self.first, list, Some(place))
    }

    /// Takes back the item that was added last to any list, which is this one.
    pub fn take_back(&mut self, list: u32) -> Result<(), Stop> {
        match self.cells.pop() {
            Some(cell) => put(&mut self.first, list, cell.1),
            None => Err(Stop::GivesUp),
        }
    }

    /// The items of a list.
    pub fn items(&self, alloc: Global, list: u32) -> Result<Vec<u32>, Stop> {
        let mut items = Vec::new(alloc);
        let mut next = at(&self.first, list)?;
        for _ in 0..self.cells.len() {
            let Some(place) = next else {
                break;
            };
            let cell = at(&self.cells, place)?;
            items.push(cell.0)?;
            next = cell.1;
        }
        Ok(items)
    }
}
