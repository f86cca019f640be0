//! Names of values or of blocks, as the regions of a text define and see them.
use crate::fault::Fault;
use crate::texts::Texts;
use std::alloc::Global;

/// What a name stands for: so many things from the first one on.
#[derive(Clone, Copy, Debug)]
struct Definition {
    /// How many regions were open when it was defined; none where it isn't defined.
    depth: usize,
    first: usize,
    count: usize,
}

/// A use of a name that no region has resolved.
#[derive(Clone, Copy, Debug)]
struct UnresolvedUse {
    name: usize,
    /// Which of the things of that name.
    part: usize,
    /// The slot that gets the answer.
    slot: usize,
    place: usize,
}

/// How many definitions were shadowed, and how many uses unresolved, when a region began.
#[derive(Clone, Copy, Debug)]
struct OpenRegion {
    shadowed: usize,
    pending: usize,
}

/// Names, each with what it stands for in the regions that are open.
#[doc(hidden)]
#[derive(Drop)]
pub struct NameTable {
    names: Texts,
    /// By the name's number.
    definitions: Vec<Definition>,
    /// What names stood for before a region defined them anew.
    shadowed: Vec<(usize, Definition)>,
    pending: Vec<UnresolvedUse>,
    scopes: Vec<OpenRegion>,
}

const UNDEFINED: Definition = Definition {
    depth: 0,
    first: 0,
    count: 0,
};

impl NameTable {
    /// No names, and no region. Takes no memory. Cost: constant.
    pub fn new(alloc: Global) -> Self {
        NameTable {
            names: Texts::new(alloc),
            definitions: Vec::new(alloc),
            shadowed: Vec::new(alloc),
            pending: Vec::new(alloc),
            scopes: Vec::new(alloc),
        }
    }

    /// A region begins. Errors: allocation failure. Cost: constant.
    pub fn open(&mut self) -> Result<(), Fault> {
        self.scopes.push(OpenRegion {
            shadowed: self.shadowed.len(),
            pending: self.pending.len(),
        })?;
        Ok(())
    }

    fn number(&mut self, name: &[u8]) -> Result<usize, Fault> {
        let number = self.names.number(name)?;
        if number >= self.definitions.len() {
            self.definitions.push(UNDEFINED)?;
        }
        Ok(number)
    }

    fn definition(&self, name: usize) -> Definition {
        self.definitions.get(name).copied().unwrap_or(UNDEFINED)
    }

    // The name stands for this from now on.
    fn set(&mut self, name: usize, definition: Definition) {
        if let Some(place) = self.definitions.get_mut(name) {
            *place = definition;
        }
    }

    /// From here to the end of the region the name stands for so many things, from the first one on. Answers whether
    /// the region hasn't defined it before. Errors: allocation failure. Cost: the length of the name.
    pub fn define(&mut self, name: &[u8], first: usize, count: usize) -> Result<bool, Fault> {
        let number = self.number(name)?;
        let depth = self.scopes.len();
        let before = self.definition(number);
        if before.depth == depth {
            return Ok(false);
        }
        self.shadowed.push((number, before))?;
        self.set(
            number,
            Definition {
                depth,
                first,
                count,
            },
        );
        Ok(true)
    }

    // What the use names, where its region defines it.
    fn thing_of(&self, name: usize, part: usize) -> Option<usize> {
        let definition = self.definition(name);
        if definition.depth == self.scopes.len() && part < definition.count {
            Some(definition.first.saturating_add(part))
        } else {
            None
        }
    }

    /// The thing that the name stands for, where its region has already defined it; else the slot gets the answer at
    /// the end of a region. Errors: allocation failure. Cost: the length of the name.
    pub fn find(
        &mut self,
        name: &[u8],
        part: usize,
        slot: usize,
        place: usize,
    ) -> Result<usize, Fault> {
        let name = self.number(name)?;
        if let Some(found) = self.thing_of(name, part) {
            return Ok(found);
        }
        self.pending.push(UnresolvedUse {
            name,
            part,
            slot,
            place,
        })?;
        Ok(0)
    }

    // Gives the uses from this one on their answers, and keeps those that have none.
    fn settle(&mut self, first: usize, slots: &mut [usize]) {
        let mut kept = first;
        for i in first..self.pending.len() {
            let Some(unresolved) = self.pending.get(i).copied() else {
                break;
            };
            match self.thing_of(unresolved.name, unresolved.part) {
                Some(found) => {
                    if let Some(slot) = slots.get_mut(unresolved.slot) {
                        *slot = found;
                    }
                }
                None => {
                    if let Some(place) = self.pending.get_mut(kept) {
                        *place = unresolved;
                    }
                    kept = kept.saturating_add(1);
                }
            }
        }
        self.pending.truncate(kept);
    }

    /// The region ends: uses get their answers in the slots, and its names again stand for what they stood for before.
    /// Answers the place of a use that is still unresolved, for the enclosing region. Cost: the unresolved uses, and
    /// the names that the region defined.
    pub fn close(&mut self, slots: &mut [usize]) -> Option<usize> {
        let scope = self.scopes.last().copied()?;
        self.settle(scope.pending, slots);
        for _ in scope.shadowed..self.shadowed.len() {
            if let Some((name, before)) = self.shadowed.pop() {
                self.set(name, before);
            }
        }
        let _ = self.scopes.pop();
        self.pending
            .get(scope.pending)
            .map(|unresolved| unresolved.place)
    }

    /// How many regions are open. Cost: constant.
    pub fn depth(&self) -> usize {
        self.scopes.len()
    }
}
