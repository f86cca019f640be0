//! Names that may be used before they are defined.
use crate::tokens::Name;
use std::alloc::{AllocError, Global};

/// A name in the `func` or the region of this number.
#[derive(Clone, Copy, Debug, PartialEq, Eq)]
pub struct Label {
    pub scope: usize,
    pub name: Name,
}

/// What is known of a label.
#[derive(Clone, Copy, Drop)]
struct LabelEntry {
    scope: usize,
    /// The place of the name's label in a scope that opened before this one, if there is one.
    earlier: Option<usize>,
    /// Its number once it is defined.
    number: Option<usize>,
    /// The token that mentions it first.
    mention: usize,
}

/// The labels of a text. Each has a place, by the order of their first mention, and a number once it
/// is defined.
///
/// Scopes are numbered as they open, and a label is asked for only while all scopes that opened after
/// its own are closed.
#[derive(Drop)]
pub struct Labels {
    /// For each name the place of its label in the scope that opened last and 1 more, or 0. From there
    /// `earlier` leads on to its labels in scopes that opened before.
    latest: Vec<usize>,
    entries: Vec<LabelEntry>,
}

impl Labels {
    /// No labels, for a text of so many names. Errors: allocation failure. Cost: the number of names.
    pub fn new(alloc: Global, names: usize) -> Result<Self, AllocError> {
        Ok(Labels {
            latest: vec![in alloc; 0; names]?,
            entries: Vec::new(alloc),
        })
    }

    /// Makes room for so many more labels. Errors: allocation failure. Cost: the number of labels.
    pub fn reserve(&mut self, labels: usize) -> Result<(), AllocError> {
        self.entries.reserve(labels)
    }

    /// The place of a label, which this token mentions. Errors: allocation failure. Cost: constant, amortised.
    #[inline(always)]
    pub fn place(&mut self, label: Label, mention: usize) -> Result<usize, AllocError> {
        match self.latest_as(label) {
            Some(place) => Ok(place),
            None => self.earlier_or_new(label, mention),
        }
    }

    // The place of the label, if it is its name's in the scope that opened last.
    fn latest_as(&self, label: Label) -> Option<usize> {
        let place = self.latest.get(label.name.number)?.checked_sub(1)?;
        let entry = self.entries.get(place)?;
        if entry.scope == label.scope {
            Some(place)
        } else {
            None
        }
    }

    // The place of a label that isn't its name's in the scope that opened last.
    #[inline(never)]
    fn earlier_or_new(&mut self, label: Label, mention: usize) -> Result<usize, AllocError> {
        let place = match self.last_up_to(label) {
            Some((place, scope)) if scope == label.scope => place,
            earlier => self.add(label.scope, earlier.map(|(place, _)| place), mention)?,
        };
        if let Some(latest) = self.latest.get_mut(label.name.number) {
            *latest = place.saturating_add(1);
        }
        Ok(place)
    }

    // The name's label in the scope or, if it has none there, in the last that opened before: its place
    // and its scope.
    fn last_up_to(&self, label: Label) -> Option<(usize, usize)> {
        let mut place = self.latest.get(label.name.number)?.checked_sub(1);
        // Each turn moves to a scope that opened before.
        for _ in 0..self.entries.len() {
            let entry = self.entries.get(place?)?;
            if entry.scope <= label.scope {
                return Some((place?, entry.scope));
            }
            place = entry.earlier;
        }
        None
    }

    // Adds a label, and answers its place.
    fn add(
        &mut self,
        scope: usize,
        earlier: Option<usize>,
        mention: usize,
    ) -> Result<usize, AllocError> {
        let place = self.entries.len();
        self.entries.push(LabelEntry {
            scope,
            earlier,
            number: None,
            mention,
        })?;
        Ok(place)
    }

    /// Gives the label, which this token mentions, its number, and answers whether it had none. Errors: allocation
    /// failure. Cost: constant, amortised.
    pub fn define(
        &mut self,
        label: Label,
        number: usize,
        mention: usize,
    ) -> Result<bool, AllocError> {
        let place = self.place(label, mention)?;
        match self.entries.get_mut(place) {
            Some(entry) if entry.number.is_none() => {
                entry.number = Some(number);
                Ok(true)
            }
            _ => Ok(false),
        }
    }

    /// The first token that mentions a label without a number. Cost: the number of labels.
    pub fn first_undefined(&self) -> Option<usize> {
        let mut first: Option<usize> = None;
        for entry in &self.entries {
            if entry.number.is_none() {
                first = Some(first.map_or(entry.mention, |token| token.min(entry.mention)));
            }
        }
        first
    }

    /// Writes the label's number for each place. A place without one stays. Cost: the number of places.
    pub fn resolve(&self, places: &mut [usize]) {
        for place in places.iter_mut() {
            match self.entries.get(*place) {
                Some(
                    LabelEntry {
                        number: Some(number),
                        ..
                    },
                ) => *place = *number,
                _ => {}
            }
        }
    }
}
