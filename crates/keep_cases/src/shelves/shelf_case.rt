use crate::shelves::case_failures::Plan;
use keep_shelf::MemoryShelf;
use std::alloc::{AllocError, Global};

/// Which calls of a case fail.
#[derive(Clone, Copy)]
pub(crate) enum Failing {
    Nothing,
    Chosen(Plan),
    /// Each in turn.
    Each,
}

/// Which contents of the shelf are opened as books of their own when the script is done, and shown.
#[derive(Clone, Copy)]
pub(crate) enum Stops {
    Nowhere,
    /// The one at the beginning, and what each call left.
    AtEachCall,
    /// The one after the opening, and what each later call left.
    AfterOpening,
}

/// A shelf, a script, and which calls fail.
#[derive(Drop)]
pub(crate) struct Case {
    pub alloc: Global,
    /// It is empty before the first case.
    pub name: String,
    /// What stands on the shelf at the beginning.
    pub shelf: MemoryShelf,
    pub failing: Failing,
    pub stops: Stops,
    /// How many steps come before the first call that is counted. The first step is the opening, the others are lines.
    pub counted: usize,
    /// Whether the shelf is to be opened.
    pub opened: bool,
    /// Whether the lines are one script, whose run opens the shelf. Else each is a script of its own.
    pub is_script: bool,
    /// The scripts.
    pub lines: Vec<String>,
    /// In which ways the shelf at the beginning is damaged, each by itself.
    pub damages: Vec<String>,
}

impl Case {
    pub fn new(alloc: Global) -> Case {
        Case {
            alloc,
            name: String::new(alloc),
            shelf: MemoryShelf::new(alloc),
            failing: Failing::Nothing,
            stops: Stops::Nowhere,
            counted: 0,
            opened: false,
            is_script: false,
            lines: Vec::new(alloc),
            damages: Vec::new(alloc),
        }
    }

    /// What the calls from here on leave is shown, and what stands there now. Here is before the opening or after it.
    pub fn stop(&mut self) {
        self.stops = if self.opened {
            Stops::AfterOpening
        } else {
            Stops::AtEachCall
        };
    }

    /// Adds a line.
    pub fn add_line(&mut self, line: &str) -> Result<(), AllocError> {
        match self.lines.last_mut() {
            Some(script) if self.is_script => {
                script.push('\n')?;
                script.push_str(line)?;
            }
            _ => self.lines.push(String::from_str(self.alloc, line)?)?,
        }
        Ok(())
    }

    /// The calls from the next step on fail so.
    pub fn fail(&mut self, failing: Failing) {
        self.counted = self.lines.len() + usize::from(self.opened);
        self.failing = failing;
    }
}
