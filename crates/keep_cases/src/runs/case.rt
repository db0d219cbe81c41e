use keep_command::{HostShelves, NamedShelf, NoOperators, Shelves, keepd, report_ending};
use keep_hashing::OneByOne;
use std::alloc::{AllocError, Global};
use std::fs;
use std::io::{self, ErrorKind, Write};

/// A script, and the words behind the program's name.
#[derive(Drop)]
pub(crate) struct Case {
    /// It is empty before the first case.
    name: String,
    words: Vec<String>,
    script: Vec<u8>,
    /// The folder that another run has meanwhile, if any.
    taken: Option<String>,
}

impl Case {
    pub fn new(alloc: Global) -> Case {
        Case {
            name: String::new(alloc),
            words: Vec::new(alloc),
            script: Vec::new(alloc),
            taken: None,
        }
    }

    /// Begins the case of this name.
    pub fn begin(&mut self, alloc: Global, name: &str) -> Result<(), AllocError> {
        self.name = String::from_str(alloc, name)?;
        self.words.clear();
        self.script.clear();
        self.taken = None;
        Ok(())
    }

    /// Adds what this row of the table gives.
    pub fn add(&mut self, rt: &HostRuntime, row: &str) -> io::Result<()> {
        if row.is_empty() || row.starts_with("#") {
            return Ok(());
        }
        let alloc = rt.alloc();
        match row.split_once(" ").unwrap_or((row, "")) {
            ("-", word) => self.words.push(String::from_str(alloc, word)?)?,
            ("|", text) => self.add_line(text)?,
            ("*", counted) => self.repeat(counted)?,
            ("x", digits) => self.add_bytes(alloc, digits)?,
            ("&", folder) => self.taken = Some(String::from_str(alloc, folder)?),
            ("f", file) => put_file(rt, file)?,
            _ => return Err(io::Error::from(ErrorKind::InvalidData)),
        }
        Ok(())
    }

    fn add_line(&mut self, text: &str) -> Result<(), AllocError> {
        self.script.extend_from_slice(text.as_bytes())?;
        self.script.extend_from_slice(b"\n")
    }

    /// Adds a text so many times.
    fn repeat(&mut self, counted: &str) -> io::Result<()> {
        let Some((count, text)) = counted.split_once(" ") else {
            return Err(io::Error::from(ErrorKind::InvalidData));
        };
        let Ok(count) = count.parse::<u32>() else {
            return Err(io::Error::from(ErrorKind::InvalidData));
        };
        for _ in 0..count {
            self.script.extend_from_slice(text.as_bytes())?;
        }
        Ok(())
    }

    fn add_bytes(&mut self, alloc: Global, digits: &str) -> io::Result<()> {
        let Ok(bytes) = hex::decode(alloc, digits.as_bytes()) else {
            return Err(io::Error::from(ErrorKind::InvalidData));
        };
        self.script.extend_from_slice(&bytes)?;
        Ok(())
    }

    /// Runs the case, and prints what comes of it.
    pub fn run<W: Write>(&self, rt: &HostRuntime, writer: &mut W) -> io::Result<()> {
        if self.name.is_empty() {
            return Ok(());
        }
        let alloc = rt.alloc();
        let words: Vec<&str> = self.words.iter().map(|word| word.as_str()).collect(alloc)?;
        let mut said = Vec::new(alloc);
        writeln!(writer, "= {}", self.name)?;
        let mut script = self.script.as_slice();
        let shelves = HostShelves::new(rt, OneByOne);
        let taken = self.shelf_there(&shelves);
        let ending = keepd(
            alloc,
            &shelves,
            &NoOperators,
            words.as_slice(),
            &mut script,
            writer,
        );
        drop(taken);
        let (code, _) = report_ending(ending, &mut said);
        write!(writer, "-> {code}")?;
        if said.is_empty() {
            return writer.write_all(b"\n");
        }
        writer.write_all(b" ")?;
        writer.write_all(&said)
    }

    /// The shelf in the folder that another run has.
    fn shelf_there<'a>(&self, shelves: &'a HostShelves<'_, OneByOne>) -> Option<NamedShelf<'a>> {
        let folder = self.taken.as_ref()?;
        shelves.open(Some(folder.as_str())).ok()
    }
}

/// Puts a file of this path and these bytes where the program runs.
fn put_file(rt: &HostRuntime, file: &str) -> io::Result<()> {
    let Some((path, digits)) = file.split_once(" ") else {
        return Err(io::Error::from(ErrorKind::InvalidData));
    };
    let Ok(bytes) = hex::decode(rt.alloc(), digits.as_bytes()) else {
        return Err(io::Error::from(ErrorKind::InvalidData));
    };
    fs::write(rt, path, &bytes)
}
