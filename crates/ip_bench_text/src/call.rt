// One call of the program, as a text says it.
use ip_ground::FileName;
use std::alloc::{AllocError, Global};

/// A byte of a file that others change while a call goes: reads of the file give it so, but the first ones of the call.
#[derive(Clone, Copy)]
pub struct Change {
    pub file: FileName,
    /// The place of the byte, from 0.
    pub at: u64,
    pub byte: u8,
    /// How many reads give it as it was.
    pub behind: u64,
}

/// A call of the program: its words, its script, and what it is to say.
#[derive(Drop)]
pub struct Call {
    /// The words behind the program's name; none where it serves the folder.
    pub words: Option<String>,
    /// What it reads.
    pub script: Vec<u8>,
    /// What others change while it goes.
    pub changes: Vec<Change>,
    /// How many bytes of the script there are behind each of its lines.
    pub ends: Vec<u64>,
    /// How many there are where a reply tells of a child that was started.
    pub starts: Vec<u64>,
    /// All replies.
    pub replies: Vec<u8>,
    /// The line of the text in which each of them stands.
    pub places: Vec<u64>,
    /// The name of what stands in front of it, and behind each of its lines.
    pub marks: Vec<String>,
}

impl Call {
    /// The call that serves the folder, as yet without a line.
    pub fn new(alloc: Global) -> Call {
        Call {
            words: None,
            script: Vec::new(alloc),
            changes: Vec::new(alloc),
            ends: Vec::new(alloc),
            starts: Vec::new(alloc),
            replies: Vec::new(alloc),
            places: Vec::new(alloc),
            marks: Vec::new(alloc),
        }
    }

    /// Whether a text has said something of it.
    pub fn is_open(&self) -> bool {
        self.words.is_some() || !self.script.is_empty() || !self.replies.is_empty()
    }

    /// The front of its script of so many bytes.
    pub fn front(&self, length: u64) -> &[u8] {
        self.script.get(..length as usize).unwrap_or(&[])
    }

    /// The front of its script of so many lines.
    pub fn first_lines(&self, count: usize) -> &[u8] {
        let Some(last) = count.checked_sub(1) else {
            return &[];
        };
        match self.ends.get(last) {
            Some(length) => self.front(*length),
            None => &self.script,
        }
    }

    /// The script goes on with these bytes. Behind each line that ends in them stands what the mark says.
    pub fn put_script(
        &mut self,
        bytes: &[u8],
        mark: &str,
        alloc: Global,
    ) -> Result<(), AllocError> {
        if self.marks.is_empty() {
            self.marks.push(String::from_str(alloc, mark)?)?;
        }
        for byte in bytes {
            self.script.push(*byte)?;
            if *byte == b'\n' {
                self.ends.push(self.script.len() as u64)?;
                self.marks.push(String::from_str(alloc, mark)?)?;
            }
        }
        Ok(())
    }

    /// One more reply, which stands in this line of the text.
    pub fn put_reply(&mut self, reply: &str, at: u64) -> Result<(), AllocError> {
        self.places.push(at)?;
        if reply.starts_with("started ") {
            self.starts.push(self.script.len() as u64)?;
        }
        self.replies.extend_from_slice(reply.as_bytes())?;
        Ok(self.replies.push(b'\n')?)
    }

    /// From the last line on this stands.
    pub fn put_mark(&mut self, mark: &str, alloc: Global) -> Result<(), AllocError> {
        if self.marks.pop().is_some() {
            self.marks.push(String::from_str(alloc, mark)?)?;
        }
        Ok(())
    }
}
