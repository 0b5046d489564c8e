//! What a call goes over: a cartridge, a shelf, sinks and words.

use crate::lists::push;
use crate::setups::{Part, Setup, Whose};
use ds_base::Proc;
use ds_io::Files;
use std::alloc::{AllocError, Global};

/// The image of a processor: where it goes, where it is entered, and its bytes.
#[derive(Drop)]
struct Image {
    place: u32,
    entry: u32,
    bytes: Vec<u8>,
}

impl Image {
    /// An empty image that goes there, and is entered there.
    fn new(alloc: Global, place: u32) -> Image {
        Image {
            place,
            entry: place,
            bytes: Vec::new(alloc),
        }
    }

    /// It has these bytes, or these behind its own.
    fn set(&mut self, adds: bool, bytes: &[u8]) -> Result<(), AllocError> {
        if !adds {
            self.bytes.truncate(0);
        }
        self.bytes.extend_from_slice(bytes)
    }
}

/// Words that stand in the header from a place on.
#[derive(Drop)]
struct Patch {
    at: usize,
    words: Vec<u32>,
}

/// A file on the shelf.
#[derive(Drop)]
struct Entry {
    name: String,
    bytes: Vec<u8>,
}

/// Which call of each part fails, by its number from 1; 0 where none does.
#[derive(Clone, Copy)]
pub struct Fails {
    /// Of the shelf.
    pub shelf: u64,
    /// Of the output.
    pub out: u64,
    /// Of the notes.
    pub notes: u64,
}

/// What a call goes over. The cartridge is ARM9's and ARM7's image behind a header of 512 bytes; it is the last file of the shelf.
#[derive(Drop)]
pub struct Scene {
    nine: Image,
    seven: Image,
    patches: Vec<Patch>,
    size: Option<usize>,
    name: String,
    files: Vec<Entry>,
    /// What fails.
    pub fails: Fails,
    /// For how many bytes the output has room.
    pub room: usize,
    /// How many bytes it takes at most a call, from 1.
    pub most: usize,
    /// The words of the command line.
    pub words: Vec<String>,
}

/// Puts a number into a file, little-endian, as far as the file goes.
fn set(file: &mut Vec<u8>, at: usize, value: u32) {
    for (i, byte) in value.to_le_bytes().iter().enumerate() {
        let at = at.saturating_add(i);
        if at < file.len() {
            file[at] = *byte;
        }
    }
}

/// Puts numbers into a file, one after the other.
fn set_all(file: &mut Vec<u8>, at: usize, values: &[u32]) {
    for (i, value) in values.iter().enumerate() {
        set(file, at.saturating_add(i.saturating_mul(4)), *value);
    }
}

/// Puts bytes into a file, one after the other, as far as the file goes.
fn set_bytes(file: &mut Vec<u8>, at: usize, bytes: &[u8]) {
    for (i, byte) in bytes.iter().enumerate() {
        let at = at.saturating_add(i);
        if at < file.len() {
            file[at] = *byte;
        }
    }
}

/// A length that a header can tell.
fn told(length: usize) -> u32 {
    (length as u64 % 0x1_0000_0000) as u32
}

/// Adds an image to a file, whose header has its fields from `field` on.
fn add(file: &mut Vec<u8>, field: usize, image: &Image) -> Result<(), AllocError> {
    let from = told(file.len());
    file.extend_from_slice(image.bytes.as_slice())?;
    let length = told(image.bytes.len());
    set_all(file, field, &[from, image.entry, image.place, length]);
    Ok(())
}

/// Puts a file on a shelf.
fn put(files: &mut Files, entry: &Entry) -> Result<(), AllocError> {
    files.push(entry.name.clone()?, entry.bytes.clone()?)
}

impl Scene {
    /// No images, which would go to 2000000h and 2100000h; nothing on the shelf but that cartridge, as `file`; no call fails, there is room for
    /// all output of a run, and no words are given.
    pub fn new(alloc: Global) -> Result<Scene, AllocError> {
        Ok(Scene {
            nine: Image::new(alloc, 0x0200_0000),
            seven: Image::new(alloc, 0x0210_0000),
            patches: Vec::new(alloc),
            size: None,
            name: String::from_str(alloc, "file")?,
            files: Vec::new(alloc),
            fails: Fails {
                shelf: 0,
                out: 0,
                notes: 0,
            },
            room: 6_000_000,
            most: usize::MAX,
            words: Vec::new(alloc),
        })
    }

    /// The image of a processor.
    fn image(&mut self, proc: Proc) -> &mut Image {
        match proc {
            Proc::Nine => &mut self.nine,
            Proc::Seven => &mut self.seven,
        }
    }

    /// The cartridge's file.
    pub fn cart(&self, alloc: Global) -> Result<Vec<u8>, AllocError> {
        let mut file = vec![in alloc; 0u8; 512]?;
        add(&mut file, 0x20, &self.nine)?;
        add(&mut file, 0x30, &self.seven)?;
        if let Some(size) = self.size {
            file.resize(size, 0)?;
        }
        for patch in &self.patches {
            set_all(&mut file, patch.at, patch.words.as_slice());
        }
        Ok(file)
    }

    /// The files of the shelf.
    pub fn shelf(&self, alloc: Global) -> Result<Files, AllocError> {
        let mut files = Files::new(alloc);
        for entry in &self.files {
            put(&mut files, entry)?;
        }
        files.push(self.name.clone()?, self.cart(alloc)?)?;
        Ok(files)
    }

    /// Sets an image, or both.
    fn set_image(&mut self, whose: Whose, adds: bool, bytes: &[u8]) -> Result<(), AllocError> {
        match whose {
            Whose::One(proc) => self.image(proc).set(adds, bytes),
            Whose::Both => {
                self.nine.set(adds, bytes)?;
                self.seven.set(adds, bytes)
            }
        }
    }

    /// Sets what fails.
    fn fail(&mut self, part: Part, call: u64) {
        match part {
            Part::Shelf => self.fails.shelf = call,
            Part::Out => self.fails.out = call,
            Part::Notes => self.fails.notes = call,
        }
    }

    /// Sets where an image goes, and where it is entered.
    fn place(&mut self, proc: Proc, place: u32) {
        let image = self.image(proc);
        image.place = place;
        image.entry = place;
    }

    /// Puts words into the header.
    fn patch(&mut self, at: usize, words: &Vec<u32>) -> Result<(), AllocError> {
        let words = words.clone()?;
        push(&mut self.patches, Patch { at, words })
    }

    /// Calls the cartridge's file by a name.
    fn call_cart(&mut self, name: &String) -> Result<(), AllocError> {
        self.name = name.clone()?;
        Ok(())
    }

    /// Puts a file on the shelf.
    fn put_file(&mut self, name: String, bytes: Vec<u8>) -> Result<(), AllocError> {
        push(&mut self.files, Entry { name, bytes })
    }

    /// Puts the saved state on the shelf, in place of what lies there under its name.
    pub fn put_state(
        &mut self,
        alloc: Global,
        name: &String,
        state: &[u8],
    ) -> Result<(), AllocError> {
        let bytes = Vec::from_slice(alloc, state)?;
        match self.file(name) {
            Some(entry) => {
                entry.bytes = bytes;
                Ok(())
            }
            None => self.put_file(name.clone()?, bytes),
        }
    }

    /// The first file of a name on the shelf, beside the cartridge.
    fn file(&mut self, name: &String) -> Option<&mut Entry> {
        for entry in &mut self.files {
            if entry.name == *name {
                return Some(entry);
            }
        }
        None
    }

    /// The bytes of the first file of a name on the shelf, beside the cartridge; none where there is none.
    pub fn bytes(&self, name: &String) -> &[u8] {
        for entry in &self.files {
            if entry.name == *name {
                return entry.bytes.as_slice();
            }
        }
        &[]
    }

    /// Puts bytes into a file of the shelf.
    fn set_file(&mut self, name: &String, at: usize, bytes: &[u8]) {
        if let Some(entry) = self.file(name) {
            set_bytes(&mut entry.bytes, at, bytes);
        }
    }

    /// Sets how many bytes a file of the shelf has.
    fn cut_file(&mut self, name: &String, size: usize) -> Result<(), AllocError> {
        match self.file(name) {
            Some(entry) => entry.bytes.resize(size, 0),
            None => Ok(()),
        }
    }

    /// Puts the cartridge as it stands on the shelf.
    fn shelve(&mut self, alloc: Global, name: &String) -> Result<(), AllocError> {
        let bytes = self.cart(alloc)?;
        self.put_file(name.clone()?, bytes)
    }

    /// Sets the words of the call.
    fn ask(&mut self, words: &Vec<String>) -> Result<(), AllocError> {
        self.words = words.clone()?;
        Ok(())
    }

    /// Changes what a line says.
    pub fn change(&mut self, alloc: Global, setup: &Setup) -> Result<(), AllocError> {
        match setup {
            Setup::Image { whose, adds, bytes } => self.set_image(*whose, *adds, bytes.as_slice()),
            Setup::Header { at, words } => self.patch(*at, words),
            Setup::Cart(name) => self.call_cart(name),
            Setup::Shelve(name) => self.shelve(alloc, name),
            Setup::File { name, bytes } => self.put_file(name.clone()?, bytes.clone()?),
            Setup::Cut { name, size } => self.cut_file(name, *size),
            Setup::Call(words) => self.ask(words),
            _ => {
                self.set_number(setup);
                Ok(())
            }
        }
    }

    /// Changes what a line of numbers says.
    fn set_number(&mut self, setup: &Setup) {
        match setup {
            Setup::Put { proc, number, word } => {
                set(
                    &mut self.image(*proc).bytes,
                    number.saturating_mul(4),
                    *word,
                );
            }
            Setup::Changed { name, at, bytes } => self.set_file(name, *at, bytes.as_slice()),
            Setup::Place { proc, place } => self.place(*proc, *place),
            Setup::Entry { proc, entry } => self.image(*proc).entry = *entry,
            Setup::Size(size) => self.size = Some(*size),
            Setup::Fails { part, call } => self.fail(*part, *call),
            Setup::Room(room) => self.room = *room,
            Setup::Slow(most) => self.most = *most,
            _ => {}
        }
    }
}
