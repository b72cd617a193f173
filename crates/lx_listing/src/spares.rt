//! Memory for reuse: that of one thread, and that shared by workers and the printer.

use crate::Spares;
use lx_scan::ItemList;
use std::alloc::{AllocError, Global};
use std::cell::Cell;
use std::hint::spin_loop;
use std::sync::atomic::{AtomicU64, Ordering};
use std::sync::{Mutex, MutexGuard};

/// The memory of a single thread, which cuts a piece and prints it before the next one.
#[derive(Drop)]
pub struct Alone {
    list: Cell<Option<ItemList>>,
    block: Cell<Option<Vec<u8>>>,
}

impl Alone {
    pub fn new() -> Alone {
        Alone {
            list: Cell::new(None),
            block: Cell::new(None),
        }
    }
}

impl Spares for Alone {
    fn take_list(&self, _file: u32) -> Option<ItemList> {
        self.list.replace(None)
    }

    fn give_list(&self, _file: u32, list: ItemList) {
        self.list.set(Some(list));
    }

    fn take_block(&self, _file: u32) -> Option<Vec<u8>> {
        self.block.replace(None)
    }

    fn give_block(&self, _file: u32, block: Vec<u8>) {
        self.block.set(Some(block));
    }

    fn send(&self, _number: u64) {}

    fn receive(&self, _file: u32, _number: u64) {}

    fn are_many(&self, _file: u32, _sent: u64) -> bool {
        false
    }
}

// Number of pieces of the printed file under way from which the worker that cuts it makes lines too.
const MANY: u64 = 32;

// Number of pieces of all files under way from which a worker that cuts a later file makes lines too.
const MANY_OF_ALL: u64 = 16;

// Only one piece in this many of a file is counted. A changed count comes from the other thread's cache, which takes time.
const COUNTED: u64 = 4;

fn is_counted(number: u64) -> bool {
    number % COUNTED == 0
}

// Number of attempts to lock a stack before a thread goes on without it.
const LOOKS: u32 = 64;

/// Memory for reuse. The last one in is the first one out, since it is likeliest to be in a cache. No thread waits here for long.
#[derive(Drop)]
struct Stack<T> {
    kept: Mutex<Vec<T>>,
}

impl<T> Stack<T> {
    // Makes an empty stack with room for `most`.
    fn new(alloc: Global, most: usize) -> Result<Stack<T>, AllocError> {
        Ok(Stack {
            kept: Mutex::new(Vec::with_capacity(alloc, most)?),
        })
    }

    // Locks the stack, unless another thread holds it during all attempts.
    fn enter(&self) -> Option<MutexGuard<'_, Vec<T>>> {
        for _ in 0..LOOKS {
            let guard = self.kept.try_lock();
            if guard.is_some() {
                return guard;
            }
            spin_loop();
        }
        None
    }

    fn take(&self) -> Option<T> {
        self.enter()?.pop()
    }

    // Adds `spare`, or returns it if there is no room or another thread holds the stack.
    fn give(&self, spare: T) -> Option<T>
    where
        T: Drop,
    {
        let Some(mut kept) = self.enter() else {
            return Some(spare);
        };
        if kept.len() == kept.capacity() {
            return Some(spare);
        }
        let _refused = kept.push(spare);
        None
    }
}

/// Lists and blocks for reuse.
#[derive(Drop)]
struct Shelf {
    lists: Stack<ItemList>,
    blocks: Stack<Vec<u8>>,
}

impl Shelf {
    // Makes a shelf with room for `most` lists and `most` blocks.
    fn new(alloc: Global, most: usize) -> Result<Shelf, AllocError> {
        Ok(Shelf {
            lists: Stack::new(alloc, most)?,
            blocks: Stack::new(alloc, most)?,
        })
    }
}

// Number of shelves. Workers are mostly at files with successive numbers, so they seldom use the same shelf.
const SHELVES: u32 = 8;

// Number of lists, and of blocks, for which a shelf has room. A file seldom needs more of them at once.
const ON_A_SHELF: usize = 32;

// Capacity of the shelf for all files, which takes what has no room elsewhere. The pieces of the printed file fit, since the post holds 256 notes.
const FOR_ALL: usize = 288;

/// Memory shared by the workers and the printer.
#[derive(Drop)]
pub struct Shared {
    // Shelves of single files. Files whose numbers have the same remainder share one.
    shelves: Vec<Shelf>,
    for_all: Shelf,
    // Number of counted pieces under way.
    pieces: AtomicU64,
    // The file that is printed, and the number of its pieces that the printer has come to, or a few fewer.
    file: AtomicU64,
    printed: AtomicU64,
}

impl Shared {
    /// Returns the shared memory with empty shelves.
    pub fn new(alloc: Global) -> Result<Shared, AllocError> {
        let mut shelves = Vec::with_capacity(alloc, SHELVES as usize)?;
        for _ in 0..SHELVES {
            shelves.push(Shelf::new(alloc, ON_A_SHELF)?)?;
        }
        Ok(Shared {
            shelves,
            for_all: Shelf::new(alloc, FOR_ALL)?,
            pieces: AtomicU64::new(0),
            file: AtomicU64::new(0),
            printed: AtomicU64::new(0),
        })
    }

    fn shelf(&self, file: u32) -> &Shelf {
        match self.shelves.get((file % SHELVES) as usize) {
            Some(shelf) => shelf,
            None => &self.for_all,
        }
    }
}

// Takes from the first stack, or from the other one if the first has none.
fn take_from<T>(first: &Stack<T>, other: &Stack<T>) -> Option<T> {
    match first.take() {
        Some(spare) => Some(spare),
        None => other.take(),
    }
}

// Gives to the first stack, or to the other one if the first takes no more. Drops `spare` if neither does.
fn give_to<T: Drop>(first: &Stack<T>, other: &Stack<T>, spare: T) {
    if let Some(spare) = first.give(spare) {
        let _dropped = other.give(spare);
    }
}

impl Spares for Shared {
    fn take_list(&self, file: u32) -> Option<ItemList> {
        take_from(&self.shelf(file).lists, &self.for_all.lists)
    }

    fn give_list(&self, file: u32, list: ItemList) {
        give_to(&self.shelf(file).lists, &self.for_all.lists, list);
    }

    fn take_block(&self, file: u32) -> Option<Vec<u8>> {
        take_from(&self.shelf(file).blocks, &self.for_all.blocks)
    }

    fn give_block(&self, file: u32, block: Vec<u8>) {
        give_to(&self.shelf(file).blocks, &self.for_all.blocks, block);
    }

    fn send(&self, number: u64) {
        if is_counted(number) {
            self.pieces.fetch_add(1, Ordering::Relaxed);
        }
    }

    fn receive(&self, file: u32, number: u64) {
        if is_counted(number) {
            self.pieces.fetch_sub(1, Ordering::Relaxed);
            self.file.store(u64::from(file), Ordering::Relaxed);
            self.printed.store(number, Ordering::Relaxed);
        }
    }

    // Pieces of later files wait for the printed file, and not for the printer. So the worker of the printed file doesn't count them.
    fn are_many(&self, file: u32, sent: u64) -> bool {
        if self.file.load(Ordering::Relaxed) == u64::from(file) {
            return sent.saturating_sub(self.printed.load(Ordering::Relaxed)) >= MANY;
        }
        self.pieces.load(Ordering::Relaxed) >= MANY_OF_ALL / COUNTED
    }
}
