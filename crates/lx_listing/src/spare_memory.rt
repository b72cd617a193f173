//! Reuses memory that comes back from the printer, so that not every piece allocates.

ghost use Rattle.std.specs.Prelude.{◌≡◌, []};

use lx_scan::ItemList;
use std::alloc::Global;

/// Lists of items and blocks of lines for reuse, with a count of the pieces under way to the printer. The contents of such a list or block mean
/// nothing: it is emptied before use. A caller names the file that it cuts or prints, so that threads at different files needn't contend. No contract
/// speaks of any of this.
pub trait Spares {
    fn take_list(&self, file: u32) -> Option<ItemList>;

    /// Takes a list back, or drops it if there are enough.
    fn give_list(&self, file: u32, list: ItemList);

    fn take_block(&self, file: u32) -> Option<Vec<u8>>;

    /// Takes a block back, or drops it if there are enough.
    fn give_block(&self, file: u32, block: Vec<u8>);

    /// Notes that the piece of this number of a file is under way.
    fn send(&self, number: u64);

    /// Notes that the printer has come to the piece of this number of this file.
    fn receive(&self, file: u32, number: u64);

    /// Returns true if the thread that cuts this file ought to make the lines too, because the printer can't keep up. It has sent `sent` pieces of
    /// it.
    fn are_many(&self, file: u32, sent: u64) -> bool;
}

/// Returns an empty block, in used memory if there is some.
pub fn emptied(alloc: Global, spare: Option<Vec<u8>>) -> Vec<u8>
    ensures { result.items ≡ [] }
{
    match spare {
        Some(mut block) => {
            block.clear();
            block
        }
        None => Vec::new(alloc),
    }
}

/// Returns an empty list, in used memory if there is some.
pub(crate) fn emptied_list(alloc: Global, spare: Option<ItemList>) -> ItemList
    ensures { result ≡ [] }
{
    match spare {
        Some(mut list) => {
            list.clear();
            list
        }
        None => ItemList::new(alloc),
    }
}

impl<'s, Y: Spares> Spares for &'s Y {
    fn take_list(&self, file: u32) -> Option<ItemList> {
        (**self).take_list(file)
    }

    fn give_list(&self, file: u32, list: ItemList) {
        (**self).give_list(file, list);
    }

    fn take_block(&self, file: u32) -> Option<Vec<u8>> {
        (**self).take_block(file)
    }

    fn give_block(&self, file: u32, block: Vec<u8>) {
        (**self).give_block(file, block);
    }

    fn send(&self, number: u64) {
        (**self).send(number);
    }

    fn receive(&self, file: u32, number: u64) {
        (**self).receive(file, number);
    }

    fn are_many(&self, file: u32, sent: u64) -> bool {
        (**self).are_many(file, sent)
    }
}
