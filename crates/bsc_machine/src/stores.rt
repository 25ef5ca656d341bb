//! The stores of the machine: files.

use crate::machine::Machine;
use crate::store_limit::StorePaths;
use bsc_attending::Stores;
use bsc_spool::{Change, Channel, Found, Progress, Store, StoreFault};
use bsc_store::TableStore;
use bsc_storing::{Opened, StoreFiles};
use sqlite::{File, FileStore};
use std::rt::HostRuntime;

/// A store in a file, which is full if the file or its log comes near the limit on the size of
/// files. It is a type without parameters, by which the program is checked at less cost than by the
/// table itself.
#[derive(Drop)]
pub struct KeptFile<'a> {
    paths: StorePaths<'a>,
    table: TableStore<FileStore<File>>,
}

impl Store for KeptFile<'_> {
    ghost keeps = { λ step old new.
        ⟦<TableStore<FileStore<File>> as Store>⟧.keeps step old.table new.table };

    ghost stays = { λ old new.
        ⟦<TableStore<FileStore<File>> as Store>⟧.stays old.table new.table };

    ghost survives = { λ step old new.
        ⟦<TableStore<FileStore<File>> as Store>⟧.survives step old.table new.table };

    ghost sound = { λ it. ⟦<TableStore<FileStore<File>> as Store>⟧.sound it.table };

    ghost reads = { λ old new.
        ⟦<TableStore<FileStore<File>> as Store>⟧.reads old.table new.table };

    ghost counts = { λ channel it old new.
        ⟦<TableStore<FileStore<File>> as Store>⟧.counts channel it old.table new.table };

    ghost finds_offered = { λ channel mark more it old new.
        ⟦<TableStore<FileStore<File>> as Store>⟧.finds_offered channel mark more it old.table
        new.table };

    ghost finds_arrived = { λ channel mark more it old new.
        ⟦<TableStore<FileStore<File>> as Store>⟧.finds_arrived channel mark more it old.table
        new.table };

    fn commit(&mut self, step: &[Change]) -> Result<(), StoreFault> {
        if !self.paths.have_room(step.len()) {
            return Err(StoreFault::Full);
        }
        self.table.commit(step)
    }

    fn progress(&mut self, channel: &Channel) -> Result<Progress, StoreFault> {
        self.table.progress(channel)
    }

    fn offered(
        &mut self,
        channel: &Channel,
        mark: i64,
        more: u32,
    ) -> Result<Option<Found>, StoreFault> {
        self.table.offered(channel, mark, more)
    }

    fn arrived(
        &mut self,
        channel: &Channel,
        mark: i64,
        more: u32,
    ) -> Result<Option<Found>, StoreFault> {
        self.table.arrived(channel, mark, more)
    }
}

impl<'a> Stores for Machine<'a, HostRuntime> {
    type Store = KeptFile<'a>;

    fn open_store(&mut self, path: &str, own: &str) -> Result<KeptFile<'a>, StoreFault> {
        let paths = paths_of(self.runtime, path)?;
        let table = TableStore::open(self.runtime, path, own)?;
        Ok(KeptFile { paths, table })
    }
}

impl<'a> StoreFiles for Machine<'a, HostRuntime> {
    type Kept = KeptFile<'a>;

    fn open_kept(&mut self, path: &str) -> Result<Opened<KeptFile<'a>>, StoreFault> {
        let paths = paths_of(self.runtime, path)?;
        let (table, line) = TableStore::open_any(self.runtime, path)?;
        Ok(Opened {
            store: KeptFile { paths, table },
            line,
        })
    }

    fn close_kept(&mut self, opened: Opened<KeptFile<'a>>) -> Result<(), StoreFault> {
        opened.store.table.close()
    }

    fn make_kept(&mut self, path: &str, line: &str) -> Result<(), StoreFault> {
        if !paths_of(self.runtime, path)?.have_room(0) {
            return Err(StoreFault::Full);
        }
        TableStore::create(self.runtime, path, line)?.close()
    }
}

/// Returns the paths of the files of a store.
fn paths_of<'a>(runtime: &'a HostRuntime, path: &str) -> Result<StorePaths<'a>, StoreFault> {
    match StorePaths::of(runtime, path) {
        Ok(paths) => Ok(paths),
        Err(_) => Err(StoreFault::OutOfMemory),
    }
}
