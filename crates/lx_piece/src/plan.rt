//! The plan of a run: its files, its tables, and the number of items of a piece.

ghost use Rattle.std.specs.Prelude.{◌≡◌, ◌<◌, ◌≤◌, length, map, vec_len};
ghost use Rattle.lx_piece.specs.Plans.{IsPlan, files_of, bytes_of, input_view, is_cut, kind_of, kinds_of, max_files, max_items};

use crate::input::Input;
use lx_scan::lines::items_have_their_lines;
use lx_tables::Tables;
use lx_tables::well_formed::tables_are_well_formed;
use std::marker::Model;

/// Greatest number of files of a plan.
pub const MAX_FILES: usize = 65_536;

/// Greatest number of items of a piece.
pub const MAX_ITEMS: u32 = 4_096;

/// Greatest number of workers that scan the files of a plan.
pub const MAX_WORKERS: u8 = 8;

/// The files of one run, the tables by which they are scanned, and the size of their pieces.
#[derive(Drop)]
pub struct Plan {
    tables: Tables,
    files: Vec<Input>,
    per_piece: u32,
    run: u64,
}

impl Model for Plan {
    ghost use Rattle.std.specs.Prelude.{map};
    ghost use Rattle.lx_piece.specs.Plans.{Planned, IsPlan, input_view};

    ghost Value = { Planned };

    ghost view = { λ s.
        record
        { run = s.run; per_piece = s.per_piece; table = s.tables; inputs = map input_view s.files.items } };

    ghost invariant = { λ s.
        IsPlan (record
        { run = s.run; per_piece = s.per_piece; table = s.tables; inputs = map input_view s.files.items }) };
}

impl Plan {
    /// Returns a plan of 1 to 65,536 files, whose items are those that the tables yield. `per_piece`, 1 to 4,096, is the number of items of a piece.
    /// `run` is the number that the pieces carry. Allocates nothing.
    pub fn new(tables: Tables, files: Vec<Input>, per_piece: u32, run: u64) -> Plan
        requires some_files { 0 < vec_len files }
        requires few_files { vec_len files ≤ max_files }
        requires some_items { 0 < per_piece }
        requires few_items { per_piece ≤ max_items }
        ensures parts { result ≡ record
            { run = run; per_piece = per_piece; table = tables; inputs = map input_view files.items } }
        ensures plan { IsPlan result }
    {
        // laws: the plan's items are well formed
        items_have_their_lines();
        tables_are_well_formed(&tables);
        Plan {
            tables,
            files,
            per_piece,
            run,
        }
    }

    /// Returns the number of files, 1 to 65,536.
    pub fn files(&self) -> u32
        ensures count { result ≡ files_of self.now }
        ensures plan { IsPlan self.now }
    {
        self.files.len() as u32
    }

    /// Returns the bytes that were read of a file.
    pub fn bytes(&self, file: u32) -> &[u8]
        requires { file < files_of self.now }
        ensures { result.now ≡ bytes_of self.now file }
    {
        self.files[file as usize].bytes.as_slice()
    }

    /// Returns the name of a kind.
    pub fn kind(&self, number: u32) -> &[u8]
        requires { number < length (kinds_of self.now) }
        ensures { result.now ≡ kind_of self.now number }
    {
        self.tables.kind(number)
    }

    /// Returns true if the reading of the file failed after its bytes.
    pub fn is_cut(&self, file: u32) -> bool
        requires { file < files_of self.now }
        ensures { result ≡ is_cut self.now file }
    {
        self.files[file as usize].cut
    }

    /// Returns the tables by which the files are scanned.
    pub fn tables(&self) -> &Tables
        ensures { result.now ≡ self.now.table }
    {
        &self.tables
    }

    /// Returns the number that the pieces carry.
    pub fn run(&self) -> u64
        ensures { result ≡ self.now.run }
    {
        self.run
    }

    /// Returns the number of items of a piece, 1 to 4,096.
    pub(crate) fn per_piece(&self) -> u32
        ensures count { result ≡ self.now.per_piece }
        ensures some { 0 < result }
        ensures few { result ≤ max_items }
        ensures plan { IsPlan self.now }
    {
        self.per_piece
    }
}

/// States a law: plans are well formed, by the invariant of their type.
pub fn plans_are_well_formed(plan: &Plan)
    ensures { IsPlan plan.now }
{
    // the access to a field opens the invariant
    let _files = &plan.files;
}
