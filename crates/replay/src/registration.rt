// Opening, registration, removal and shares. Each function reads the call's arguments from the script after its letter, calls, and begins
// its line. A script's form is described in reference/script.py.
use crate::reply::Replay;
use script::memory::{copy_in, numbers_in};
use script::series::{RECORD, series};
use std::io::{Result, Write};

// What the arrays of a plan and of a series have room for.
const PLAN_ROOM: usize = 256;

const SERIES_ROOM: usize = 4100;

impl<'a, W: Write> Replay<'a, W> {
    // Open; passed over where the plan has no room.
    pub fn open(&mut self) -> Result<()> {
        let capacity = self.script.four();
        let count = self.script.length_in_two();
        if PLAN_ROOM < count {
            return Ok(());
        }
        let mut plan = [0u16; PLAN_ROOM];
        numbers_in(self.script.part(2 * count), &mut plan);
        let table = self.memories.table.lent_mut();
        let reply = khuvelter::khuvelter_open(table, capacity, &plan[..count]);
        self.print("open", reply)
    }

    // Register one point.
    pub fn register(&mut self) -> Result<()> {
        let record = self.record();
        let table = self.memories.table.lent_mut();
        let reply = khuvelter::khuvelter_register_point(table, &record);
        self.print("register", reply)
    }

    // Register a batch.
    pub fn batch(&mut self) -> Result<()> {
        let length = self.script.length_in_four();
        let records = self.script.part(length);
        let table = self.memories.table.lent_mut();
        let reply = khuvelter::khuvelter_register_points(table, records);
        self.print("batch", reply)
    }

    // Register a batch that is a series made of its first record; passed over where the series has no room.
    pub fn batch_of_series(&mut self) -> Result<()> {
        let count = self.script.length_in_two();
        if SERIES_ROOM < count {
            return Ok(());
        }
        let mut room = [0u8; RECORD * SERIES_ROOM];
        let records = &mut room[..RECORD * count];
        series(self.record(), records);
        let table = self.memories.table.lent_mut();
        let reply = khuvelter::khuvelter_register_points(table, records);
        self.print("batch", reply)
    }

    // Unregister one point.
    pub fn unregister(&mut self) -> Result<()> {
        let ca = self.script.two();
        let ioa = self.script.four();
        let table = self.memories.table.lent_mut();
        let reply = khuvelter::khuvelter_unregister_point(table, ca, ioa);
        self.print("unregister", reply)
    }

    // Unregister all.
    pub fn clear(&mut self) -> Result<()> {
        let reply = khuvelter::khuvelter_unregister_all(self.memories.table.lent_mut());
        self.print("clear", reply)
    }

    // The share of a station.
    pub fn share(&mut self) -> Result<()> {
        let ca = self.script.two();
        let share = khuvelter::khuvelter_share(self.memories.table.lent(), ca);
        write!(
            self.out,
            "share {} {} {} {} {} {}",
            share.number, share.reservation, share.ceiling, share.held, share.free, share.unmet
        )
    }

    // Reads a record from the script.
    fn record(&mut self) -> [u8; RECORD] {
        let mut record = [0u8; RECORD];
        copy_in(self.script.part(RECORD), &mut record);
        record
    }
}
