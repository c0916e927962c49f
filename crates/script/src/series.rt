// A batch of point records that differ in address and value, made from its first record.

// Octets of a record; where its IOA begins and ends, and where its value begins.
pub const RECORD: usize = 24;

const ADDRESS: usize = 2;

const ADDRESS_END: usize = 6;

const VALUE: usize = 12;

// The record that follows another: to the IOA and to each octet of the value 1 is added.
fn following(record: [u8; RECORD]) -> [u8; RECORD] {
    let mut next = record;
    let ioa = u32::from_le_bytes([record[2], record[3], record[4], record[5]]).wrapping_add(1);
    next[ADDRESS..ADDRESS_END].copy_from_slice(&ioa.to_le_bytes());
    for octet in &mut next[VALUE..] {
        *octet = octet.wrapping_add(1);
    }
    next
}

// Fills a batch with the series that one record begins.
pub fn series(first: [u8; RECORD], batch: &mut [u8]) {
    let mut record = first;
    for place in batch.chunks_exact_mut(RECORD) {
        place.copy_from_slice(&record);
        record = following(record);
    }
}
