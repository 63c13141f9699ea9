// The list of a row against the areas, read here by docs/LAYOUT.md and not by the cache's own code.
use super::bodies::same_bytes;
use super::offers::{Offer, Offered};
use pending_handed_out::{place_handed_out, read_handed_out};
use recorded::Numbers;

// The areas after a call, and the offers that a list speaks of.
#[derive(Clone, Copy)]
pub struct Held<'a> {
    pub words: &'a [u64],
    pub bytes: &'a [u8],
    pub offered: &'a Offered,
}

impl Held<'_> {
    // Word i; 0 past the end.
    fn word(&self, i: usize) -> u64 {
        self.words.get(i).copied().unwrap_or(0)
    }

    // The records of the templates, least recent first: behind the header of 64 words and four words for each body that
    // may be held.
    fn records(&self) -> Option<&[[u64; 8]]> {
        let held = self.word(9) as usize;
        if held == 0 {
            return Some(&[]);
        }
        let most = self.word(0).checked_mul(self.word(1))?;
        if 262144 < most {
            return None;
        }
        let (records, _) = self.words.get(64 + most as usize * 4..)?.as_chunks();
        records.get(..held)
    }

    // The entry with this label that stands behind j others, in table order.
    fn nth_entry(&self, label: u64, j: u64) -> Option<&[u64; 4]> {
        let (entries, _) = self.words.get(64..)?.as_chunks();
        entries
            .iter()
            .take(self.word(10) as usize)
            .filter(|entry| entry[0] == label)
            .nth(j as usize)
    }

    // The bytes of an entry.
    fn body_of(&self, entry: &[u64; 4]) -> Option<&[u8]> {
        let [_, place, len, _] = *entry;
        self.bytes.get(place as usize..)?.get(..len as usize)
    }

    // Whether an entry is offer k: length, clock reading and bytes.
    fn same_entry(&self, entry: &[u64; 4], k: u64) -> bool {
        let [_, _, len, clock] = *entry;
        self.offered.get(k) == Some(Offer { len, clock })
            && self.body_of(entry).is_some_and(|body| same_bytes(body, k))
    }

    // Whether the next n offers of the list are the bodies with this label.
    fn same_bodies(&self, label: u64, n: u64, list: &mut Numbers<'_>) -> bool {
        for j in 0..n {
            let (Some(k), Some(entry)) = (list.next(), self.nth_entry(label, j)) else {
                return false;
            };
            if !self.same_entry(entry, k) {
                return false;
            }
        }
        true
    }

    // Whether the next template of the list is this record's.
    fn same_template(&self, record: &[u64; 8], list: &mut Numbers<'_>) -> bool {
        let [id, label, count, ..] = *record;
        list.next() == Some(id)
            && list.next() == Some(count)
            && self.same_bodies(label, count, list)
    }

    // Whether the next templates of the list are those held, least recent first.
    pub fn same_templates(&self, list: &mut Numbers<'_>) -> bool {
        self.records().is_some_and(|records| {
            records
                .iter()
                .all(|record| self.same_template(record, list))
        })
    }

    // Whether handed-out body j is that of offer k, by its length as placed and as read, and by its bytes.
    fn same_handed(&self, j: usize, k: u64) -> bool {
        let (Ok(placed), Some(offer)) = (
            place_handed_out(self.words, self.bytes, j),
            self.offered.get(k),
        ) else {
            return false;
        };
        let read = read_handed_out(self.words, self.bytes, j);
        [placed.len as u64, read.len() as u64] == [offer.len; 2] && same_bytes(read, k)
    }

    // Whether the next n offers of the list are the handed-out bodies, oldest first.
    pub fn same_handed_out(&self, n: usize, list: &mut Numbers<'_>) -> bool {
        (0..n).all(|j| list.next().is_some_and(|k| self.same_handed(j, k)))
    }
}
