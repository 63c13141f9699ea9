// What lies in the words by a header: the records of its templates, and its entries.
ghost use Rattle.std.specs.Prelude.{◌≡◌, ◌+◌, ◌*◌, length};
ghost use Rattle.config.specs.Limits.{record_words};
ghost use Rattle.table.specs.Layout.{entries_at, records_at};
ghost use Rattle.table.specs.Parts.{entries_of, templates_of};
ghost use Rattle.table.specs.Table.{entries_from, records_from};
ghost use Rattle.pending_flows.specs.Header.{HoldsRows};

use super::header::Header;
use config::{ENTRY_WORDS, RECORD_WORDS};
use table::{entries_in, records_at, records_in};

impl Header {
    // The records of the held templates, and those of what is handed out, each record by itself.
    #[tactic(auto, using(crate::proofs::HeldRows::held_read, crate::proofs::HeldRows::handed_read))]
    pub fn templates(self, words: &[u64]) -> (&[[u64; RECORD_WORDS]], &[[u64; RECORD_WORDS]])
        requires { HoldsRows self words.now }
        ensures held { templates_of result.0.now ≡ records_from words.now (records_at self.limits) self.figures.templates }
        ensures held_count { length result.0.now ≡ self.figures.templates }
        ensures handed { templates_of result.1.now ≡ records_from words.now (records_at self.limits + record_words
            * self.figures.templates) self.figures.chance }
    {
        let Header { limits, figures } = self;
        let count = (figures.templates + figures.chance) as usize;
        let records = records_in(words, records_at(limits), count);
        records.split_at(figures.templates as usize)
    }

    // The entries, each by itself.
    pub fn entries(self, words: &[u64]) -> &[[u64; ENTRY_WORDS]]
        requires { HoldsRows self words.now }
        ensures entries { entries_of result.now ≡ entries_from words.now entries_at self.figures.entries }
        ensures count { length result.now ≡ self.figures.entries }
    {
        entries_in(words, self.figures.entries as usize)
    }
}
