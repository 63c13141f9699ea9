// Storing a record.
ghost use Rattle.std.specs.Prelude.{◌≡◌, ◌+◌, ◌≤◌, length};
ghost use Rattle.config.specs.Limits.{record_words};
ghost use Rattle.table_records.specs.Close.{put_record};

use table::TemplateRecord;

// Stores a record's three words from p on.
// By a place: a part of so many words (`first_chunk_mut`) is an Option, which every caller would have to open.
pub fn put_record(words: &mut [u64], p: usize, template: TemplateRecord)
    requires { p + record_words ≤ length words.old }
    ensures { words.new ≡ put_record words.old p template }
{
    words[p] = template.key;
    words[p + 1] = template.label;
    words[p + 2] = template.count;
}
