// What a replay counts and prints.
ghost use Rattle.std.specs.Prelude.{◌≡◌};
ghost use Rattle.recorded.specs.Count.{opened, with_row};

// How many rows were run, and how many of them differ from what was recorded.
#[derive(Clone, Copy)]
pub struct Tally {
    pub rows: u64,
    pub differ: u64,
}

impl Tally {
    pub fn new() -> Self
        ensures { result ≡ opened }
    {
        Self { rows: 0, differ: 0 }
    }

    // One row more. The number of a row that differs is printed.
    pub fn with_row(self, rt: &impl Print, same: bool) -> Self
        ensures { result ≡ with_row self same }
    {
        let rows = self.rows.saturating_add(1);
        if same {
            return Self {
                rows,
                differ: self.differ,
            };
        }
        let _ = println!(rt; "differs: row {rows}");
        Self {
            rows,
            differ: self.differ.saturating_add(1),
        }
    }

    // Prints both counts and answers how many rows differ.
    pub fn print(self, rt: &impl Print) -> u64
        ensures { result ≡ self.differ }
    {
        let _ = println!(rt; "rows: {}", self.rows);
        let _ = println!(rt; "differ: {}", self.differ);
        self.differ
    }
}
