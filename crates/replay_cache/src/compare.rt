// What a row has against the answer of its call and the areas after it.
use pending_queries::{CacheFigures, take_figures};
use recorded_cache::{Answered, Held, Row};
use std::fmt;

// The part of a row that differs first.
#[derive(Clone, Copy)]
pub enum Differs {
    // the line ends before its list
    Length,
    Number,
    Value,
    Figure,
    List,
}

// Whether the figures are those of the row, which stand behind its number and its value.
fn same_figures(held: Held<'_>, told: [u64; 8]) -> bool {
    let recorded = CacheFigures {
        templates: told[2],
        bodies: told[3],
        bytes: told[4],
        cached: told[5],
        dropped: told[6],
        handed: told[7],
    };
    take_figures(held.words, held.bytes).is_ok_and(|figures| figures == recorded)
}

// What of a row differs from the answer and the areas after it.
pub fn compare(held: Held<'_>, row: Row<'_>, got: Answered) -> Result<(), Differs> {
    let told = row.told;
    let listed = row.listed.ok_or(Differs::Length)?;
    if got.number != told[0] {
        return Err(Differs::Number);
    }
    if got.value != told[1] {
        return Err(Differs::Value);
    }
    if !same_figures(held, told) {
        return Err(Differs::Figure);
    }
    let mut list = row.list;
    let same = listed != 1
        || held.same_templates(&mut list) && held.same_handed_out(told[7] as usize, &mut list);
    // what is not listed, and what follows a list, ends the line
    if same && list.next().is_none() {
        Ok(())
    } else {
        Err(Differs::List)
    }
}

impl fmt::Display for Differs {
    fn fmt<W: fmt::Write>(&self, f: &mut fmt::Formatter<W>) -> fmt::Result {
        f.write_str(match self {
            Differs::Length => "length",
            Differs::Number => "number",
            Differs::Value => "value",
            Differs::Figure => "figure",
            Differs::List => "list",
        })
    }
}

// Whether nothing of a row differs; what does is said, before the row is named.
pub fn is_same(rt: &impl Print, compared: Result<(), Differs>) -> bool {
    if let Err(differs) = compared {
        let _ = print!(rt; "{differs} ");
    }
    compared.is_ok()
}
