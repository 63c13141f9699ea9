// A row of the recorded list (oracle/README.md, "Cache"): decimal numbers, as many as its call and its list need,
//     call arguments number value templates bodies bytes cached dropped handed listed list
ghost use Rattle.std.specs.Prelude.{◌≤◌};

use recorded::Numbers;

// A row up to its list.
#[derive(Clone, Copy)]
pub struct Row<'a> {
    // none where no call has the row's number
    pub call: Option<Call>,
    pub args: [u64; 8],
    // number, value, and six figures
    pub told: [u64; 8],
    // 1 where a list follows; none where the line is cut short before
    pub listed: Option<u64>,
    pub list: Numbers<'a>,
}

// Fills the room with the next numbers of a line; where it is cut short, the rest of the room stays as it is.
fn fill(room: &mut [u64], numbers: &mut Numbers<'_>) {
    for (value, number) in room.iter_mut().zip(numbers) {
        *value = number;
    }
}

// A call of a list.
#[derive(Clone, Copy, PartialEq, Eq)]
pub enum Call {
    Open,
    Offer,
    Drain,
    PutBack,
    Resize,
    Clear,
    WouldAccept,
    Read,
}

// A number that no call has.
#[derive(Clone, Copy)]
pub struct NoCall;

impl TryFrom<u64> for Call {
    type Error = NoCall;

    fn try_from(number: u64) -> Result<Call, NoCall> {
        match number {
            0 => Ok(Call::Open),
            1 => Ok(Call::Offer),
            2 => Ok(Call::Drain),
            3 => Ok(Call::PutBack),
            4 => Ok(Call::Resize),
            5 => Ok(Call::Clear),
            6 => Ok(Call::WouldAccept),
            7 => Ok(Call::Read),
            _ => Err(NoCall),
        }
    }
}

// How many arguments a call has; what is no call has none.
fn argument_count(call: Option<Call>) -> usize
    ensures { result ≤ 8 }
{
    match call {
        Some(Call::Open) => 8,
        Some(Call::Offer) => 3,
        Some(Call::Drain | Call::PutBack) => 2,
        Some(Call::Resize) => 6,
        Some(Call::WouldAccept) => 3,
        Some(Call::Read) => 1,
        Some(Call::Clear) | None => 0,
    }
}

// Reads the row of a line.
pub fn read_row(line: &[u8]) -> Row<'_> {
    let mut numbers = Numbers { rest: line };
    let call = numbers
        .next()
        .and_then(|number| Call::try_from(number).ok());
    let mut args = [0u64; 8];
    let mut told = [0u64; 8];
    let n = argument_count(call);
    fill(&mut args[..n], &mut numbers);
    fill(&mut told, &mut numbers);
    Row {
        call,
        args,
        told,
        listed: numbers.next(),
        list: numbers,
    }
}
