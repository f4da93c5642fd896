// What a line of the input says.
ghost use Rattle.std.specs.Prelude.{◌≡◌};
ghost use Rattle.table.specs.Line.{line_of, start_of};

use crate::{Line, Op, Start};
use text::{read_number, read_pair};

// A line `op price want`.
pub fn line_of(line: &[u8]) -> Option<Line>
    ensures { result ≡ line_of line.now }
{
    let mut fields = line.split(|byte| *byte == b' ');
    let op = Op::named(fields.next()?)?;
    let price = read_number(fields.next()?)?;
    let want = read_number(fields.next()?)?;
    if fields.next().is_some() {
        return None;
    }
    Some(Line { op, price, want })
}

// The line `ergs limit`.
pub fn start_of(line: &[u8]) -> Option<Start>
    ensures { result ≡ start_of line.now }
{
    let (ergs, limit) = read_pair(line)?;
    let ergs = u32::try_from(ergs).ok()?;
    let limit = u32::try_from(limit).ok()?;
    (1..=16).contains(&limit).then_some(Start { ergs, limit })
}
