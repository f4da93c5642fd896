// Reads spends and units from standard input, and prints the bill.
#![tactic(auto)]

use fees::ROOM;
use text::TOO_LONG;

// Arrays of the greatest size, since nothing is allocated. A read that fails counts as the end of the input.
fn main(rt: HostRuntime) {
    let mut input = [0u8; TOO_LONG];
    let (size, _) = text::read_full(&mut rt.stdin(), &mut input);
    let mut buffer = [0u8; ROOM];
    let printed = fees::bill(&input[..size], &mut buffer);
    let _ = rt.write_all(&buffer[..printed]);
}
