// Registers by number: 0 is the empty value. Constant indices: with one that is not known a cycle takes 749 instructions in place of 475 where registers are read,
// and 1,447 where they are written too (docs/SPEED.md, opaque).
#![tactic(auto)]

ghost use Rattle.std.specs.Prelude.{◌≡◌};
ghost use Rattle.registers.specs.Registers.{select_of, register_of, pointer_of, update_of};

use u256::U256;

fn select_or<T: Copy>(values: [T; 15], n: u8, empty: T) -> T
    ensures { result ≡ select_of empty values n }
{
    match n {
        1 => values[0],
        2 => values[1],
        3 => values[2],
        4 => values[3],
        5 => values[4],
        6 => values[5],
        7 => values[6],
        8 => values[7],
        9 => values[8],
        10 => values[9],
        11 => values[10],
        12 => values[11],
        13 => values[12],
        14 => values[13],
        15 => values[14],
        _ => empty,
    }
}

pub fn select(registers: [U256; 15], n: u8) -> U256
    ensures { result ≡ register_of registers n }
{
    select_or(registers, n, u256::empty_word())
}

pub fn select_pointer(pointers: [bool; 15], n: u8) -> bool
    ensures { result ≡ pointer_of pointers n }
{
    select_or(pointers, n, false)
}

// Number 0 stays the empty value, whichever that is. One return of the array at the end: a return in each arm copies the array in each.
pub fn update<T: Copy>(mut values: [T; 15], n: u8, value: T) -> [T; 15]
    ensures { (empty : T) → result ≡ update_of empty values n value }
{
    match n {
        1 => values[0] = value,
        2 => values[1] = value,
        3 => values[2] = value,
        4 => values[3] = value,
        5 => values[4] = value,
        6 => values[5] = value,
        7 => values[6] = value,
        8 => values[7] = value,
        9 => values[8] = value,
        10 => values[9] = value,
        11 => values[10] = value,
        12 => values[11] = value,
        13 => values[12] = value,
        14 => values[13] = value,
        15 => values[14] = value,
        _ => {}
    }
    values
}
