// A frame's row of words.
ghost use Rattle.std.specs.Prelude.{◌≡◌, ◌++◌, ◌/◌, ◌%◌, ◌^◌, if◌then◌else◌, leb, length, drop};
ghost use Rattle.signed.specs.Signed.{word_of};
ghost use Rattle.frame.specs.Bounds.{Bounds};
ghost use Rattle.frame.specs.Row.{row_width, row_of, frame_of, good_row, pubdata_of, u128_of};

use crate::{Address, Frame, PubdataCost, ROW_WIDTH, U128};

// Low and high bits are cast after the division: a `try_from` would have an error that cannot come.
fn low_word(x: u64) -> u32
    ensures { result ≡ x % 2 ^ 32 }
{
    (x % 0x1_0000_0000) as u32
}

fn high_word(x: u64) -> u32
    ensures { result ≡ x / 2 ^ 32 }
{
    (x / 0x1_0000_0000) as u32
}

fn pubdata_word(spent: PubdataCost) -> u32
    ensures { result ≡ word_of 32 spent.0 }
{
    signed::to_word(spent.0)
}

// The words of a frame.
pub(crate) fn row_words(f: Frame) -> [u32; ROW_WIDTH]
    ensures { result ≡ row_of f }
{
    let this = f.this_address;
    let sender = f.msg_sender;
    let code = f.code_address;
    let context = f.context_u128_value;
    let spent = f.total_pubdata_spent;
    [
        this.a0,
        this.a1,
        this.a2,
        this.a3,
        this.a4,
        sender.a0,
        sender.a1,
        sender.a2,
        sender.a3,
        sender.a4,
        code.a0,
        code.a1,
        code.a2,
        code.a3,
        code.a4,
        f.base_memory_page,
        f.code_page,
        u32::from(f.sp),
        u32::from(f.pc),
        u32::from(f.exception_handler_location),
        f.ergs_remaining,
        u32::from(f.this_shard_id),
        u32::from(f.caller_shard_id),
        u32::from(f.code_shard_id),
        u32::from(f.is_static),
        u32::from(f.is_local_frame),
        low_word(context.low),
        high_word(context.low),
        low_word(context.high),
        high_word(context.high),
        f.heap_bound,
        f.aux_heap_bound,
        pubdata_word(spent),
        f.stipend,
        f.opening_cycle,
    ]
}

// Writes a frame's row to the part of the store that begins at the row: the form that the paper names. A part that has no room for it stays.
pub(crate) fn write(part: &mut [u32], f: Frame)
    ensures { part.new ≡ (if leb row_width (length part.old) then row_of f ++ drop row_width part.old else part.old) }
{
    if let Some(row) = part.first_chunk_mut() {
        *row = row_words(f);
    }
}

pub(crate) fn is_good(row: &[u32; ROW_WIDTH]) -> bool
    ensures { result ≡ good_row 16 row.now }
{
    (row[17] < 0x1_0000)
        & (row[18] < 0x1_0000)
        & (row[19] < 0x1_0000)
        & (row[21] < 256)
        & (row[22] < 256)
        & (row[23] < 256)
        & (row[24] < 2)
        & (row[25] < 2)
}

fn pubdata_of(word: u32) -> PubdataCost
    ensures { result ≡ pubdata_of word }
{
    PubdataCost(signed::from_word(word))
}

// Four words, the lowest first.
fn u128_of(w0: u32, w1: u32, w2: u32, w3: u32) -> U128
    ensures { result ≡ u128_of w0 w1 w2 w3 }
{
    U128 {
        low: u64::from(w0) + 0x1_0000_0000 * u64::from(w1),
        high: u64::from(w2) + 0x1_0000_0000 * u64::from(w3),
    }
}

// Five words, the first byte highest.
fn address_of(a0: u32, a1: u32, a2: u32, a3: u32, a4: u32) -> Address
    ensures { result ≡ record { a0 = a0; a1 = a1; a2 = a2; a3 = a3; a4 = a4 } }
{
    Address { a0, a1, a2, a3, a4 }
}

// The frame of a good row, of which no cast loses anything. By `try_from` with `?`, which tests and reads in one, a listing's cycle takes 110.7 instructions,
// and 101.1 where the test comes first, in trials that took the row by `as_chunks`; as it stands it takes 100.4 (docs/SPEED.md).
pub(crate) fn read(row: &[u32; ROW_WIDTH]) -> Frame
    requires { Bounds 16 row.now }
    ensures { result ≡ frame_of row.now }
{
    let [
        this0,
        this1,
        this2,
        this3,
        this4,
        sender0,
        sender1,
        sender2,
        sender3,
        sender4,
        code0,
        code1,
        code2,
        code3,
        code4,
        base_memory_page,
        code_page,
        sp,
        pc,
        handler,
        ergs_remaining,
        this_shard,
        caller_shard,
        code_shard,
        is_static,
        is_local,
        context0,
        context1,
        context2,
        context3,
        heap_bound,
        aux_heap_bound,
        spent,
        stipend,
        opening,
    ] = *row;
    Frame {
        this_address: address_of(this0, this1, this2, this3, this4),
        msg_sender: address_of(sender0, sender1, sender2, sender3, sender4),
        code_address: address_of(code0, code1, code2, code3, code4),
        base_memory_page,
        code_page,
        sp: sp as u16,
        pc: pc as u16,
        exception_handler_location: handler as u16,
        ergs_remaining,
        this_shard_id: this_shard as u8,
        caller_shard_id: caller_shard as u8,
        code_shard_id: code_shard as u8,
        is_static: is_static == 1,
        is_local_frame: is_local == 1,
        context_u128_value: u128_of(context0, context1, context2, context3),
        heap_bound,
        aux_heap_bound,
        total_pubdata_spent: pubdata_of(spent),
        stipend,
        opening_cycle: opening,
    }
}
