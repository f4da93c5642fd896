// The call stack's frames, and the frame store: a lent slice of words, one row for each saved frame.
#![tactic(auto)]

ghost use Rattle.std.specs.Prelude.{◌≡◌, ◌*◌, ◌≤◌};
ghost use Rattle.frame.specs.Kernel.{kernel_mode};
ghost use Rattle.frame.specs.Row.{frame_of};
ghost use Rattle.frame.specs.Store.{refusal_of, save_of, saved_store, row_number, save_refusal, read_of, read_refusal, row_at, saved_ergs};

mod row;

use refusal::Refusal;

// The words of a row.
pub const ROW_WIDTH: usize = 35;

// Where a row has its ergs.
const ERGS: usize = 20;

// 20 bytes in five words, the first byte highest.
#[derive(Clone, Copy, Default)]
pub struct Address {
    pub a0: u32,
    pub a1: u32,
    pub a2: u32,
    pub a3: u32,
    pub a4: u32,
}

// The Rust's u128, as the two words that document 01 makes of it (docs/DECISIONS.md, D35).
#[derive(Clone, Copy, Default)]
pub struct U128 {
    pub low: u64,
    pub high: u64,
}

#[derive(Clone, Copy, Default)]
pub struct PubdataCost(pub i32);

// The Rust's `CallStackEntry`, and the cycle counter at its opening, which the Rust keeps nowhere. The order leaves no hole of 3, 5, 6 or 7 bytes: such a hole slows
// each copy down. What the cycle of opening costs at other places is in docs/SPEED.md.
#[derive(Clone, Copy, Default)]
pub struct Frame {
    pub context_u128_value: U128,
    pub this_address: Address,
    pub msg_sender: Address,
    pub code_address: Address,
    pub base_memory_page: u32,
    pub code_page: u32,
    pub ergs_remaining: u32,
    pub opening_cycle: u32,
    pub sp: u16,
    pub pc: u16,
    pub exception_handler_location: u16,
    pub this_shard_id: u8,
    pub caller_shard_id: u8,
    pub code_shard_id: u8,
    pub is_static: bool,
    pub is_local_frame: bool,
    pub heap_bound: u32,
    pub aux_heap_bound: u32,
    pub total_pubdata_spent: PubdataCost,
    pub stipend: u32,
}

impl Frame {
    // The same frame, each narrow field and the cycle of opening copied by itself: several in one piece cost shifts in each cycle.
    pub fn apart(mut self) -> Frame
        ensures { result ≡ self }
    {
        let sp = self.sp;
        let pc = self.pc;
        let exception_handler_location = self.exception_handler_location;
        let this_shard_id = self.this_shard_id;
        let caller_shard_id = self.caller_shard_id;
        let code_shard_id = self.code_shard_id;
        let is_static = self.is_static;
        let is_local_frame = self.is_local_frame;
        let opening_cycle = self.opening_cycle;
        self.sp = sp;
        self.pc = pc;
        self.exception_handler_location = exception_handler_location;
        self.this_shard_id = this_shard_id;
        self.caller_shard_id = caller_shard_id;
        self.code_shard_id = code_shard_id;
        self.is_static = is_static;
        self.is_local_frame = is_local_frame;
        self.opening_cycle = opening_cycle;
        self
    }

    // The first 18 bytes are 0: no equality of addresses, since the last two bytes may be any.
    pub fn is_kernel_mode(self) -> bool
        ensures { result ≡ kernel_mode self }
    {
        let address = self.this_address;
        (address.a0 == 0)
            & (address.a1 == 0)
            & (address.a2 == 0)
            & (address.a3 == 0)
            & (address.a4 < 0x1_0000)
    }
}

// Why a row is not read or saved: the store has it not whole, or it is not good.
#[derive(Clone, Copy, Debug, PartialEq, Eq)]
pub enum RowError {
    Missing,
    NotGood,
}

impl From<RowError> for Refusal {
    ghost from_gives = { λ error refusal. refusal ≡ refusal_of error };

    fn from(error: RowError) -> Refusal {
        match error {
            RowError::Missing => Refusal::Sizes,
            RowError::NotGood => Refusal::NoCaller,
        }
    }
}

// Rows and depths have 32 bits. Where they count rows or words they are cast: `usize` has no `From<u32>`, and `try_from` an error that cannot come.

// Saves a frame as row i: the row is written through the part of the store that begins at it.
pub fn save_frame(store: &mut [u32], i: u32, f: Frame) -> Result<(), RowError>
    ensures { (result ≡ save_of store.old i)
        × (row_number result ≡ save_refusal store.old i)
        × (store.new ≡ saved_store store.old i f) }
{
    if store.len() / ROW_WIDTH <= i as usize {
        return Err(RowError::Missing);
    }
    let first = (i as usize) * ROW_WIDTH;
    row::write(&mut store[first..], f);
    Ok(())
}

// Reads row i. The test and the place are those of `save_frame`: a function of both would say again what the two lines say. By `as_chunks` and `get`, with the row tested and
// read in one, an opaque cycle takes 480.1 instructions and not 453.1.
pub fn read_frame(store: &[u32], i: u32) -> Result<Frame, RowError>
    ensures { (result ≡ read_of 16 store.now i) × (row_number result ≡ read_refusal 16 store.now i) }
{
    if store.len() / ROW_WIDTH <= i as usize {
        return Err(RowError::Missing);
    }
    let start = (i as usize) * ROW_WIDTH;
    let row = store[start..].first_chunk().unwrap();
    if !row::is_good(row) {
        return Err(RowError::NotGood);
    }
    Ok(row::read(row))
}

// The ergs of a row; a word that it has not counts as 0.
fn row_ergs(row: &[u32]) -> u32
    ensures { result ≡ (frame_of row.now).ergs_remaining }
{
    row.get(ERGS).copied().unwrap_or(0)
}

// The ergs of the first rows, as many as the depth. It stops at the store's end, so that no depth makes it slow.
pub fn saved_ergs(store: &[u32], depth: u32) -> u64
    ensures { (result ≡ saved_ergs depth store.now) × (result ≤ depth * 4294967295) }
{
    let mut sum: u64 = 0;
    for row in store.chunks(ROW_WIDTH).take(depth as usize) {
        sum += u64::from(row_ergs(row));
    }
    sum
}
