// A line of 58 words: the plain record, the panic record and the nop record, 19 words each, and the want.
ghost use Rattle.std.specs.Prelude.{◌≡◌, ℕ, ◌+◌, ◌%◌, ◌^◌, ◌<◌, length, take, drop, MatchOption};
ghost use Rattle.bench_lines.specs.Line.{record_width, line_width, is_set, record_from, line_records, want_of, word_at};

use records::{Record, Records};
use u256::U256;

// The words of a record.
const RECORD: usize = 19;

// The words of a line.
pub const LINE: usize = 3 * RECORD + 1;

// A field of a record: of a number the lowest bits of its word, by a cast, since no `From` takes them; yes is any word but 0.
// Three impls are alike: the width stands in the cast, and macros of our own are refused.
trait Field {
    ghost of_word: { ℕ → Self };

    fn of_word(word: u64) -> Self
        ensures { result ≡ of_word word };
}

impl Field for u8 {
    ghost of_word = { λ word. word % 2 ^ 8 };

    fn of_word(word: u64) -> u8 {
        (word % 0x100) as u8
    }
}

impl Field for u16 {
    ghost of_word = { λ word. word % 2 ^ 16 };

    fn of_word(word: u64) -> u16 {
        (word % 0x1_0000) as u16
    }
}

impl Field for u32 {
    ghost of_word = { λ word. word % 2 ^ 32 };

    fn of_word(word: u64) -> u32 {
        (word % 0x1_0000_0000) as u32
    }
}

impl Field for bool {
    ghost of_word = { is_set };

    fn of_word(word: u64) -> bool {
        word != 0
    }
}

#[tactic(auto, unfolding(crate::specs::Line::record_from))]
fn record_from(words: &[u64; RECORD]) -> Record
    ensures { result ≡ record_from words.now 0 }
{
    let [
        operation,
        return_kind,
        condition,
        source_kind,
        destination_kind,
        src0,
        src1,
        dst0,
        imm_0,
        imm_1,
        price,
        explicit_panic,
        kernel_only,
        allowed_when_static,
        swap,
        set_flags,
        to_label,
        src0_may_be_pointer,
        src1_may_be_pointer,
    ] = *words;
    Record {
        operation: Field::of_word(operation),
        return_kind: Field::of_word(return_kind),
        condition: Field::of_word(condition),
        source_kind: Field::of_word(source_kind),
        destination_kind: Field::of_word(destination_kind),
        src0: Field::of_word(src0),
        src1: Field::of_word(src1),
        dst0: Field::of_word(dst0),
        imm_0: Field::of_word(imm_0),
        imm_1: Field::of_word(imm_1),
        price: Field::of_word(price),
        explicit_panic: Field::of_word(explicit_panic),
        kernel_only: Field::of_word(kernel_only),
        allowed_when_static: Field::of_word(allowed_when_static),
        swap: Field::of_word(swap),
        set_flags: Field::of_word(set_flags),
        to_label: Field::of_word(to_label),
        src0_may_be_pointer: Field::of_word(src0_may_be_pointer),
        src1_may_be_pointer: Field::of_word(src1_may_be_pointer),
    }
}

fn next_record(words: &[u64]) -> Option<(Record, &[u64])>
    ensures { MatchOption result (length words.now < record_width) (λ p. (p.0 ≡ record_from (take record_width words.now) 0) × (p.1.now ≡ drop record_width words.now) × (length p.1.now + record_width ≡ length words.now)) }
{
    let (words, rest) = words.split_first_chunk::<RECORD>()?;
    Some((record_from(words), rest))
}

// The want follows the records; a line without it is not whole.
fn whole_records(line: &[u64]) -> Option<Records>
    ensures { MatchOption result (length line.now < line_width) (λ records. records ≡ line_records line.now) }
{
    let (plain, rest) = next_record(line)?;
    let (panic, rest) = next_record(rest)?;
    let (nop, rest) = next_record(rest)?;
    rest.first()?;
    Some(Records { plain, panic, nop })
}

// A line that is lent with a length known to the compiler is read with no test.
#[tactic(auto, unfolding(crate::specs::Line::line_records))]
pub fn line_records(line: &[u64]) -> Records
    ensures { result ≡ line_records line.now }
{
    whole_records(line).unwrap_or_default()
}

pub fn want_of(line: &[u64]) -> u32
    ensures { result ≡ want_of line.now }
{
    line.get(LINE - 1).map_or(0, |word| Field::of_word(*word))
}

// Four words, the lowest first.
pub fn word_of(words: &[u64; 4]) -> U256
    ensures { result ≡ word_at words.now 0 }
{
    let [w0, w1, w2, w3] = *words;
    U256 { w0, w1, w2, w3 }
}
