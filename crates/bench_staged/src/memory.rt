// The memory that answers the code query and the source location: four words of 64 bits make one word.
ghost use Rattle.std.specs.Prelude.{◌≡◌};
ghost use Rattle.bench_staged.specs.Memory.{word_indexed, memory_word};

use addressing::Location;
use u256::U256;

fn word_indexed(words: &[u64], index: u16) -> U256
    ensures { result ≡ word_indexed words.now index }
{
    let (places, _) = words.as_chunks::<4>();
    if places.is_empty() {
        u256::empty_word()
    } else {
        bench_lines::word_of(&places[usize::from(index) % places.len()])
    }
}

pub fn read(words: &[u64], location: Location) -> U256
    ensures { result ≡ memory_word words.now location }
{
    match location {
        Location::None => u256::empty_word(),
        Location::At { index, .. } => word_indexed(words, index),
    }
}
