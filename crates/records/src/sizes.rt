// Refusal 1, of every stage.
ghost use Rattle.std.specs.Prelude.{◌≡◌};
ghost use Rattle.records.specs.Sizes.{bad_sizes};

// For a store of so many words. The limit is cast: `usize` has no `From<u32>`, and `try_from` an error that cannot come.
pub fn bad_sizes(limit: u32, depth: u32, words: usize) -> bool
    ensures { result ≡ bad_sizes limit depth words }
{
    (limit == 0) | (words / frame::ROW_WIDTH < limit as usize) | (limit < depth)
}
