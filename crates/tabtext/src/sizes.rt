// The size of a text, which the definitions have in specs/Sizes.antt.
ghost use Rattle.std.specs.Prelude.{◌≡◌};
ghost use Rattle.tabtext.specs.Sizes.{most_bytes};

// Bytes of input.
pub const MAX_BYTES: usize = 65536;

// One for each constant, whose value it says; a generic one would still be told which.
pub fn max_bytes() -> usize
    ensures { result ≡ most_bytes }
{
    MAX_BYTES
}
