//! The numbers that the generated file and its messages have in common.

ghost use Rattle.std.specs.Prelude.{◌≡◌, ◌<◌};
ghost use Rattle.redn_gen.specs.Generated.{chain_count as count_of, key};

/// The key of a bucket.
pub fn key_of(n: u32, bucket: u64) -> u64
    requires { bucket < 512 }
    ensures { result ≡ key n bucket }
{
    64 * bucket + u64::from(n % 64) + 1
}

/// How many chains there are: 1 to 4.
pub fn chain_count(n: u32) -> u32
    ensures { result ≡ count_of n }
{
    1 + n % 4
}
